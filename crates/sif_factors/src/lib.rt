//! Flexibility and stress intensification factors of bends and tees (ASME B31.3-2016, Appendix D), and the factor of a number of cycles, enclosed.
#![tactic(auto)]

ghost use Rattle.std.specs.Prelude.{◌≡◌, Ok, ◌^◌, pos};
ghost use Rattle.flex_interval.specs.Fraction.{Fraction, Within, whole, plus, scaled};
ghost use Rattle.flex_interval.specs.Operations.{point_of};
ghost use Rattle.model_types.specs.Ranges.{TeeInForm};
ghost use Rattle.sif_factors.specs.Parts.{squared};
ghost use Rattle.sif_factors.specs.Characteristic.{HasBore, IsBendRadius, bend_characteristic, tee_square};
ghost use Rattle.sif_factors.specs.Index.{EnclosesIndex};
ghost use Rattle.sif_factors.specs.Factors.{AreFactors, AreFromOne, flexibility_factor, greater_cube, lesser_cube, bend_factors_of, tee_factors_of};

use flex_interval::{Iv, point};
use model_types::{Section, TeeKind};

mod characteristic;
mod cycles;
mod index;

pub use cycles::cycle_factor;

/// The factors of a bend or a tee.
#[derive(Clone, Copy)]
pub struct Factors {
    /// The flexibility factor, in units of 2^-56.
    pub k: Iv,
    /// The stress intensification factor in plane, in units of 2^-30.
    pub ii: Iv,
    /// The stress intensification factor out of plane, in units of 2^-30.
    pub io: Iv,
}

/// The factors of a bend of radius `r` in micrometres (Table D300, welding elbow or pipe bend).
#[tactic(auto, unfolding(crate::specs::Factors::bend_factors_of))]
pub fn bend_factors(s: &Section, r: i64) -> Factors
    requires section { HasBore s.now }
    requires radius { IsBendRadius s.now r }
    ensures value { bend_factors_of s.now r ≡ Ok result }
    ensures flexibility { Within result.k (flexibility_factor (bend_characteristic s.now r)) }
    ensures in_plane { EnclosesIndex greater_cube (squared (bend_characteristic s.now r)) result.ii }
    ensures out_of_plane { EnclosesIndex lesser_cube (squared (bend_characteristic s.now r)) result.io }
    ensures sizes { AreFactors result }
    ensures from_one { AreFromOne result }
{
    let inverse = characteristic::bend_inverse(s, r);
    let square = index::inverse_square(&inverse);
    Factors {
        k: index::bend_flexibility(&inverse),
        ii: index::index(square, 729, 1000),
        io: index::index(square, 27, 64),
    }
}

/// The factors of a tee by its header (Table D300, reinforced and unreinforced fabricated tees); k is 1.
#[tactic(auto, unfolding(crate::specs::Factors::tee_factors_of))]
pub fn tee_factors(header: &Section, kind: TeeKind) -> Factors
    requires section { HasBore header.now }
    requires kind { TeeInForm kind }
    ensures value { tee_factors_of header.now kind ≡ Ok result }
    ensures flexibility { result.k ≡ point_of (pos (2 ^ 56)) }
    ensures out_of_plane { EnclosesIndex greater_cube (tee_square header.now kind) result.io }
    ensures in_plane { (i : Fraction) → Within result.io i → Within result.ii (plus (scaled i (pos 3) (pos 4)) (whole (pos (2 ^ 28)))) }
    ensures sizes { AreFactors result }
    ensures from_one { AreFromOne result }
{
    let io = index::index(characteristic::tee_inverse_square(header, kind), 729, 1000);
    Factors {
        k: point(1 << 56),
        ii: index::in_plane(io),
        io,
    }
}
