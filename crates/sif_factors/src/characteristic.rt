ghost use Rattle.std.specs.Prelude.{◌≡◌, Ok, ◌*◌, ◌^◌, ◌⊎◌, pos, ◌*ℤ◌, ◌+ℤ◌, ◌≤ℤ◌, ◌<ℤ◌};
ghost use Rattle.flex_interval.specs.Fraction.{Within};
ghost use Rattle.sif_factors.specs.Parts.{in_parts, reciprocal};
ghost use Rattle.sif_factors.specs.Inverse.{InverseInRange};
ghost use Rattle.sif_factors.specs.Characteristic.{HasBore, IsBendRadius, mean_diameter as mean_diameter_of, tee_square};
ghost use Rattle.sif_factors.specs.Factors.{tee_inverse_square_of};
ghost use Rattle.model_types.specs.Ranges.{IsIn, TeeInForm};
ghost use Rattle.model_types.specs.declared.ranges.TheConstants.{PAD_THICKNESS, TEE_COEFFICIENT};
ghost use Rattle.model_types.specs.declared.records.TeeKind.{TeeKind};

use crate::index::{Inverse, inverse_square, padded};
use flex_interval::Iv;
use model_types::{Section, TeeKind};

/// `1/h` of a bend.
pub fn bend_inverse(s: &Section, r: i64) -> Inverse
    requires section { HasBore s.now }
    requires radius { IsBendRadius s.now r }
    ensures num { result.num ≡ mean_diameter_of s.now *ℤ mean_diameter_of s.now }
    ensures den { result.den ≡ pos 4 *ℤ (s.now.t *ℤ r) }
    ensures range { InverseInRange result }
{
    let diameter = mean_diameter(s);
    Inverse {
        num: diameter * diameter,
        den: 4 * (i128::from(s.t) * i128::from(r)),
    }
}

/// Twice the mean radius of the pipe, in micrometres.
fn mean_diameter(s: &Section) -> i128
    requires { HasBore s.now }
    ensures value { result ≡ mean_diameter_of s.now }
    ensures low { pos 0 <ℤ result }
    ensures high { result ≤ℤ pos 2000000 }
{
    i128::from(s.d - s.t)
}

/// `1/h^2` of a tee on this header, in units of 2^-40.
#[tactic(auto, unfolding(crate::specs::Factors::tee_inverse_square_of))]
pub fn tee_inverse_square(header: &Section, kind: TeeKind) -> Iv
    requires section { HasBore header.now }
    requires kind { TeeInForm kind }
    ensures value { tee_inverse_square_of header.now kind ≡ Ok result }
    ensures within { Within result (in_parts (reciprocal (tee_square header.now kind)) 40) }
    ensures lo { pos 0 ≤ℤ result.lo }
    ensures hi { result.hi ≤ℤ pos (10 ^ 10 * 2 ^ 40) }
{
    match kind {
        TeeKind::Unreinforced => inverse_square(&wall_inverse(header, 2)),
        TeeKind::Pad(thickness) => pad_inverse_square(header, thickness),
        TeeKind::Coefficient(c) => inverse_square(&coefficient_inverse(header, c)),
    }
}

/// `1/h^2` of a tee with a pad of this thickness, in units of 2^-40. A pad over 1.5 times the wall counts as four walls.
fn pad_inverse_square(header: &Section, thickness: i64) -> Iv
    requires section { HasBore header.now }
    requires pad { IsIn PAD_THICKNESS thickness }
    ensures value { tee_inverse_square_of header.now (TeeKind.Pad thickness) ≡ Ok result }
    ensures within { Within result (in_parts (reciprocal (tee_square header.now (TeeKind.Pad thickness))) 40) }
    ensures lo { pos 0 ≤ℤ result.lo }
    ensures hi { result.hi ≤ℤ pos (10 ^ 10 * 2 ^ 40) }
{
    if 2 * thickness <= 3 * header.t {
        padded(
            &pad_wall(header, thickness),
            &pad_inverse(header, thickness),
        )
    } else {
        inverse_square(&wall_inverse(header, 8))
    }
}

/// `1/h` for `h = n T / (2 r2)`.
fn wall_inverse(header: &Section, n: i64) -> Inverse
    requires section { HasBore header.now }
    requires low { pos 2 ≤ℤ n }
    requires high { n ≤ℤ pos 8 }
    ensures num { result.num ≡ mean_diameter_of header.now }
    ensures den { result.den ≡ n *ℤ header.now.t }
    ensures range { InverseInRange result }
{
    Inverse {
        num: mean_diameter(header),
        den: i128::from(n * header.t),
    }
}

/// `1/h` for `h = c T / r2`, with c in thousandths.
fn coefficient_inverse(header: &Section, c: i64) -> Inverse
    requires section { HasBore header.now }
    requires coefficient { IsIn TEE_COEFFICIENT c }
    ensures num { result.num ≡ pos 500 *ℤ mean_diameter_of header.now }
    ensures den { result.den ≡ c *ℤ header.now.t }
    ensures range { InverseInRange result }
{
    Inverse {
        num: 500 * mean_diameter(header),
        den: i128::from(c * header.t),
    }
}

/// `T / (T + p/2)` for a pad of thickness p.
fn pad_wall(header: &Section, thickness: i64) -> Inverse
    requires section { HasBore header.now }
    requires pad { IsIn PAD_THICKNESS thickness }
    ensures num { result.num ≡ pos 2 *ℤ header.now.t }
    ensures den { result.den ≡ (pos 2 *ℤ header.now.t) +ℤ thickness }
    ensures range { InverseInRange result }
{
    Inverse {
        num: i128::from(2 * header.t),
        den: i128::from(2 * header.t + thickness),
    }
}

/// `r2 / (T + p/2)` for a pad of thickness p.
fn pad_inverse(header: &Section, thickness: i64) -> Inverse
    requires section { HasBore header.now }
    requires pad { IsIn PAD_THICKNESS thickness }
    ensures num { result.num ≡ mean_diameter_of header.now }
    ensures den { result.den ≡ (pos 2 *ℤ header.now.t) +ℤ thickness }
    ensures range { InverseInRange result }
{
    Inverse {
        num: mean_diameter(header),
        den: i128::from(2 * header.t + thickness),
    }
}
