ghost use Rattle.std.specs.Prelude.{◌≡◌, IfOk};
ghost use Rattle.flex_interval.specs.Fraction.{Fraction, Within};
ghost use Rattle.angle_table.specs.Pi.{pi_ends};
ghost use Rattle.member_pairs.specs.Tubes.{IsRoundTube};
ghost use Rattle.member_pairs.specs.Vectors.{parts_of, IsWay};
ghost use Rattle.pipe_element.specs.ExactStraight.{axial_stiffness};
ghost use Rattle.pipe_element.specs.Rounded.{axial_of, stiffness_of, are_stiffnesses};
ghost use Rattle.pipe_element.specs.Shapes.{EnclosesStiffness};

use angle_table::pi;
use flex_interval::{Iv, IvFault, div, ratio};
use member_pairs::{Tube, Way, divisor, is_stiffness, load, square};

/// The stiffnesses of a straight, in units of 2^-20 N/m.
#[derive(Clone, Copy)]
pub struct Stiffness {
    /// EA/L.
    pub axial: Iv,
    /// GJ/L.
    pub torsion: Iv,
    /// EI/L.
    pub bending: Iv,
    /// 12EI/L^3.
    pub shear: Iv,
}

/// The stiffnesses of a tube along a way of this length.
#[tactic(auto, unfolding(crate::specs::Rounded::stiffness_of))]
pub fn stiffnesses(tube: &Tube, way: &Way, length: Iv) -> Result<Stiffness, IvFault>
    requires tube { IsRoundTube tube.now }
    requires way { IsWay way.now }
    ensures value { result ≡ stiffness_of tube.now way.now length }
    ensures within { IfOk result (λ k. (p l : Fraction) → Within pi_ends p → Within length l → EnclosesStiffness k tube.now (parts_of way.now) p l) }
{
    let axial = axial(tube, length)?;
    let bending = ratio(axial, tube.square_sum, 16_000_000_000_000)?;
    let torsion = ratio(bending, 1000, divisor(tube))?;
    let shear = ratio(bending, 12_000_000_000_000, square(way))?;
    Ok(Stiffness {
        axial,
        torsion,
        bending,
        shear,
    })
}

/// EA/L.
#[tactic(auto, unfolding(crate::specs::Rounded::axial_of))]
fn axial(tube: &Tube, length: Iv) -> Result<Iv, IvFault>
    requires { IsRoundTube tube.now }
    ensures value { result ≡ axial_of tube.now length }
    ensures within { IfOk result (λ e. (p l : Fraction) → Within pi_ends p → Within length l → Within e (axial_stiffness tube.now p l)) }
{
    let load = ratio(pi(), load(tube), 1)?;
    let lengths = ratio(length, 4, 1)?;
    div(load, lengths, 0)
}

/// Whether each stiffness is at least 1 and below 2^60.
pub fn are_stiffnesses(k: &Stiffness) -> bool
    ensures { result ≡ are_stiffnesses k.now }
{
    is_stiffness(k.axial)
        && is_stiffness(k.torsion)
        && is_stiffness(k.bending)
        && is_stiffness(k.shear)
}
