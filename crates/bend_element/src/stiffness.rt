ghost use Rattle.std.specs.Prelude.{◌≡◌, IfOk};
ghost use Rattle.flex_interval.specs.Fraction.{Fraction, Within};
ghost use Rattle.angle_table.specs.Pi.{pi_ends};
ghost use Rattle.member_pairs.specs.Tubes.{IsRoundTube};
ghost use Rattle.bend_element.specs.Arcs.{IsArc, ExactArc, EnclosesArc};
ghost use Rattle.bend_element.specs.ExactBend.{rigidity as exact_rigidity};
ghost use Rattle.bend_element.specs.Rounded.{rigidity_of, stiffness_of};
ghost use Rattle.bend_element.specs.Stages.{EnclosesFlexibility, EnclosesStiffness};

use crate::arc::{Arc, four_radii};
use crate::flexibility::Flexibility;
use angle_table::pi;
use flex_interval::{Iv, IvFault, div, point, ratio};
use member_pairs::{Tube, load};

/// The six stiffnesses of a bend, in units of 2^-20 N/m.
#[derive(Clone, Copy)]
pub struct Stiffness {
    pub rotation: Iv,
    pub radial: Iv,
    pub chord: Iv,
    pub radius_moment: Iv,
    pub chord_moment: Iv,
    pub normal: Iv,
}

/// EI/R.
#[tactic(auto, unfolding(crate::specs::Rounded::rigidity_of))]
pub fn rigidity(tube: &Tube, arc: &Arc) -> Result<Iv, IvFault>
    requires tube { IsRoundTube tube.now }
    requires arc { IsArc arc.now }
    ensures value { result ≡ rigidity_of tube.now arc.now }
    ensures within { IfOk result (λ e. (p : Fraction) (x : ExactArc) → Within pi_ends p → EnclosesArc arc.now x → Within e (exact_rigidity tube.now x p)) }
{
    let load = ratio(pi(), load(tube), 1)?;
    let axial = div(load, point(four_radii(arc)), 0)?;
    ratio(axial, tube.square_sum, 16_000_000_000_000)
}

/// EI/R by each flexibility.
#[tactic(auto, unfolding(crate::specs::Rounded::stiffness_of))]
pub fn stiffnesses(rigidity: Iv, f: &Flexibility) -> Result<Stiffness, IvFault>
    ensures value { result ≡ stiffness_of rigidity f.now }
    ensures within { IfOk result (λ k. (tube : Tube) (x : ExactArc) (p : Fraction) → Within rigidity (exact_rigidity tube x p) → EnclosesFlexibility f.now tube x → EnclosesStiffness k tube x p) }
{
    let rotation = div(rigidity, f.plane.rotation, 56)?;
    let radial = div(rigidity, f.plane.radial, 56)?;
    let chord = div(rigidity, f.plane.chord, 56)?;
    let radius_moment = div(rigidity, f.across.radius_moment, 56)?;
    let chord_moment = div(rigidity, f.across.chord_moment, 56)?;
    let normal = div(rigidity, f.across.normal, 56)?;
    Ok(Stiffness {
        rotation,
        radial,
        chord,
        radius_moment,
        chord_moment,
        normal,
    })
}
