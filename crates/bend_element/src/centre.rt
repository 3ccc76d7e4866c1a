ghost use Rattle.std.specs.Prelude.{◌≡◌, IfOk};
ghost use Rattle.flex_interval.specs.Fraction.{Fraction, Within};
ghost use Rattle.bend_element.specs.Arcs.{IsArc, ExactArc, EnclosesArc};
ghost use Rattle.bend_element.specs.ExactBend.{centre};
ghost use Rattle.bend_element.specs.Rounded.{centre_of};

use crate::arc::{Arc, radius};
use flex_interval::{Iv, IvFault, div, ratio, sub};

/// `R (u / v - cos)`: the place of an elastic centre past the chord's middle, in units of 2^-56 m.
#[tactic(auto, unfolding(crate::specs::Rounded::centre_of))]
pub fn elastic_centre(arc: &Arc, u: Iv, v: Iv) -> Result<Iv, IvFault>
    requires { IsArc arc.now }
    ensures value { result ≡ centre_of arc.now u v }
    ensures within { IfOk result (λ e. (x : ExactArc) (p q : Fraction) → EnclosesArc arc.now x → Within u p → Within v q → Within e (centre x p q)) }
{
    let quotient = div(u, v, 56)?;
    let past = sub(quotient, arc.cos)?;
    ratio(past, radius(arc), 1_000_000)
}
