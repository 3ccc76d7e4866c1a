ghost use Rattle.std.specs.Prelude.{◌≡◌, IfOk};
ghost use Rattle.flex_interval.specs.Fraction.{Fraction, Within};
ghost use Rattle.bend_element.specs.Arcs.{ExactArc, EnclosesArc};
ghost use Rattle.bend_element.specs.ExactBend.{cosine_square as exact_cosine_square, spread};
ghost use Rattle.bend_element.specs.Rounded.{integrals_of, spread_of};
ghost use Rattle.bend_element.specs.Stages.{EnclosesIntegrals};

use crate::arc::Arc;
use flex_interval::{Iv, IvFault, add, div, mul, ratio, sub};

/// Integrals over the angle from the middle of an arc, in units of 2^-56.
#[derive(Clone, Copy)]
pub struct Integrals {
    /// Of the square of the sine: a - sin cos.
    pub sine_square: Iv,
    /// Of the square of the cosine: a + sin cos.
    pub cosine_square: Iv,
    /// Of the square of the cosine less its mean: a + sin cos - 2 sin^2 / a.
    pub spread: Iv,
}

/// The integrals over an arc.
#[tactic(auto, unfolding(crate::specs::Rounded::integrals_of))]
pub fn arc_integrals(arc: &Arc) -> Result<Integrals, IvFault>
    ensures value { result ≡ integrals_of arc.now }
    ensures within { IfOk result (λ i. (x : ExactArc) → EnclosesArc arc.now x → EnclosesIntegrals i x) }
{
    let product = mul(arc.sin, arc.cos, 56)?;
    let sine_square = sub(arc.a, product)?;
    let cosine_square = add(arc.a, product)?;
    let spread = spread(arc, cosine_square)?;
    Ok(Integrals {
        sine_square,
        cosine_square,
        spread,
    })
}

/// The integral of the square of the cosine less its mean.
#[tactic(auto, unfolding(crate::specs::Rounded::spread_of))]
fn spread(arc: &Arc, cosine_square: Iv) -> Result<Iv, IvFault>
    ensures value { result ≡ spread_of arc.now cosine_square }
    ensures within { IfOk result (λ e. (x : ExactArc) → EnclosesArc arc.now x → Within cosine_square (exact_cosine_square x) → Within e (spread x)) }
{
    let square = mul(arc.sin, arc.sin, 56)?;
    let mean = div(square, arc.a, 56)?;
    let twice = ratio(mean, 2, 1)?;
    sub(cosine_square, twice)
}
