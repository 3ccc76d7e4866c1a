ghost use Rattle.std.specs.Prelude.{◌≡◌, pos, ◌≤ℤ◌, ◌<ℤ◌, IfOk};
ghost use Rattle.flex_interval.specs.Fraction.{Fraction, Within, times};
ghost use Rattle.member_pairs.specs.Vectors.{Exact, EnclosesVector};
ghost use Rattle.code_stress.specs.Straight.{about, about_of, straight_square, straight_square_of, about_square_of};

use crate::action::inner_product;
use flex_interval::{Iv, IvFault};
use member_pairs::{crossed_x, crossed_y, crossed_z};
use stress_terms::{bending, squared, sum};

/// The square of the bending stress of a straight's moment: that of its three parts across the tangent.
#[tactic(auto, unfolding(crate::specs::Straight::straight_square_of, crate::specs::Straight::straight_square))]
pub fn straight_square(moment: &[Iv; 3], tangent: &[Iv; 3], modulus: Iv) -> Result<Iv, IvFault>
    requires { pos 0 <ℤ modulus.lo }
    ensures value { result ≡ straight_square_of moment.now tangent.now modulus }
    ensures within { IfOk result (λ e. (m t : Exact) (z : Fraction) → EnclosesVector moment.now m → EnclosesVector tangent.now t → Within modulus z → Within e (straight_square m t z)) }
    ensures from_zero { IfOk result (λ e. pos 0 ≤ℤ e.lo) }
{
    let x = about_square(moment, &crossed_x(tangent), modulus)?;
    let y = about_square(moment, &crossed_y(tangent), modulus)?;
    let z = about_square(moment, &crossed_z(tangent), modulus)?;
    let first = sum(x, y)?;
    sum(first, z)
}

/// The square of the stress of the moment about an axis.
#[tactic(auto, unfolding(crate::specs::Straight::about_square_of))]
fn about_square(moment: &[Iv; 3], axis: &[Iv; 3], modulus: Iv) -> Result<Iv, IvFault>
    requires { pos 0 <ℤ modulus.lo }
    ensures value { result ≡ about_square_of moment.now axis.now modulus }
    ensures within { IfOk result (λ e. (m q : Exact) (z : Fraction) → EnclosesVector moment.now m → EnclosesVector axis.now q → Within modulus z → Within e (times (about m q z) (about m q z) 0)) }
    ensures from_zero { IfOk result (λ e. pos 0 ≤ℤ e.lo) }
{
    let stress = about(moment, axis, modulus)?;
    squared(stress)
}

/// The stress of the moment about an axis.
#[tactic(auto, unfolding(crate::specs::Straight::about_of, crate::specs::Straight::about))]
pub fn about(moment: &[Iv; 3], axis: &[Iv; 3], modulus: Iv) -> Result<Iv, IvFault>
    requires { pos 0 <ℤ modulus.lo }
    ensures value { result ≡ about_of moment.now axis.now modulus }
    ensures within { IfOk result (λ e. (m q : Exact) (z : Fraction) → EnclosesVector moment.now m → EnclosesVector axis.now q → Within modulus z → Within e (about m q z)) }
    ensures from_zero { IfOk result (λ e. pos 0 ≤ℤ e.lo) }
{
    let part = inner_product(moment, axis)?;
    bending(part, modulus)
}
