ghost use Rattle.std.specs.Prelude.{◌≡◌, ◌^◌, ◌<◌, ◌≤◌, ◌*◌, ℤ, pos, ◌+ℤ◌, ◌*ℤ◌, ◌≤ℤ◌, ◌<ℤ◌, unsigned_abs, IfOk, OnErr};
ghost use Rattle.int_laws.specs.Division.{ceil_of};
ghost use Rattle.int_laws.specs.Root.{root_up_of};
ghost use Rattle.bound_laws.specs.Nearness.{greater_size, displacement_radius_of, force_radius_of, widened};
ghost use Rattle.member_set.specs.Members.{IsStiff};

use flex_interval::{Iv, Wide};

/// The square of a size below this is below the limit of the sum of squares.
const SIZE_LIMIT: u128 = 1 << 63;

/// The squares of the residuals sum to less than this.
const SQUARES_LIMIT: u128 = 1 << 126;

/// A radius is below this, in units of 2^-56 m or rad and of 2^-40 N or N m.
const RADIUS_LIMIT: i128 = 1 << 60;

/// Over a stiffness a length of residuals is so many times the displacement.
const LENGTH_SCALE: i128 = 1 << 36;

/// A ratio of stiffnesses is scaled by this, and its root by the root of it.
const RATIO_SCALE: i128 = 1 << 40;

/// The root of a ratio's scale.
const ROOT_SCALE: i128 = 1 << 20;

/// The greater size of an interval's ends.
fn greater_size(e: Iv) -> u128
    ensures { pos result ≡ greater_size e }
{
    e.lo.unsigned_abs().max(e.hi.unsigned_abs())
}

/// The square of a size; `Wide` where it reaches 2^126.
fn square(size: u128) -> Result<u128, Wide>
    ensures value { IfOk result (λ s. s ≡ size * size) }
    ensures small { IfOk result (λ s. s < 2 ^ 126) }
    ensures wide { OnErr result (2 ^ 126 ≤ size * size) }
{
    if size < SIZE_LIMIT {
        Ok(size * size)
    } else {
        Err(Wide)
    }
}

/// A sum of squares with that of an interval's greater size; `Wide` where it reaches 2^126.
pub fn plus_square(sum: u128, e: Iv) -> Result<u128, Wide>
    requires { sum < 2 ^ 126 }
    ensures value { IfOk result (λ s. pos s ≡ pos sum +ℤ (greater_size e *ℤ greater_size e)) }
    ensures short { IfOk result (λ s. s < 2 ^ 126) }
    ensures long { OnErr result (pos (2 ^ 126) ≤ℤ (pos sum +ℤ (greater_size e *ℤ greater_size e))) }
{
    let total = sum + square(greater_size(e))?;
    if total < SQUARES_LIMIT {
        Ok(total)
    } else {
        Err(Wide)
    }
}

/// The root of a sum of squares, rounded up.
pub fn root_of_squares(sum: u128) -> i128
    requires { sum < 2 ^ 126 }
    ensures value { result ≡ root_up_of (pos sum) }
    ensures not_negative { pos 0 ≤ℤ result }
    ensures bounded { result ≤ℤ pos (2 ^ 63) }
{
    flex_num::isqrt_up(sum as i128)
}

/// The product of two numbers from 0 to 2^63.
fn product(a: i128, b: i128) -> i128
    requires first_not_negative { pos 0 ≤ℤ a }
    requires first_bounded { a ≤ℤ pos (2 ^ 63) }
    requires second_not_negative { pos 0 ≤ℤ b }
    requires second_bounded { b ≤ℤ pos (2 ^ 63) }
    ensures value { result ≡ a *ℤ b }
    ensures not_negative { pos 0 ≤ℤ result }
    ensures bounded { result ≤ℤ pos (2 ^ 126) }
{
    a * b
}

/// A radius; `Wide` where it reaches 2^60.
fn limited(radius: i128) -> Result<i128, Wide>
    ensures same { IfOk result (λ x. x ≡ radius) }
    ensures small { IfOk result (λ x. x <ℤ pos (2 ^ 60)) }
    ensures wide { OnErr result (pos (2 ^ 60) ≤ℤ radius) }
{
    if radius < RADIUS_LIMIT {
        Ok(radius)
    } else {
        Err(Wide)
    }
}

/// The radius of displacements where the residuals have a length in units of 2^-40 N, and the stiffness is at least `lambda`,
/// in units of 2^-20 N/m; `Wide` where it reaches 2^60 units of 2^-56 m or rad.
pub fn displacement_radius(lambda: i128, size: i128) -> Result<i128, Wide>
    requires positive { pos 1 ≤ℤ lambda }
    requires not_negative { pos 0 ≤ℤ size }
    requires bounded { size ≤ℤ pos (2 ^ 63) }
    ensures value { IfOk result (λ x. x ≡ displacement_radius_of lambda size) }
    ensures not_negative { IfOk result (λ x. pos 0 ≤ℤ x) }
    ensures small { IfOk result (λ x. x <ℤ pos (2 ^ 60)) }
    ensures wide { OnErr result (pos (2 ^ 60) ≤ℤ displacement_radius_of lambda size) }
{
    limited(quotient_up(product(size, LENGTH_SCALE), lambda))
}

/// A quotient rounded up, of a number from 0 to 2^126.
fn quotient_up(n: i128, d: i128) -> i128
    requires not_negative { pos 0 ≤ℤ n }
    requires bounded { n ≤ℤ pos (2 ^ 126) }
    requires positive { pos 1 ≤ℤ d }
    ensures value { result ≡ ceil_of n d }
    ensures not_negative { pos 0 ≤ℤ result }
    ensures bounded { result ≤ℤ pos (2 ^ 126) }
{
    flex_num::ceil_div(n, d)
}

/// The root of the ratio of a stiffness to `lambda`, in units of 2^-20, each step rounded up.
fn root_of_ratio(lambda: i128, kappa: Iv) -> i128
    requires positive { pos 1 ≤ℤ lambda }
    requires stiff { IsStiff kappa }
    ensures value { result ≡ root_up_of (ceil_of (kappa.hi *ℤ pos (2 ^ 40)) lambda) }
    ensures not_negative { pos 0 ≤ℤ result }
    ensures bounded { result ≤ℤ pos (2 ^ 63) }
{
    flex_num::isqrt_up(quotient_up(product(kappa.hi, RATIO_SCALE), lambda))
}

/// A length times the root of a ratio, rounded up.
fn times_root(size: i128, root: i128) -> i128
    requires size_not_negative { pos 0 ≤ℤ size }
    requires size_bounded { size ≤ℤ pos (2 ^ 63) }
    requires root_not_negative { pos 0 ≤ℤ root }
    requires root_bounded { root ≤ℤ pos (2 ^ 63) }
    ensures value { result ≡ ceil_of (size *ℤ root) (pos (2 ^ 20)) }
    ensures not_negative { pos 0 ≤ℤ result }
{
    quotient_up(product(size, root), ROOT_SCALE)
}

/// The radius of the force of a member of stiffness `kappa`, likewise; `Wide` where it reaches 2^60 units of 2^-40 N or N m.
pub fn force_radius(lambda: i128, size: i128, kappa: Iv) -> Result<i128, Wide>
    requires positive { pos 1 ≤ℤ lambda }
    requires not_negative { pos 0 ≤ℤ size }
    requires bounded { size ≤ℤ pos (2 ^ 63) }
    requires stiff { IsStiff kappa }
    ensures value { IfOk result (λ x. x ≡ force_radius_of lambda size kappa.hi) }
    ensures not_negative { IfOk result (λ x. pos 0 ≤ℤ x) }
    ensures small { IfOk result (λ x. x <ℤ pos (2 ^ 60)) }
    ensures wide { OnErr result (pos (2 ^ 60) ≤ℤ force_radius_of lambda size kappa.hi) }
{
    limited(times_root(size, root_of_ratio(lambda, kappa)))
}

/// An interval wider by a radius on both sides.
pub fn widened(e: Iv, radius: i128) -> Iv
    requires lower { unsigned_abs e.lo ≤ 2 ^ 66 }
    requires upper { unsigned_abs e.hi ≤ 2 ^ 66 }
    requires not_negative { pos 0 ≤ℤ radius }
    requires small { radius <ℤ pos (2 ^ 60) }
    ensures { result ≡ widened e radius }
{
    Iv {
        lo: e.lo - radius,
        hi: e.hi + radius,
    }
}
