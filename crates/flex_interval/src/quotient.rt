ghost use Rattle.std.specs.Prelude.{◌≡◌, false, ◌≤◌, pos, ◌≤ℤ◌, ◌<ℤ◌, IfOk};
ghost use Rattle.std.specs.Int.{int_min, int_max};
ghost use Rattle.int_laws.specs.Division.{floor_of, ceil_of};
ghost use Rattle.flex_interval.specs.Fraction.{Fraction, Within, over};
ghost use Rattle.flex_interval.specs.Operations.{holds_zero, quotients, div_of};

use crate::fault::IvFault;
use crate::interval::Iv;
use crate::order::holds_zero;
use crate::scale::shifted;
use crate::sum::neg;
use flex_num::{ceil_div, floor_div};

/// `a * 2^s / b`. `Zero` where `b` holds 0, which is tested first; `Wide` where an end times `2^s` reaches 2^126 in size.
#[tactic(auto, unfolding(crate::specs::Operations::div_of))]
pub fn div(a: Iv, b: Iv, s: u32) -> Result<Iv, IvFault>
    requires { s ≤ 125 }
    ensures value { result ≡ div_of a b s }
    ensures within { IfOk result (λ e. (x y : Fraction) → Within a x → Within b y → Within e (over x y s)) }
{
    if holds_zero(b) {
        return Err(IvFault::Zero);
    }
    let dividend = shifted(a, s)?;
    Ok(signed_quotient(dividend, b))
}

/// `a / b`, for a `b` that doesn't hold 0.
fn signed_quotient(a: Iv, b: Iv) -> Iv
    requires { holds_zero b ≡ false }
    ensures value { result ≡ quotients a b }
    ensures within { (x y : Fraction) → Within a x → Within b y → Within result (over x y 0) }
{
    if b.lo > 0 {
        quotient(a, b)
    } else {
        quotient(neg(a), neg(b))
    }
}

/// `a / b`, for a `b` above 0.
#[tactic(auto, unfolding(crate::specs::Operations::quotients))]
fn quotient(a: Iv, b: Iv) -> Iv
    requires { pos 0 <ℤ b.lo }
    ensures value { result ≡ quotients a b }
    ensures within { (x y : Fraction) → Within a x → Within b y → Within result (over x y 0) }
{
    Iv {
        lo: least_quotient(a.lo, b.lo, b.hi),
        hi: greatest_quotient(a.hi, b.lo, b.hi),
    }
}

/// The lesser of `n / least` and `n / greatest`, rounded down.
fn least_quotient(n: i128, least: i128, greatest: i128) -> i128
    requires positive { pos 0 <ℤ least }
    requires ordered { least ≤ℤ greatest }
    ensures { result ≡ int_min (floor_of n least) (floor_of n greatest) }
{
    if n < 0 {
        floor_div(n, least)
    } else {
        floor_div(n, greatest)
    }
}

/// The greater of `n / least` and `n / greatest`, rounded up.
fn greatest_quotient(n: i128, least: i128, greatest: i128) -> i128
    requires positive { pos 0 <ℤ least }
    requires ordered { least ≤ℤ greatest }
    ensures { result ≡ int_max (ceil_of n least) (ceil_of n greatest) }
{
    if n < 0 {
        ceil_div(n, greatest)
    } else {
        ceil_div(n, least)
    }
}
