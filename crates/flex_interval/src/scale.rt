ghost use Rattle.std.specs.Prelude.{◌≡◌, ◌^◌, ◌<◌, ◌≤◌, pos, ◌*ℤ◌, ◌<ℤ◌, unsigned_abs, IfOk};
ghost use Rattle.flex_interval.specs.Fraction.{Fraction, Within, scaled};
ghost use Rattle.flex_interval.specs.Operations.{product_of, multiple_of, shifted_of, ratio_of};

use crate::fault::IvFault;
use crate::interval::Iv;
use crate::sum::small;
use flex_num::{ceil_div, floor_div};

/// `a * n / m`, for a positive `m`. `Wide` where an end times `n` reaches 2^126 in size.
#[tactic(auto, unfolding(crate::specs::Operations::ratio_of))]
pub fn ratio(a: Iv, n: i128, m: i128) -> Result<Iv, IvFault>
    requires { pos 0 <ℤ m }
    ensures value { result ≡ ratio_of a n m }
    ensures within { IfOk result (λ e. (x : Fraction) → Within a x → Within e (scaled x n m)) }
{
    let product = multiple(a, n)?;
    Ok(Iv {
        lo: floor_div(product.lo, m),
        hi: ceil_div(product.hi, m),
    })
}

/// `a * n`. `Wide` where a product reaches 2^126 in size.
#[tactic(auto, unfolding(crate::specs::Operations::multiple_of))]
pub(crate) fn multiple(a: Iv, n: i128) -> Result<Iv, IvFault>
    ensures value { result ≡ multiple_of a n }
    ensures within { IfOk result (λ e. (x : Fraction) → Within a x → Within e (scaled x n (pos 1))) }
{
    let first = product(a.lo, n)?;
    let second = product(a.hi, n)?;
    Ok(Iv {
        lo: first.min(second),
        hi: first.max(second),
    })
}

/// `a * 2^s`. `Wide` where a product reaches 2^126 in size.
#[tactic(auto, unfolding(crate::specs::Operations::shifted_of))]
pub(crate) fn shifted(a: Iv, s: u32) -> Result<Iv, IvFault>
    requires { s ≤ 125 }
    ensures value { result ≡ shifted_of a s }
    ensures lo { IfOk result (λ e. e.lo ≡ a.lo *ℤ pos (2 ^ s)) }
    ensures hi { IfOk result (λ e. e.hi ≡ a.hi *ℤ pos (2 ^ s)) }
    ensures within { IfOk result (λ e. (x : Fraction) → Within a x → Within e (scaled x (pos (2 ^ s)) (pos 1))) }
{
    let unit = power(s);
    let lo = product(a.lo, unit)?;
    let hi = product(a.hi, unit)?;
    Ok(Iv { lo, hi })
}

/// `2^s`.
pub(crate) fn power(s: u32) -> i128
    requires { s ≤ 125 }
    ensures { result ≡ pos (2 ^ s) }
{
    1 << s
}

/// `a * b`, or `Wide` where it reaches 2^126 in size.
pub(crate) fn product(a: i128, b: i128) -> Result<i128, IvFault>
    ensures value { result ≡ product_of a b }
    ensures exact { IfOk result (λ p. p ≡ a *ℤ b) }
    ensures small { IfOk result (λ p. unsigned_abs p < 2 ^ 126) }
{
    match flex_num::mul(a, b) {
        Some(product) => small(product),
        None => Err(IvFault::Wide),
    }
}
