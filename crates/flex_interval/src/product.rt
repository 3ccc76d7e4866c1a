ghost use Rattle.std.specs.Prelude.{◌≡◌, ◌↔◌, ◌^◌, ◌<◌, ◌≤◌, true, pos, ◌*ℤ◌, unsigned_abs, IfOk, Ok};
ghost use Rattle.int_laws.specs.Division.{floor_of, ceil_of};
ghost use Rattle.flex_interval.specs.Fraction.{Fraction, Within, times};
ghost use Rattle.flex_interval.specs.Ends.{IsNarrow};
ghost use Rattle.flex_interval.specs.Operations.{point_of, product_of, products_of, mul_of};

use crate::fault::IvFault;
use crate::interval::{Iv, point};
use crate::scale::multiple;

// Two numbers below this in size have a product far from the limit.
const NARROW: i128 = 1 << 62;

/// `a * b / 2^s`. `Wide` where the product of an end by an end reaches 2^126 in size.
#[tactic(auto, unfolding(crate::specs::Operations::mul_of))]
pub fn mul(a: Iv, b: Iv, s: u32) -> Result<Iv, IvFault>
    requires { s ≤ 125 }
    ensures value { result ≡ mul_of a b s }
    ensures within { IfOk result (λ e. (x y : Fraction) → Within a x → Within b y → Within e (times x y s)) }
{
    let product = products(a, b)?;
    Ok(Iv {
        lo: shift_down(product.lo, s),
        hi: shift_up(product.hi, s),
    })
}

/// The least and the greatest of the four products of an end by an end. Where one operand is 0 nothing is multiplied, and where both are
/// narrow no product is tested.
fn products(a: Iv, b: Iv) -> Result<Iv, IvFault>
    ensures value { result ≡ products_of a b }
{
    if is_zero(a) || is_zero(b) {
        Ok(point(0))
    } else if is_narrow(a) && is_narrow(b) {
        Ok(narrow_products(a, b))
    } else {
        wide_products(a, b)
    }
}

/// Whether 0 is the only number of `a`.
fn is_zero(a: Iv) -> bool
    ensures { result ≡ true ↔ (a ≡ point_of (pos 0)) }
{
    a.lo == 0 && a.hi == 0
}

/// Whether both ends are far below the limit.
fn is_narrow(a: Iv) -> bool
    ensures { result ≡ true → IsNarrow a }
{
    -NARROW < a.lo && a.hi < NARROW
}

/// The least and the greatest of the four products of narrow ends, none of which leaves the limit.
fn narrow_products(a: Iv, b: Iv) -> Iv
    requires a { IsNarrow a }
    requires b { IsNarrow b }
    ensures value { products_of a b ≡ Ok result }
{
    let (first, second) = (narrow_product(a.lo, b.lo), narrow_product(a.hi, b.lo));
    let (third, fourth) = (narrow_product(a.lo, b.hi), narrow_product(a.hi, b.hi));
    Iv {
        lo: first.min(second).min(third.min(fourth)),
        hi: first.max(second).max(third.max(fourth)),
    }
}

/// The product of two narrow numbers.
fn narrow_product(x: i128, y: i128) -> i128
    requires x { unsigned_abs x < 2 ^ 62 }
    requires y { unsigned_abs y < 2 ^ 62 }
    ensures value { result ≡ x *ℤ y }
    ensures small { product_of x y ≡ Ok result }
    ensures size { unsigned_abs result < 2 ^ 126 }
{
    x * y
}

/// The least and the greatest of the four products, each of which is tested.
fn wide_products(a: Iv, b: Iv) -> Result<Iv, IvFault>
    ensures value { result ≡ products_of a b }
{
    let lower = multiple(a, b.lo)?;
    let upper = multiple(a, b.hi)?;
    Ok(Iv {
        lo: lower.lo.min(upper.lo),
        hi: lower.hi.max(upper.hi),
    })
}

/// `n / 2^s` rounded down.
fn shift_down(n: i128, s: u32) -> i128
    requires size { unsigned_abs n < 2 ^ 126 }
    requires shift { s ≤ 125 }
    ensures value { result ≡ floor_of n (pos (2 ^ s)) }
    ensures size { unsigned_abs result < 2 ^ 126 }
{
    n >> s
}

/// `n / 2^s` rounded up.
fn shift_up(n: i128, s: u32) -> i128
    requires size { unsigned_abs n < 2 ^ 126 }
    requires shift { s ≤ 125 }
    ensures value { result ≡ ceil_of n (pos (2 ^ s)) }
    ensures size { unsigned_abs result < 2 ^ 126 }
{
    -shift_down(-n, s)
}
