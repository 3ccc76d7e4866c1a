ghost use Rattle.std.specs.Prelude.{◌≡◌, ◌≤◌, pos, ◌≤ℤ◌, IfOk};
ghost use Rattle.flex_interval.specs.Fraction.{Fraction, Within, plus, times, magnitude};
ghost use Rattle.flex_interval.specs.Operations.{abs_of, add_of, mul_of};

use flex_interval::{Iv, IvFault, abs, add, mul};

/// The interval of sizes, from 0 on.
pub fn size(a: Iv) -> Iv
    ensures value { result ≡ abs_of a }
    ensures within { (x : Fraction) → Within a x → Within result (magnitude x) }
    ensures from_zero { pos 0 ≤ℤ result.lo }
{
    abs(a)
}

/// `a + b`, of two intervals from 0 on. `Wide` where an end reaches 2^126.
pub fn sum(a: Iv, b: Iv) -> Result<Iv, IvFault>
    requires a_lo { pos 0 ≤ℤ a.lo }
    requires b_lo { pos 0 ≤ℤ b.lo }
    ensures value { result ≡ add_of a b }
    ensures within { IfOk result (λ e. (x y : Fraction) → Within a x → Within b y → Within e (plus x y)) }
    ensures from_zero { IfOk result (λ e. pos 0 ≤ℤ e.lo) }
{
    add(a, b)
}

/// `a * b / 2^s`, of two intervals from 0 on. `Wide` where a product reaches 2^126.
pub(crate) fn product(a: Iv, b: Iv, s: u32) -> Result<Iv, IvFault>
    requires a_lo { pos 0 ≤ℤ a.lo }
    requires b_lo { pos 0 ≤ℤ b.lo }
    requires shift { s ≤ 125 }
    ensures value { result ≡ mul_of a b s }
    ensures within { IfOk result (λ e. (x y : Fraction) → Within a x → Within b y → Within e (times x y s)) }
    ensures from_zero { IfOk result (λ e. pos 0 ≤ℤ e.lo) }
{
    prove!(a.lo <= a.hi);
    prove!(b.lo <= b.hi);
    mul(a, b, s)
}

/// `a^2`, of an interval from 0 on. `Wide` where it reaches 2^126.
pub fn squared(a: Iv) -> Result<Iv, IvFault>
    requires { pos 0 ≤ℤ a.lo }
    ensures value { result ≡ mul_of a a 0 }
    ensures within { IfOk result (λ e. (x : Fraction) → Within a x → Within e (times x x 0)) }
    ensures from_zero { IfOk result (λ e. pos 0 ≤ℤ e.lo) }
{
    product(a, a, 0)
}
