ghost use Rattle.std.specs.Prelude.{◌≡◌, ◌≤◌, ◌^◌, Ok, pos, ◌≤ℤ◌, unsigned_abs};
ghost use Rattle.flex_interval.specs.Fraction.{Fraction, Within, scaled};
ghost use Rattle.flex_interval.specs.Operations.{ratio_of};
ghost use Rattle.load_vectors.specs.Totals.{IsOfLoads};

use flex_interval::{Iv, ratio};

/// `a * n / m`, for an `a` from 0 to 2^68, an `n` of at most 2^40 in size, and an `m` of at least 256: never a fault.
pub(crate) fn multiple(a: Iv, n: i128, m: i128) -> Iv
    requires lo { pos 0 ≤ℤ a.lo }
    requires hi { a.hi ≤ℤ pos (2 ^ 68) }
    requires factor { unsigned_abs n ≤ 2 ^ 40 }
    requires divisor { pos 256 ≤ℤ m }
    ensures value { ratio_of a n m ≡ Ok result }
    ensures within { (x : Fraction) → Within a x → Within result (scaled x n m) }
    ensures size { IsOfLoads 1 result }
{
    prove!(a.lo <= a.hi);
    ratio(a, n, m).unwrap()
}
