ghost use Rattle.std.specs.Prelude.{◌≡◌, ◌^◌, ◌<◌, pos, ◌+ℤ◌, ◌≤ℤ◌, unsigned_abs};
ghost use Rattle.int_laws.specs.Division.{IsFloor};
ghost use Rattle.flex_interval.specs.Operations.{middle_of, radius_of};

use crate::interval::Iv;

/// Half the sum of the ends, rounded down.
pub fn middle(e: Iv) -> i128
    ensures value { result ≡ middle_of e }
    ensures meaning { IsFloor (e.lo +ℤ e.hi) (pos 2) result }
    ensures small { unsigned_abs result < 2 ^ 126 }
{
    flex_num::floor_div(e.lo + e.hi, 2)
}

/// How far the upper end is from the middle; the lower end is no farther.
pub fn radius(e: Iv) -> i128
    ensures value { result ≡ radius_of e }
    ensures not_negative { pos 0 ≤ℤ result }
    ensures small { unsigned_abs result < 2 ^ 126 }
{
    e.hi - middle(e)
}
