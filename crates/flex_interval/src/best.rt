ghost use Rattle.std.specs.Prelude.{◌≡◌, Ok, ◌*◌, ◌^◌, pos, ◌<ℤ◌};
ghost use Rattle.flex_interval.specs.BestRoot.{IsBestShift, half_shift_of};
ghost use Rattle.flex_interval.specs.Fraction.{Fraction, Within};
ghost use Rattle.flex_interval.specs.Operations.{point_of, sqrt_of};
ghost use Rattle.flex_interval.specs.Roots.{EnclosesRoot, IsNonnegative, raised};

use crate::interval::{Iv, point};
use crate::square_root::root;

/// The square root of a whole number from 1 on and below 2^124, to the most binary places: e and the root of `n * 2^e`, where e
/// is the greatest even number from 0 to 120 for which `n * 2^e` is below 2^124.
pub fn best_root(n: i128) -> (u32, Iv)
    requires low { pos 0 <ℤ n }
    requires high { n <ℤ pos (2 ^ 124) }
    ensures shift { result.0 ≡ 2 * half_shift_of n }
    ensures best { IsBestShift 60 n (half_shift_of n) }
    ensures value { sqrt_of (point_of n) result.0 ≡ Ok result.1 }
    ensures encloses { EnclosesRoot 2 (point_of n) result.0 result.1 }
    ensures within { (y : Fraction) → IsNonnegative y → Within (point_of n) (raised y 2 result.0) → Within result.1 y }
{
    let shift = 2 * half_shift(n);
    (shift, root(point(n), shift).unwrap())
}

/// Half of the shift.
fn half_shift(n: i128) -> u32
    requires low { pos 0 <ℤ n }
    requires high { n <ℤ pos (2 ^ 124) }
    ensures value { result ≡ half_shift_of n }
    ensures best { IsBestShift 60 n result }
{
    ((123 - n.ilog2()) / 2).min(60)
}
