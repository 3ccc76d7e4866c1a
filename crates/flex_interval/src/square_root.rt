ghost use Rattle.std.specs.Prelude.{◌≡◌, ◌≤◌, pos, ◌≤ℤ◌, IfOk};
ghost use Rattle.flex_interval.specs.Fraction.{Fraction, Within};
ghost use Rattle.flex_interval.specs.Operations.{sqrt_of};
ghost use Rattle.flex_interval.specs.Roots.{EnclosesRoot, IsNonnegative, raised};

use crate::fault::IvFault;
use crate::interval::Iv;
use crate::scale::shifted;
use flex_num::{isqrt, isqrt_up};

/// The square root of `a * 2^s`, for an `a` that is nowhere negative. `Wide` where the upper end times `2^s` reaches 2^126.
#[tactic(auto, unfolding(crate::specs::Operations::sqrt_of))]
pub fn root(a: Iv, s: u32) -> Result<Iv, IvFault>
    requires nonnegative { pos 0 ≤ℤ a.lo }
    requires shift { s ≤ 125 }
    ensures value { result ≡ sqrt_of a s }
    ensures encloses { IfOk result (EnclosesRoot 2 a s) }
    ensures within { IfOk result (λ b. (y : Fraction) → IsNonnegative y → Within a (raised y 2 s) → Within b y) }
{
    let square = shifted(a, s)?;
    Ok(Iv {
        lo: isqrt(square.lo),
        hi: isqrt_up(square.hi),
    })
}
