ghost use Rattle.std.specs.Prelude.{◌≡◌, ◌≤◌, pos, ◌≤ℤ◌, IfOk};
ghost use Rattle.flex_interval.specs.Fraction.{Fraction, Within};
ghost use Rattle.flex_interval.specs.Operations.{cbrt_of};
ghost use Rattle.flex_interval.specs.Roots.{EnclosesRoot, IsNonnegative, raised};

use crate::fault::IvFault;
use crate::interval::Iv;
use crate::scale::shifted;
use flex_num::{icbrt, icbrt_up};

/// The cube root of `a * 2^s`, for an `a` that is nowhere negative. `Wide` where the upper end times `2^s` reaches 2^126.
#[tactic(auto, unfolding(crate::specs::Operations::cbrt_of))]
pub fn cbrt(a: Iv, s: u32) -> Result<Iv, IvFault>
    requires nonnegative { pos 0 ≤ℤ a.lo }
    requires shift { s ≤ 125 }
    ensures value { result ≡ cbrt_of a s }
    ensures encloses { IfOk result (EnclosesRoot 3 a s) }
    ensures within { IfOk result (λ b. (y : Fraction) → IsNonnegative y → Within a (raised y 3 s) → Within b y) }
{
    let cube = shifted(a, s)?;
    Ok(Iv {
        lo: icbrt(cube.lo),
        hi: icbrt_up(cube.hi),
    })
}
