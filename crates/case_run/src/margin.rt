ghost use Rattle.std.specs.Prelude.{◌≡◌, ◌<◌, ◌≤◌, ℕ, length, IfOk, ℤ, pos, ◌≤ℤ◌, ◌^◌};
ghost use Rattle.lists.specs.Results.{Gives};
ghost use Rattle.sym_blocks.specs.Matrix.{entry};
ghost use Rattle.case_run.specs.Answers.{margin_at, margin_of};
ghost use Rattle.case_run.specs.Faults.{reason_told};
ghost use Rattle.case_run.specs.Certified.{shift_of, last_place};
ghost use Rattle.case_run.specs.Steps.{IsFactorable, IsPlan, IsRadiusMatrix};

use crate::fault::CaseFault;
use crate::maker::Maker;
use crate::steps::factor_of;
use certificate::{CheckSpace, Verdict, check_definite};
use model_types::{Cause, NodeId};
use std::alloc::Global;
use sym_blocks::SymBlocks;

/// The place of the last shift: the shifts go from 2^44 down to 2^10 by factors of 4.
const LAST_PLACE: u32 = 17;

/// The shift at a place, in units of 2^-20 N/m.
fn shift_of(place: u32) -> i128
    requires { place ≤ 17 }
    ensures value { result ≡ shift_of place }
    ensures low { pos 0 ≤ℤ result }
    ensures high { result ≤ℤ pos (2 ^ 44) }
{
    1 << (44 - 2 * place)
}

/// The margin at a shift, in units of 2^-20 N/m.
fn margin_at<M: Maker>(
    alloc: Global,
    maker: &M,
    middles: &SymBlocks,
    radii: &SymBlocks,
    shift: i128,
) -> Result<i128, CaseFault>
    requires plan { IsPlan (M.plan maker.now) }
    requires factorable { IsFactorable (length (M.plan maker.now).order) middles.now }
    requires radii { IsRadiusMatrix (length (M.plan maker.now).order) radii.now }
    requires takes { M.takes maker.now (entry middles.now) }
    requires shift_low { pos 0 ≤ℤ shift }
    requires shift_high { shift ≤ℤ pos (2 ^ 44) }
    ensures given { Gives (λ lambda. lambda) reason_told (margin_at (M.plan maker.now) (entry middles.now) (entry radii.now) shift) result }
    ensures positive { IfOk result (λ lambda. pos 1 ≤ℤ lambda) }
{
    let factor = factor_of(maker, middles, shift)?;
    let mut space = CheckSpace::new(alloc, &factor)?;
    match check_definite(middles, radii, &factor, shift, &mut space) {
        Verdict::Yes { lambda } => Ok(lambda),
        Verdict::No { row } => Err(CaseFault::Because(Cause::Margin {
            node: NodeId(row / 6),
            freedom: row % 6,
        })),
    }
}

/// The margin at the first shift that passes. Where none does, the cause is that of the last.
pub(crate) fn margin_of<M: Maker>(
    alloc: Global,
    maker: &M,
    middles: &SymBlocks,
    radii: &SymBlocks,
) -> Result<i128, CaseFault>
    requires plan { IsPlan (M.plan maker.now) }
    requires factorable { IsFactorable (length (M.plan maker.now).order) middles.now }
    requires radii { IsRadiusMatrix (length (M.plan maker.now).order) radii.now }
    requires takes { M.takes maker.now (entry middles.now) }
    ensures given { Gives (λ lambda. lambda) reason_told (margin_of (M.plan maker.now) (entry middles.now) (entry radii.now)) result }
    ensures positive { IfOk result (λ lambda. pos 1 ≤ℤ lambda) }
{
    for place in 0..LAST_PLACE {
        match margin_at(alloc, maker, middles, radii, shift_of(place)) {
            Ok(lambda) => return Ok(lambda),
            Err(CaseFault::NoMemory) => return Err(CaseFault::NoMemory),
            Err(CaseFault::Because(_)) => {}
        }
    }
    margin_at(alloc, maker, middles, radii, shift_of(LAST_PLACE))
}
