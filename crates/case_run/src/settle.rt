ghost use Rattle.std.specs.Prelude.{◌≡◌, length, IfOk};
ghost use Rattle.lists.specs.Results.{Gives};
ghost use Rattle.member_set.specs.Members.{IsModerate, row_count};
ghost use Rattle.case_run.specs.Faults.{reason_told, search_fault, turn_fault};
ghost use Rattle.case_run.specs.Trials.{trial_in, search_of};
ghost use Rattle.case_run.specs.Trying.{CanTry, system_of};

use crate::fault::CaseFault;
use crate::maker::Maker;
use crate::trial::{CaseTrial, candidate_under};
use model_types::{Cause, NodeId};
use restraint_search::{SearchFault, TrialFault, search};

/// The displacements under the states at which a case's search ends, in units of 2^-56 m or rad; or the first cause why it
/// has none, with its turn.
pub(crate) fn settled<M: Maker>(t: &CaseTrial<M>) -> Result<Vec<i128>, CaseFault>
    requires { CanTry (M.plan t.now.maker.now) (M.takes t.now.maker.now) t.now }
    ensures given { Gives (λ u. u.items) reason_told (search_of (trial_in (M.plan t.now.maker.now) (system_of t.now)) t.now.start.now) result }
    ensures one_each { IfOk result (λ u. length u.items ≡ row_count t.now.b.now) }
    ensures moderate { IfOk result (λ u. IsModerate u.items) }
{
    let mut trial = *t;
    let closed = match search(t.alloc, &mut trial, t.start) {
        Ok(closed) => closed,
        Err(fault) => return Err(search_fault(fault)),
    };
    // The trial of these states found something, so that only memory can be short.
    match candidate_under(t, &closed) {
        Ok(u) => Ok(u),
        Err(fault) => Err(turn_fault(1, fault)),
    }
}

/// The fault of a case whose search has a fault.
fn search_fault(fault: SearchFault) -> CaseFault
    ensures { result ≡ search_fault fault }
{
    match fault {
        SearchFault::Turns => CaseFault::Because(Cause::Turns),
        SearchFault::Trial { turn, fault } => turn_fault(turn, fault),
        SearchFault::NoMemory => CaseFault::NoMemory,
    }
}

/// The fault of a case whose trial in a turn has a fault.
fn turn_fault(turn: u32, fault: TrialFault) -> CaseFault
    ensures { result ≡ turn_fault turn fault }
{
    match fault {
        TrialFault::Matrix { row } => CaseFault::Because(Cause::WidthMatrix {
            node: NodeId(row / 6),
            freedom: row % 6,
        }),
        TrialFault::Pivot { node, dof } => CaseFault::Because(Cause::Pivot {
            node: NodeId(node),
            freedom: dof,
        }),
        TrialFault::Factor { node } => CaseFault::Because(Cause::WidthFactor(NodeId(node))),
        TrialFault::Solve => CaseFault::Because(Cause::WidthSolve { turn }),
        TrialFault::NoMemory => CaseFault::NoMemory,
    }
}
