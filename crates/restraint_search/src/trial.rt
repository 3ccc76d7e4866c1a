//! What the search asks of the mechanics.
ghost use Rattle.std.specs.Prelude.{◌≡◌, ◌↔◌, ℕ, List, Bool, length, IfOk, Err};

use std::alloc::AllocError;
use thiserror::Error;

/// Why nothing can be told of some states.
#[derive(Clone, Copy, Debug, Drop, Error)]
pub enum TrialFault {
    /// A row of the matrix of these states leaves its limit.
    #[error("row {row} of the matrix leaves its limit")]
    Matrix { row: u32 },
    /// The factorisation of that matrix meets a pivot below 1.
    #[error("pivot at node {node}, freedom {dof}")]
    Pivot { node: u32, dof: u32 },
    /// Its factor leaves its limit.
    #[error("the factor leaves its limit at node {node}")]
    Factor { node: u32 },
    /// A number of the refinement leaves its limit.
    #[error("a number of the refinement leaves its limit")]
    Solve,
    /// Memory ran out.
    #[error("out of memory")]
    NoMemory,
}

impl From<AllocError> for TrialFault {
    ghost use Rattle.std.specs.Prelude.{◌≡◌};
    ghost use Rattle.restraint_search.specs.declared.trial.TrialFault.{TrialFault};
    ghost use Rattle.restraint_search.specs.declared.trial.TrialFault.TheVariants as faults;

    ghost from_gives = { λ _ fault. fault ≡ faults.NoMemory };

    fn from(_error: AllocError) -> TrialFault {
        TrialFault::NoMemory
    }
}

/// Tells which of some states are violated. A state is `true` where its restraint is closed. Want of memory aside, what is told
/// of some states doesn't depend on what was tried before.
pub trait Trial {
    ghost use Rattle.restraint_search.specs.declared.trial.TrialFault.{TrialFault};

    /// States may be tried.
    ghost can_try: { Self → Type 0 };

    /// The number of states.
    ghost size: { Self → ℕ };

    /// Where those states are tried, these are the ones that are violated.
    ghost finds: { Self → List Bool → List Bool → Type 0 };

    /// Where those states are tried, this is the fault.
    ghost fails: { Self → List Bool → TrialFault → Type 0 };

    /// Which of these states are violated, one answer for each.
    fn try_states(&mut self, closed: &[bool]) -> Result<Vec<bool>, TrialFault>
        requires can_try { can_try self.old }
        requires one_each { length closed.now ≡ size self.old }
        ensures found { IfOk result (λ violated. finds self.old closed.now violated.items) }
        ensures one_each { IfOk result (λ violated. length violated.items ≡ size self.old) }
        ensures failed { (fault : TrialFault) → result ≡ Err fault → (fault ≡ TrialFault.NoMemory → ⊥) → fails self.old closed.now fault }

        // A trial changes nothing of what trials tell.
        ensures can_still_try { can_try self.new }
        ensures same_size { size self.new ≡ size self.old }
        ensures same_findings { (states violated : List Bool) → finds self.new states violated ↔ finds self.old states violated }
        ensures same_faults { (states : List Bool) (fault : TrialFault) → fails self.new states fault ↔ fails self.old states fault };
}
