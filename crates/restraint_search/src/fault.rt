ghost use Rattle.std.specs.Prelude.{◌≡◌};

use crate::trial::TrialFault;
use std::alloc::AllocError;
use thiserror::Error;

/// Why the search has no states.
#[derive(Clone, Copy, Debug, Drop, Error)]
pub enum SearchFault {
    /// After 200 turns a state is still violated.
    #[error("a state is still violated after 200 turns")]
    Turns,
    /// The trial of this turn, counted from 1, fails; its fault isn't want of memory.
    #[error("turn {turn}: {fault}")]
    Trial { turn: u32, fault: TrialFault },
    /// Memory ran out.
    #[error("out of memory")]
    NoMemory,
}

impl From<AllocError> for SearchFault {
    ghost use Rattle.std.specs.Prelude.{◌≡◌};
    ghost use Rattle.restraint_search.specs.declared.fault.SearchFault.{SearchFault};
    ghost use Rattle.restraint_search.specs.declared.fault.SearchFault.TheVariants as faults;

    ghost from_gives = { λ _ fault. fault ≡ faults.NoMemory };

    fn from(_error: AllocError) -> SearchFault {
        SearchFault::NoMemory
    }
}

/// The fault of a search whose trial of that turn fails.
pub fn fault_in_turn(turn: u32, fault: TrialFault) -> SearchFault
    ensures memory { fault ≡ TrialFault.NoMemory → result ≡ SearchFault.NoMemory }
    ensures told { (fault ≡ TrialFault.NoMemory → ⊥) → result ≡ SearchFault.Trial turn fault }
    ensures not_turns { result ≡ SearchFault.Turns → ⊥ }
{
    match fault {
        TrialFault::NoMemory => SearchFault::NoMemory,
        fault => SearchFault::Trial { turn, fault },
    }
}
