ghost use Rattle.std.specs.Prelude.{◌≡◌};
ghost use Rattle.elim_tree.specs.declared.fault.TreeFault.TheVariants.{NoMemory};

use std::alloc::{AllocError, AllocFailed};
use thiserror::Error;

/// Why an order has no assembly tree.
#[derive(Debug, Drop, Error)]
pub enum TreeFault {
    /// The tree has over 33,554,432 entries.
    #[error("the tree has too many entries")]
    Entries,
    #[error("out of memory")]
    NoMemory,
}

impl From<AllocError> for TreeFault {
    ghost from_gives = { λ _ e. e ≡ NoMemory };

    fn from(_error: AllocError) -> TreeFault {
        TreeFault::NoMemory
    }
}

impl<T: Drop> From<AllocFailed<T>> for TreeFault {
    ghost from_gives = { λ _ e. e ≡ NoMemory };

    fn from(_error: AllocFailed<T>) -> TreeFault {
        TreeFault::NoMemory
    }
}
