ghost use Rattle.std.specs.Prelude.{◌≡◌};
ghost use Rattle.factor.specs.declared.fault.ScalarFault.TheVariants.{NoMemory};

use std::alloc::{AllocError, AllocFailed};
use thiserror::Error;

/// Why a matrix has no factor: the first breakdown of the recurrence, in elimination order.
#[derive(Debug, Drop, Error)]
pub enum ScalarFault {
    /// What is left for this freedom of the node is below 1: the matrix, less the shift, is not positive definite.
    #[error("pivot at freedom {dof} of node {node}")]
    Pivot { node: u32, dof: u32 },
    /// The node's columns have an entry of 2^57 or more, or their squares over its subtree reach 2^113 in a row past it.
    #[error("node {node} is too wide")]
    Wide { node: u32 },
    #[error("out of memory")]
    NoMemory,
}

impl From<AllocError> for ScalarFault {
    ghost from_gives = { λ _ e. e ≡ NoMemory };

    fn from(_error: AllocError) -> ScalarFault {
        ScalarFault::NoMemory
    }
}

impl<T: Drop> From<AllocFailed<T>> for ScalarFault {
    ghost from_gives = { λ _ e. e ≡ NoMemory };

    fn from(_error: AllocFailed<T>) -> ScalarFault {
        ScalarFault::NoMemory
    }
}
