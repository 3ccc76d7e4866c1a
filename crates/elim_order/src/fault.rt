ghost use Rattle.std.specs.Prelude.{◌≡◌};
ghost use Rattle.elim_order.specs.declared.fault.OrderFault.TheVariants.{NoMemory};

use std::alloc::{AllocError, AllocFailed};
use thiserror::Error;

/// Why a graph has no elimination order.
#[derive(Debug, Drop, Error)]
pub enum OrderFault {
    /// The first node in elimination order that has over 31 neighbours left as it is eliminated.
    #[error("node {node} is too broad")]
    Broad { node: u32 },
    #[error("out of memory")]
    NoMemory,
}

impl From<AllocError> for OrderFault {
    ghost from_gives = { λ _ e. e ≡ NoMemory };

    fn from(_error: AllocError) -> OrderFault {
        OrderFault::NoMemory
    }
}

impl<T: Drop> From<AllocFailed<T>> for OrderFault {
    ghost from_gives = { λ _ e. e ≡ NoMemory };

    fn from(_error: AllocFailed<T>) -> OrderFault {
        OrderFault::NoMemory
    }
}
