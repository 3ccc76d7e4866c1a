//! Faults of drafts.
use std::alloc::AllocError;
use thiserror::Error;

/// Why a record was not added to a draft.
#[derive(Clone, Copy, Debug, PartialEq, Eq, Error)]
pub enum AddFault {
    /// The record breaks the rule of this number: 8 to 14.
    #[error("refused {0}")]
    Refused(u8),
    #[error("out of memory")]
    NoMemory,
}

impl From<AllocError> for AddFault {
    ghost use Rattle.std.specs.Prelude.{◌≡◌};
    ghost use Rattle.model_types.specs.declared.faults.AddFault.TheVariants.{NoMemory};

    ghost from_gives = { λ _ e. e ≡ NoMemory };

    fn from(_error: AllocError) -> AddFault {
        AddFault::NoMemory
    }
}

/// Why a draft is no model.
#[derive(Clone, Copy, Debug, Error)]
pub enum WholeFault {
    /// There is no node.
    #[error("no node")]
    Missing,
    /// The tee of this number breaks the rule of tees.
    #[error("tee {0}")]
    Tee(u32),
}
