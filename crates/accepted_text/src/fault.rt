ghost use Rattle.std.specs.Prelude.{◌≡◌};
ghost use Rattle.accepted_text.specs.Faults.{text_fault, tree_fault};
ghost use Rattle.accepted_text.specs.declared.fault.AcceptFault.TheVariants.{NoMemory};

use elim_tree::TreeFault;
use model_text::TextFault;
use std::alloc::AllocError;
use thiserror::Error;

/// Why a text is not accepted.
#[derive(Clone, Copy, Debug, Error)]
pub enum AcceptFault {
    /// The text is refused by this number, at this line, counted from 1.
    #[error("refused {number} line {line}")]
    Refused { number: u8, line: u32 },
    #[error("out of memory")]
    NoMemory,
}

/// The number that refuses a text whose model has no elimination order or no assembly tree.
pub(crate) const FRONT: u8 = 16;

impl From<AllocError> for AcceptFault {
    ghost from_gives = { λ _ fault. fault ≡ NoMemory };

    fn from(_error: AllocError) -> AcceptFault {
        AcceptFault::NoMemory
    }
}

impl From<TextFault> for AcceptFault {
    ghost from_gives = { λ error fault. fault ≡ text_fault error };

    fn from(error: TextFault) -> AcceptFault {
        match error {
            TextFault::Refused { number, line } => AcceptFault::Refused { number, line },
            TextFault::NoMemory => AcceptFault::NoMemory,
        }
    }
}

impl From<TreeFault> for AcceptFault {
    ghost from_gives = { λ error fault. fault ≡ tree_fault error };

    fn from(error: TreeFault) -> AcceptFault {
        match error {
            TreeFault::Entries => AcceptFault::Refused {
                number: FRONT,
                line: 1,
            },
            TreeFault::NoMemory => AcceptFault::NoMemory,
        }
    }
}
