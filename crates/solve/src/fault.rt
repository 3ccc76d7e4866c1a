ghost use Rattle.std.specs.Prelude.{◌≡◌};

use flex_interval::{IvFault, Wide};
use std::alloc::AllocError;
use thiserror::Error;

/// Memory ran out.
pub type NoMemory = AllocError;

/// Why there is no candidate.
#[derive(Clone, Copy, Debug, Error)]
pub enum SolveFault {
    /// A number of a turn leaves its limit.
    #[error("a number of the refinement leaves its limit")]
    Wide,
    /// Memory ran out.
    #[error("out of memory")]
    NoMemory,
}

impl From<AllocError> for SolveFault {
    ghost use Rattle.std.specs.Prelude.{◌≡◌};
    ghost use Rattle.solve.specs.declared.fault.SolveFault.{SolveFault};
    ghost use Rattle.solve.specs.declared.fault.SolveFault.TheVariants as faults;

    ghost from_gives = { λ _ fault. fault ≡ faults.NoMemory };

    fn from(_error: AllocError) -> SolveFault {
        SolveFault::NoMemory
    }
}

impl From<Wide> for SolveFault {
    ghost use Rattle.std.specs.Prelude.{◌≡◌};
    ghost use Rattle.solve.specs.declared.fault.SolveFault.{SolveFault};
    ghost use Rattle.solve.specs.declared.fault.SolveFault.TheVariants as faults;

    ghost from_gives = { λ _ fault. fault ≡ faults.Wide };

    fn from(_wide: Wide) -> SolveFault {
        SolveFault::Wide
    }
}
