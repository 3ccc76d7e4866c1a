ghost use Rattle.std.specs.Prelude.{◌≡◌};

use std::alloc::AllocError;
use thiserror::Error;

/// Why there is no stiffness matrix.
#[derive(Clone, Copy, Debug, Error)]
pub enum AssembleFault {
    /// An entry of the row reaches 2^60 in size, in units of 2^-20 N/m, or has no enclosure.
    #[error("row {row} of the stiffness matrix leaves its limit")]
    Wide { row: u32 },
    /// Memory ran out.
    #[error("out of memory")]
    NoMemory,
}

impl From<AllocError> for AssembleFault {
    ghost use Rattle.std.specs.Prelude.{◌≡◌};
    ghost use Rattle.assembly.specs.declared.fault.AssembleFault.{AssembleFault};
    ghost use Rattle.assembly.specs.declared.fault.AssembleFault.TheVariants as faults;

    ghost from_gives = { λ _ fault. fault ≡ faults.NoMemory };

    fn from(_error: AllocError) -> AssembleFault {
        AssembleFault::NoMemory
    }
}
