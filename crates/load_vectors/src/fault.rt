use std::alloc::AllocError;
use thiserror::Error;

/// Why a case has no loads.
#[derive(Clone, Copy, Debug, Error)]
pub enum LoadFault {
    /// The load of the row reaches 2^66 in size, in units of 2^-40 N or N m; it is the first such row.
    #[error("the load of row {row} leaves its limit")]
    Wide { row: u32 },
    /// Memory ran out.
    #[error("out of memory")]
    NoMemory,
}

impl From<AllocError> for LoadFault {
    ghost use Rattle.std.specs.Prelude.{◌≡◌};
    ghost use Rattle.load_vectors.specs.declared.fault.LoadFault.{LoadFault};
    ghost use Rattle.load_vectors.specs.declared.fault.LoadFault.TheVariants as faults;

    ghost from_gives = { λ _ fault. fault ≡ faults.NoMemory };

    fn from(_error: AllocError) -> LoadFault {
        LoadFault::NoMemory
    }
}
