use model_types::ElementId;
use std::alloc::AllocError;
use thiserror::Error;

/// Why a model has no structure.
#[derive(Clone, Copy, Debug, Error)]
pub enum BuildFault {
    /// The members of the element leave their limits; it is the first such element.
    #[error("element {0:?} leaves its limits")]
    Wide(ElementId),
    /// Memory ran out.
    #[error("out of memory")]
    NoMemory,
}

impl From<AllocError> for BuildFault {
    ghost use Rattle.std.specs.Prelude.{◌≡◌};
    ghost use Rattle.structure.specs.declared.fault.BuildFault.{BuildFault};
    ghost use Rattle.structure.specs.declared.fault.BuildFault.TheVariants as faults;

    ghost from_gives = { λ _ fault. fault ≡ faults.NoMemory };

    fn from(_error: AllocError) -> BuildFault {
        BuildFault::NoMemory
    }
}
