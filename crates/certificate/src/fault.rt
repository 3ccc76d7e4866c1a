ghost use Rattle.std.specs.Prelude.{◌≡◌};

use flex_interval::Wide;
use std::alloc::AllocError;
use thiserror::Error;

/// Why there are no bounds.
#[derive(Clone, Copy, Debug, PartialEq, Eq, Error)]
pub enum EncloseFault {
    /// A residual, a member's force or a radius leaves its limit.
    #[error("a bound leaves its limit")]
    Wide,
    /// The reach of a one-way member, over the bounds, lies on neither side of its gap; it is the first by its state number.
    #[error("state {number} lies on neither side")]
    State { number: u32 },
    /// Memory ran out.
    #[error("out of memory")]
    NoMemory,
}

impl From<AllocError> for EncloseFault {
    ghost use Rattle.std.specs.Prelude.{◌≡◌};
    ghost use Rattle.certificate.specs.declared.fault.EncloseFault.{EncloseFault};
    ghost use Rattle.certificate.specs.declared.fault.EncloseFault.TheVariants as faults;

    ghost from_gives = { λ _ fault. fault ≡ faults.NoMemory };

    fn from(_error: AllocError) -> EncloseFault {
        EncloseFault::NoMemory
    }
}

impl From<Wide> for EncloseFault {
    ghost use Rattle.std.specs.Prelude.{◌≡◌};
    ghost use Rattle.certificate.specs.declared.fault.EncloseFault.{EncloseFault};
    ghost use Rattle.certificate.specs.declared.fault.EncloseFault.TheVariants as faults;

    ghost from_gives = { λ _ fault. fault ≡ faults.Wide };

    fn from(_wide: Wide) -> EncloseFault {
        EncloseFault::Wide
    }
}
