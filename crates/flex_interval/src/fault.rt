ghost use Rattle.std.specs.Prelude.{◌≡◌};

use thiserror::Error;

/// Why an operation on intervals has no answer.
#[derive(Clone, Copy, Debug, PartialEq, Eq, Error)]
pub enum IvFault {
    /// A product or a result reaches 2^126 in size.
    #[error("an interval leaves its limit")]
    Wide,
    /// A divisor holds 0.
    #[error("a divisor holds 0")]
    Zero,
}

/// An enclosure that leaves its limit, or has none.
#[derive(Clone, Copy, Debug, Error)]
#[error("an enclosure leaves its limit")]
pub struct Wide;

impl From<IvFault> for Wide {
    fn from(_fault: IvFault) -> Wide {
        Wide
    }
}
