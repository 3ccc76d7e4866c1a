//! The outside of the program: where bytes come from and go to, what may fail there, and how a
//! run ends.
#![tactic(auto)]

mod delivery;
mod gates;
mod outcome;
mod safe;
mod standard;
mod streams;
mod transfer;

pub use delivery::deliver;
pub use gates::{Gate, Idle};
pub use outcome::{Status, code};
pub use safe::{SafeSink, SafeSource};
pub use standard::{StdSink, StdSource};
use std::alloc::AllocError;
pub use streams::{Failed, Sink, Source};
pub use transfer::{TakeFault, put_all, take_all};

/// Memory ran out.
pub type NoMemory = AllocError;
