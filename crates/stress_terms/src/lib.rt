//! The terms of the stress of a station and how they combine (ASME B31.3-2016, 319.4.4), enclosed.
#![tactic(auto)]

mod combination;
mod judgement;
mod laws;
mod sizes;
mod terms;

pub use combination::combined;
pub use judgement::{Verdict, verdict_on};
pub use laws::{verdicts_hold, wider_stresses_hold};
pub use sizes::{size, squared, sum};
pub use terms::{axial, bending, intensified};
