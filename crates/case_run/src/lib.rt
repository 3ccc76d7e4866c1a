//! The load cases of a model.
#![tactic(auto)]

mod cases;
mod contacts;
mod fault;
mod laws;
mod maker;
mod margin;
mod settle;
mod shared;
mod steps;
mod trial;

pub use cases::{CaseRuns, runs};
pub use laws::{answers_hold, forces_hold, realisations_exist};
