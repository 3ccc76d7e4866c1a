//! The search for the states of one-way restraints: which of them are closed, and which open.
#![tactic(auto)]

mod fault;
mod flips;
mod laws;
mod trial;
mod turns;

pub use fault::SearchFault;
pub use laws::search_has_one_outcome;
pub use trial::{Trial, TrialFault};
pub use turns::search;
