//! Which texts are accepted: those of the model grammar whose model has an elimination order of narrow fronts and an assembly
//! tree that isn't too large.
#![tactic(auto)]

mod fault;
mod graph;
mod laws;
mod reader;

pub use fault::AcceptFault;
pub use laws::{acceptance_exists, acceptance_is_determined};
pub use reader::{Accepted, accept};
