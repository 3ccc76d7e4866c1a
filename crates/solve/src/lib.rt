//! Displacements of a structure by iterative refinement over the factor of its middle stiffness matrix.
#![tactic(auto)]

mod fault;
mod numerators;
mod refinement;
mod substitution;

pub use fault::{NoMemory, SolveFault};
pub use refinement::candidate;
