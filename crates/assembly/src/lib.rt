//! The stiffness matrix of a structure, as middles and radii of the enclosures of its entries.
#![tactic(auto)]

mod entries;
mod fault;
mod filling;
mod laws;
mod matrices;
mod scaling;

pub use fault::AssembleFault;
pub use laws::matrices_hold;
pub use matrices::assemble;
