//! What is certified: whether every stiffness matrix within its radii is positive definite, and bounds of every equilibrium
//! around given displacements.
#![tactic(auto)]

mod blocks;
mod bounds;
mod check;
mod fault;
mod laws;
mod margin;
mod radii;
mod row_lists;
mod row_sums;
mod space;
mod states;

pub use bounds::{Enclosure, enclose};
pub use check::{Verdict, check_definite};
pub use fault::EncloseFault;
pub use laws::{bounds_are_limited, bounds_hold, states_are_limited, states_hold};
pub use space::CheckSpace;
