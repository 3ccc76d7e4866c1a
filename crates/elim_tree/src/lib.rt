//! The assembly tree of an elimination order: a front for each node, with its later places, rows, parent and children.
#![tactic(auto)]

mod build;
mod fault;
mod fronts;
mod later;
mod laws;
mod parts;

pub use build::tree;
pub use fault::TreeFault;
pub use fronts::Tree;
pub use laws::{fill_lies_in_rows, trees_are_determined, trees_exist};
