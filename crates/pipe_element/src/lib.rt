//! The members of a straight pipe: eight rank-one stiffnesses that add up to a beam's.
#![tactic(auto)]

mod members;
mod shapes;
mod stiffness;

pub use members::straight;
