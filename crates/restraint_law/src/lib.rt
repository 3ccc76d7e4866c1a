//! What the restraints of a node hold: their members, each a stiffness and a unit vector, and the law and the states of each.
#![tactic(auto)]

mod direction;
mod members;
mod states;

pub use direction::{Direction, unit_vector};
pub use members::restraint;
pub use states::{law, starts_closed, state_count, still_laws_are_of_their_kind};
