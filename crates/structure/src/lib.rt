//! The structure of a model: the members of its elements and restraints, and which of them touch each node.
#![tactic(auto)]

mod building;
mod elements;
mod fault;
mod laws;
mod restraints;
mod stations;
mod tees;
mod touching;
mod vectors;

pub use building::build;
pub use elements::{element_member_count, element_members};
pub use fault::BuildFault;
pub use laws::{
    lengths_exist, members_lead_within, models_have_their_members, states_of_restraints,
    structures_are_stiff, structures_have_states, structures_hold_numbers,
};
