//! What acts in a case: the load of each row, and the law of each member with its initial deformation.
#![tactic(auto)]

mod adding;
mod changes;
mod deformations;
mod elements;
mod fault;
mod member_laws;
mod multiples;
mod rows;
mod weights;

pub use changes::section_pressure;
pub use deformations::deformation;
pub use elements::{deltas, end_load};
pub use fault::LoadFault;
pub use member_laws::{laws, laws_hold_numbers, laws_suit_models};
pub use rows::loads;
pub use weights::EndLoad;
