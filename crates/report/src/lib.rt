//! The report of an analysis, and the lines of the factors of bends and tees in a member table.
#![tactic(auto, using(std::proofs::Transfers::starts_with_of_append, std::proofs::Transfers::starts_with_trans))]

mod causes;
mod checks;
mod factors;
mod lines;
mod rounding;
mod rows;
mod stations;
mod words;

pub use factors::{push_factors, push_tee_factors};
pub use lines::bytes;
pub use rounding::{printed_pairs_hold, printed_stresses_hold};
