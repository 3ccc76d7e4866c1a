//! The fields of a text: lines, names and decimal numbers.
#![tactic(auto)]

mod fields;
mod names;
mod numbers;

pub use fields::{cut_line, push_line, split_once};
pub use names::Name;
pub use numbers::{NumberFault, number};
