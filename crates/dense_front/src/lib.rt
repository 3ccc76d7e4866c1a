//! One front of a factorisation: its rows are assembled, its children's updates added, and its own columns eliminated.
#![tactic(auto)]

mod child;
mod columns;
mod dot;
mod eliminate;
mod front;
mod laws;
mod load;
mod nearest;
mod own;
mod room;
mod update;

pub use columns::{Columns, FrontUpdate};
pub use front::{FrontSpace, FrontValue, NoMemory};
pub use laws::tree_fronts_are_a_base;
