//! The model text: its reader, and its canonical form.
#![tactic(auto)]

mod fields;
mod reader;
mod records;
mod words;
mod writer;

pub use reader::{TextFault, grammar_is_told, lines_are_determined, node_line, read};
pub use writer::{canonical_reads_back, echo};
