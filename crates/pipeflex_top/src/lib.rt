//! From the text of a piping model to what the program writes.
#![tactic(auto)]

mod analysis;
mod answers;
mod commands;
mod judge;
mod laws;
mod member_table;
mod process;
mod program;
mod refusal;
mod reply;
mod requests;
mod summary;
mod tally;
mod texts;
mod written;

pub use answers::Answer;
pub use judge::answer;
pub use laws::{report_exists, report_is_determined};
pub use process::run_process;
pub use program::run;
