//! Tests of the program's top call, from words and text to bytes and status.
#![tactic(auto)]

#[cfg(test)]
mod checks;
#[cfg(test)]
mod runs;
