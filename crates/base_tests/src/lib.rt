//! Tests of the lowest crates: tables of what no clause says, with values from outside.
#![tactic(auto)]

#[cfg(test)]
mod fields;
#[cfg(test)]
mod intervals;
#[cfg(test)]
mod numbers;
#[cfg(test)]
mod rising;
#[cfg(test)]
mod streams;
