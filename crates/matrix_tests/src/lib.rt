//! Tests of matrices, their factors and certificates: values worked by hand or with fractions outside this program.
#![tactic(auto)]

#[cfg(test)]
mod assembled;
#[cfg(test)]
mod bounds;
#[cfg(test)]
mod definiteness;
#[cfg(test)]
mod factors;
#[cfg(test)]
mod makers;
#[cfg(test)]
mod orders;
#[cfg(test)]
mod refinement;
#[cfg(test)]
mod search;
#[cfg(test)]
mod states;
