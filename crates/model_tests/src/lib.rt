//! Tests of models, from their records to the answers of their cases. A model is written as an analyst writes it.
#![tactic(auto)]

#[cfg(test)]
mod actions;
#[cfg(test)]
mod bend_loads;
#[cfg(test)]
mod bends;
#[cfg(test)]
mod cases;
#[cfg(test)]
mod factors;
#[cfg(test)]
mod frames;
#[cfg(test)]
mod generated;
#[cfg(test)]
mod loads;
#[cfg(test)]
mod makers;
#[cfg(test)]
mod polygon;
#[cfg(test)]
mod records;
#[cfg(test)]
mod reports;
#[cfg(test)]
mod restraints;
#[cfg(test)]
mod stresses;
#[cfg(test)]
mod structures;
#[cfg(test)]
mod texts;
