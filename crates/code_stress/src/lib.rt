//! The stress of a station by the code (ASME B31.3-2016, 319.4.4 and 320), enclosed.
#![tactic(auto)]

mod action;
mod actions;
mod allowable;
mod allowances;
mod answers;
mod bend;
mod data;
mod direct;
mod station;
mod straight;

pub use allowable::{expansion_allowable, occasional_allowable, sustained_allowable};
pub use answers::{checks, no_checks};
pub use station::{StationData, station_stress};
