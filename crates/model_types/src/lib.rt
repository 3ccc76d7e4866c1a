//! The records of a piping model, the rules that a model keeps, and the types of its answers.
//!
//! A [`Draft`] takes records in text order and refuses each that breaks a rule; [`Draft::finish`] makes the [`Model`], whose
//! lists keep the rules of `specs/Rules.antt`.
#![tactic(auto)]

pub mod answers;
pub mod drafts;
pub mod faults;
pub mod ids;
pub mod models;
pub mod ranges;
mod record_lists;
pub mod records;
mod spans;
mod tables;
mod tees;

pub use answers::{Bounds, CaseAnswer, Cause, CheckAnswer, StationAnswer};
pub use drafts::Draft;
pub use faults::{AddFault, WholeFault};
pub use ids::{CaseId, CheckId, ElementId, MaterialId, NodeId, RestraintId, SectionId, Space};
pub use lists::Sequence;
pub use models::{Model, records_follow, tees_are_judged};
pub use ranges::Range;
pub use records::{
    Case, Check, CheckKind, Element, Force, Material, Move, Node, Pressure, Record, Restraint,
    RestraintKind, Section, Shape, Tee, TeeKind, Temp,
};
use std::alloc::AllocError;
pub use text_words::Name;

/// Memory ran out.
pub type NoMemory = AllocError;
