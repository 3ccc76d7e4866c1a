//! The members of a circular bend: six stiffnesses of rank one, each with its shape vector, and the unit vectors along its ends and across its plane.
#![tactic(auto)]

mod arc;
mod between;
mod centre;
mod flexibility;
mod frame;
mod integrals;
mod laws;
mod members;
mod normal;
mod stiffness;
mod vectors;

pub use arc::Arc;
pub use between::{Curve, bend, curve_from};
pub use laws::{bend_spans_are_curves, members_are_arc, patterns_work_apart, ways_cross};
pub use members::bend_members;
pub use normal::{Normal, plane_normal, unit_normal};
pub use vectors::{BendVectors, bend_vectors};
