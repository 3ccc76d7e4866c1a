//! What an analysis answers for a model: bounds, causes and the answers of cases and checks.
use crate::ids::{CaseId, ElementId, NodeId, RestraintId};
use lists::Sequence;

/// A number lies between `lo` and `hi`, in the scale of its kind.
#[derive(Clone, Copy)]
pub struct Bounds {
    pub lo: i128,
    pub hi: i128,
}

/// Why a case is not certified. Freedoms are `ux uy uz rx ry rz`, numbered 0 to 5.
#[derive(Clone, Copy)]
pub enum Cause {
    /// The members of the element leave their limits.
    WidthElement(ElementId),
    /// A row of the matrix leaves its limits.
    WidthMatrix { node: NodeId, freedom: u32 },
    /// The value that is left at the diagonal is under 1.
    Pivot { node: NodeId, freedom: u32 },
    /// The node's columns of the factor leave their limits.
    WidthFactor(NodeId),
    /// The row's definiteness inequality fails at the last shift; no earlier shift passed.
    Margin { node: NodeId, freedom: u32 },
    /// A load leaves its limits.
    WidthLoad { node: NodeId, freedom: u32 },
    /// A sum of the refinement leaves its limit in that turn of the search.
    WidthSolve { turn: u32 },
    /// The search for contact states has not ended after 200 turns.
    Turns,
    /// A number of the final residual or of the error bounds leaves its limit.
    WidthResidual,
    /// The reach of a gap or one-way support lies on neither side; `minus` names the side against its direction.
    State { restraint: RestraintId, minus: bool },
}

/// The answer of a load case.
#[derive(Drop)]
pub enum CaseAnswer {
    /// Every equilibrium lies within these bounds.
    Certified {
        /// Displacements and rotations in 2^-56 m and rad, one for each row: six for each node, in the model's order.
        u: Sequence<Bounds>,
        /// Loads in 2^-40 N and N m, one for each restraint member, in the model's order.
        loads: Sequence<Bounds>,
        /// Whether each one-way member is closed.
        states: Sequence<bool>,
    },
    /// There is no certificate.
    Uncertified {
        cause: Cause,
        /// The candidate, one number for each row, where the cause is `State`; empty otherwise.
        guess: Sequence<i128>,
    },
}

/// The answer of one station of a check. Stresses are in 2^-16 Pa.
#[derive(Clone, Copy)]
pub enum StationAnswer {
    Judged { stress: Bounds, allowable: Bounds },
    /// A number of the stress leaves its limits.
    Wide,
}

/// The answer of a code check.
#[derive(Drop)]
pub enum CheckAnswer {
    /// For each element in order the end `from`, then `to`.
    Stations(Sequence<StationAnswer>),
    /// This case of the check is not certified.
    Unchecked(CaseId),
}
