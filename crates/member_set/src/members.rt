use flex_interval::Iv;
use lists::Sequence;

/// A member of a structure: an axial, bending or torsional mode of an element, or a restraint. Its force acts along its
/// shape vector, and stretches by the shape vector times the displacements.
#[derive(Clone, Copy)]
pub struct Member {
    /// The first node, to whose freedoms `ux uy uz rx ry rz` the first six shape numbers belong.
    pub n1: u32,
    /// The second node, with the other six. A restraint has its node twice, and its first six alone count.
    pub n2: u32,
    /// The stiffness, in units of 2^-20 N/m.
    pub kappa: Iv,
    /// The shape numbers, in units of 2^-56.
    pub w: [Iv; 12],
}

/// How a member's force follows from its reach.
#[derive(Clone, Copy)]
pub enum Law {
    /// In proportion to what is past the initial deformation, in units of 2^-56 m or rad.
    Linear { offset: Iv },
    /// In proportion to what is past the gap, in units of 2^-56 m or rad; none before.
    Oneway { gap: Iv },
}

/// An end of an element, where its stress is judged.
#[derive(Clone, Copy)]
pub struct Station {
    /// The element's number.
    pub element: u32,
    /// The end: `true` for `to`.
    pub end: bool,
    /// The unit vector along the element, in units of 2^-56.
    pub tangent: [Iv; 3],
    /// The unit vector normal to the plane of a bend, or to that of a tee.
    pub normal: Option<[Iv; 3]>,
    /// The element's first member.
    pub first: u32,
    /// How many members the element has.
    pub count: u32,
}

/// A structure: its members, in the order of the elements and then of the restraints.
#[derive(Drop)]
pub struct Built {
    pub members: Sequence<Member>,
    /// The numbers of the members with a one-way law, rising.
    pub unilateral: Sequence<u32>,
    /// The two ends of each element.
    pub stations: Sequence<Station>,
    /// For each node the numbers of the members that touch it, rising.
    pub at: Sequence<Sequence<u32>>,
}
