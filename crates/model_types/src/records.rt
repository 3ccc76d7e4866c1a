//! The records of a model. Lengths are in micrometres, and `None` is a default that the text leaves as `-`.
ghost use Rattle.std.specs.Prelude.{◌≡◌, ◌≤◌};
ghost use Rattle.model_types.specs.Kinds.{is_anchor, is_stop, is_sustained};
ghost use Rattle.model_types.specs.MemberCounts.{restraint_member_count, restraint_state_count, shape_member_count};

use crate::ids::{CaseId, CheckId, ElementId, MaterialId, NodeId, RestraintId, SectionId};
use text_words::Name;

/// A pipe material.
#[derive(Clone, Copy)]
pub struct Material {
    /// Its name among the materials.
    pub name: Name,
    /// Young's modulus in MPa, 1 to 1,000,000.
    pub e: i64,
    /// Poisson's ratio in thousandths, 0 to 499.
    pub nu: i64,
    /// Thermal expansion in 10^-9 per kelvin, 0 to 100,000.
    pub alpha: i64,
    /// Density in kg/m^3, 0 to 30,000.
    pub rho: i64,
}

/// A pipe section.
#[derive(Clone, Copy)]
pub struct Section {
    /// Its name among the sections.
    pub name: Name,
    /// The material of the pipe.
    pub material: MaterialId,
    /// Outside diameter, 1,000 to 2,000,000 micrometres.
    pub d: i64,
    /// Wall thickness, 100 to 200,000 micrometres.
    pub t: i64,
    /// Corrosion and mill allowance, 0 to 200,000 micrometres.
    pub allowance: i64,
    /// Weight of contents and insulation, 0 to 100,000,000 mN/m.
    pub extra: i64,
}

/// A node, with its place in micrometres; z points up. Each coordinate is within 10,000,000,000 of 0.
#[derive(Clone, Copy)]
pub struct Node {
    /// Its name among the nodes.
    pub name: Name,
    pub x: i64,
    pub y: i64,
    pub z: i64,
}

/// A pipe element between two nodes.
#[derive(Clone, Copy)]
pub struct Element {
    /// Its name among the elements.
    pub name: Name,
    pub from: NodeId,
    pub to: NodeId,
    pub section: SectionId,
    pub shape: Shape,
}

/// The shape of an element.
#[derive(Clone, Copy)]
pub enum Shape {
    /// A straight pipe.
    Straight,
    /// A circular bend.
    Bend {
        /// Radius of its middle line, 1,000 to 15,000,000 micrometres.
        r: i64,
        /// Its angle in thousandths of a degree: 22,500, 30,000, 45,000, 60,000, 90,000 or 180,000.
        angle: u32,
        /// A point on the outer side of its chord, in micrometres: usually the corner where the tangents at its ends meet. It has at
        /// most 18 digits in each coordinate.
        px: i64,
        py: i64,
        pz: i64,
    },
}

impl Shape {
    /// How many members an element of this shape has.
    pub fn member_count(&self) -> usize
        ensures value { result ≡ shape_member_count self.now }
        ensures few { result ≤ 8 }
    {
        match self {
            Shape::Straight => 8,
            Shape::Bend { .. } => 6,
        }
    }
}

/// A branch connection: the stress intensification of the elements that end at a node.
#[derive(Clone, Copy)]
pub struct Tee {
    pub node: NodeId,
    pub branch: ElementId,
    pub header: SectionId,
    pub kind: TeeKind,
}

/// How a branch connection is made.
#[derive(Clone, Copy)]
pub enum TeeKind {
    /// An unreinforced fabricated tee.
    Unreinforced,
    /// A pad of this thickness, 1 to 200,000 micrometres.
    Pad(i64),
    /// A coefficient of h, 100 to 100,000 thousandths.
    Coefficient(i64),
}

/// A restraint of a node.
#[derive(Clone, Copy)]
pub struct Restraint {
    /// Its name among the restraints.
    pub name: Name,
    pub node: NodeId,
    pub kind: RestraintKind,
}

/// What a restraint holds. Directions have parts within 1,000,000 of 0, not all 0; only their ratio counts.
#[derive(Clone, Copy)]
pub enum RestraintKind {
    /// All six freedoms: KT in N/m and KR in N m/rad, each 1 to 2,000,000,000,000, by default 10,000,000,000.
    Anchor {
        kt: Option<i64>,
        kr: Option<i64>,
    },
    /// The translation along a direction: K in N/m, 1 to 2,000,000,000,000, by default 1,000,000,000.
    Linear {
        dx: i64,
        dy: i64,
        dz: i64,
        k: Option<i64>,
    },
    /// The rotation about a direction: K in N m/rad, as for `Linear`.
    Twist {
        dx: i64,
        dy: i64,
        dz: i64,
        k: Option<i64>,
    },
    /// The translation along a direction, one way: motion is stopped where it has come GAP that way, 0 to 1,000,000 micrometres; K as
    /// for `Linear`.
    Oneway {
        dx: i64,
        dy: i64,
        dz: i64,
        gap: i64,
        k: Option<i64>,
    },
    /// The translation along a direction, both ways: as `Oneway` on either side. With a gap of 0 it is the same as `Linear`.
    Gap {
        dx: i64,
        dy: i64,
        dz: i64,
        gap: i64,
        k: Option<i64>,
    },
    /// A spring along z: RATE in N/m, 1 to 2,000,000,000,000, and LOAD in mN upwards, 0 to 1,000,000,000, which acts in the cases
    /// that say so.
    Hanger {
        rate: i64,
        load: i64,
    },
}

impl RestraintKind {
    /// How many members a restraint of this kind has, and so how many loads.
    pub fn member_count(&self) -> usize
        ensures { result ≡ restraint_member_count self.now }
    {
        match self {
            RestraintKind::Anchor { .. } => 6,
            RestraintKind::Linear { .. } | RestraintKind::Twist { .. } => 1,
            RestraintKind::Oneway { .. } | RestraintKind::Hanger { .. } => 1,
            RestraintKind::Gap { gap, .. } => if *gap == 0 { 1 } else { 2 },
        }
    }

    /// How many of them are open or closed: that of a one-way support, and those of a gap that isn't 0.
    pub fn state_count(&self) -> usize
        ensures { result ≡ restraint_state_count self.now }
    {
        match self {
            RestraintKind::Oneway { .. } => 1,
            RestraintKind::Gap { gap, .. } => if *gap == 0 { 0 } else { 2 },
            RestraintKind::Anchor { .. } | RestraintKind::Hanger { .. } => 0,
            RestraintKind::Linear { .. } | RestraintKind::Twist { .. } => 0,
        }
    }

    /// Whether a restraint of this kind is a stop: a one-way support or a gap, also a gap of 0.
    pub fn is_stop(&self) -> bool
        ensures { result ≡ is_stop self.now }
    {
        match self {
            RestraintKind::Oneway { .. } | RestraintKind::Gap { .. } => true,
            RestraintKind::Anchor { .. } | RestraintKind::Hanger { .. } => false,
            RestraintKind::Linear { .. } | RestraintKind::Twist { .. } => false,
        }
    }

    /// Whether a restraint of this kind is an anchor.
    pub fn is_anchor(&self) -> bool
        ensures { result ≡ is_anchor self.now }
    {
        match self {
            RestraintKind::Anchor { .. } => true,
            RestraintKind::Linear { .. } | RestraintKind::Twist { .. } => false,
            RestraintKind::Oneway { .. } | RestraintKind::Gap { .. } => false,
            RestraintKind::Hanger { .. } => false,
        }
    }
}

/// A load case.
#[derive(Clone, Copy)]
pub struct Case {
    /// Its name among the cases.
    pub name: Name,
    /// Acceleration in thousandths of standard gravity, each part within 10,000 of 0.
    pub gx: i64,
    pub gy: i64,
    pub gz: i64,
    /// Whether hanger loads act.
    pub hangers: bool,
    /// Change of temperature in millikelvin, within 1,000,000 of 0.
    pub dt: i64,
    /// Pressure in Pa, 0 to 100,000,000.
    pub p: i64,
}

/// A case's change of temperature for one section, in millikelvin, within 1,000,000 of 0.
#[derive(Clone, Copy)]
pub struct Temp {
    pub case: CaseId,
    pub section: SectionId,
    pub dt: i64,
}

/// A case's pressure for one section, in Pa, 0 to 100,000,000.
#[derive(Clone, Copy)]
pub struct Pressure {
    pub case: CaseId,
    pub section: SectionId,
    pub p: i64,
}

/// A load on a node in a case: forces in mN and moments in mN m, each within 1,000,000,000,000 of 0. Several at one node add.
#[derive(Clone, Copy)]
pub struct Force {
    pub case: CaseId,
    pub node: NodeId,
    pub fx: i64,
    pub fy: i64,
    pub fz: i64,
    pub mx: i64,
    pub my: i64,
    pub mz: i64,
}

/// The movement of an anchor in a case, in micrometres, each part within 1,000,000 of 0.
#[derive(Clone, Copy)]
pub struct Move {
    pub case: CaseId,
    pub anchor: RestraintId,
    pub x: i64,
    pub y: i64,
    pub z: i64,
}

/// A code check.
#[derive(Clone, Copy)]
pub struct Check {
    /// Its name among the checks.
    pub name: Name,
    pub kind: CheckKind,
}

/// What a check compares. Allowable stresses are in kPa, 1 to 2,000,000.
#[derive(Clone, Copy)]
pub enum CheckKind {
    /// ASME B31.3-2016, 302.3.5(c).
    Sustained {
        case: CaseId,
        sh: i64,
    },
    /// A sustained check with SH times `percent`, 100 to 200, by default 133.
    Occasional {
        case: CaseId,
        sh: i64,
        percent: Option<i64>,
    },
    /// ASME B31.3-2016, 302.3.5(d): the range between two cases, over 1 to 1,000,000,000 cycles, with f at most `fm`, 100 to
    /// 1,200 thousandths, and with the stresses of an earlier sustained check, if one is named.
    Expansion {
        case1: CaseId,
        case2: CaseId,
        sc: i64,
        sh: i64,
        cycles: i64,
        fm: i64,
        sus: Option<CheckId>,
    },
}

impl CheckKind {
    /// Whether a check of this kind is a sustained one.
    pub fn is_sustained(&self) -> bool
        ensures { result ≡ is_sustained self.now }
    {
        match self {
            CheckKind::Sustained { .. } => true,
            CheckKind::Occasional { .. } | CheckKind::Expansion { .. } => false,
        }
    }
}

/// A record of the model text.
#[derive(Clone, Copy)]
pub enum Record {
    Material(Material),
    Section(Section),
    Node(Node),
    Element(Element),
    Tee(Tee),
    Restraint(Restraint),
    Case(Case),
    Temp(Temp),
    Pressure(Pressure),
    Force(Force),
    Move(Move),
    Check(Check),
}
