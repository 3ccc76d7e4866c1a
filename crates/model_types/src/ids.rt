//! Numbers of records: each kind is numbered from 0 in text order. 4294967295 is no record's number.

/// The number of a material.
#[derive(Clone, Copy)]
pub struct MaterialId(pub u32);

/// The number of a section.
#[derive(Clone, Copy)]
pub struct SectionId(pub u32);

/// The number of a node.
#[derive(Clone, Copy)]
pub struct NodeId(pub u32);

/// The number of an element, straights and bends counted together.
#[derive(Clone, Copy, Debug)]
pub struct ElementId(pub u32);

/// The number of a restraint, all kinds counted together.
#[derive(Clone, Copy)]
pub struct RestraintId(pub u32);

/// The number of a load case.
#[derive(Clone, Copy)]
pub struct CaseId(pub u32);

/// The number of a code check.
#[derive(Clone, Copy)]
pub struct CheckId(pub u32);

/// A space of names. A name stands for one record in its space; straights and bends share a space, and so do all restraints.
#[derive(Clone, Copy)]
pub enum Space {
    Material,
    Section,
    Node,
    Element,
    Restraint,
    Case,
    Check,
}
