//! The records of each kind, one list a kind, and the tests of one more record.
ghost use Rattle.std.specs.Prelude.{◌≡◌, ◌*◌, ◌≤◌, ◌^◌, pos, ◌*ℤ◌, int_le, length, [], ◌∷◌, false, ◌&&◌, map, position, is_some, nat_eq, ◌==◌, OnOk, OnErr, IfOk, All};
ghost use Rattle.std.specs.Cmp.Lexicographic.{pointwise};
ghost use Rattle.model_types.specs.Lists.{names_in, record_number, no_records, added};
ghost use Rattle.model_types.specs.Kinds.{kind_of, count, most, refs, check_refs, named_refs, named_check, has_stop, stop_count};
ghost use Rattle.model_types.specs.Ranges.{InForm, NodeInForm, SectionInForm, IsIn};
ghost use Rattle.model_types.specs.Rules.{IsModel};
ghost use Rattle.model_types.specs.Refusals as refused;
ghost use Rattle.model_types.specs.Tees.{broken_tee};

use crate::NoMemory;
use crate::answers::Bounds;
use crate::ids::{CheckId, Space};
use crate::models::Model;
use crate::ranges::{MOST_STOPS, WALL};
use crate::records::{
    Case, Check, CheckKind, Element, Force, Material, Move, Node, Pressure, Record, Restraint,
    Section, Tee, Temp,
};
use crate::spans::element_refusal;
use crate::tables::Table;
use crate::tees::first_broken;
use std::alloc::{AllocError, Global};
use text_words::Name;

/// The records of each kind, in the order in which they came.
#[derive(Drop)]
pub(crate) struct RecordLists {
    materials: Table<Material>,
    sections: Table<Section>,
    nodes: Table<Node>,
    elements: Table<Element>,
    tees: Vec<Tee>,
    restraints: Table<Restraint>,
    cases: Table<Case>,
    temps: Vec<Temp>,
    pressures: Vec<Pressure>,
    forces: Vec<Force>,
    moves: Vec<Move>,
    checks: Table<Check>,
}

impl std::marker::Model for RecordLists {
    ghost use Rattle.model_types.specs.Lists.{Lists};

    ghost Value = { Lists };

    ghost use Rattle.model_types.specs.Views.{record_lists};

    ghost view = { record_lists };
}

impl RecordLists {
    /// No record.
    pub(crate) fn new(alloc: Global) -> RecordLists
        ensures { result ≡ no_records }
    {
        RecordLists {
            materials: Table::new(alloc),
            sections: Table::new(alloc),
            nodes: Table::new(alloc),
            elements: Table::new(alloc),
            tees: Vec::new(alloc),
            restraints: Table::new(alloc),
            cases: Table::new(alloc),
            temps: Vec::new(alloc),
            pressures: Vec::new(alloc),
            forces: Vec::new(alloc),
            moves: Vec::new(alloc),
            checks: Table::new(alloc),
        }
    }

    /// The model of the records.
    pub(crate) fn into_model(self) -> Model
        requires { IsModel self }
        ensures { result ≡ self }
    {
        let RecordLists {
            materials,
            sections,
            nodes,
            elements,
            tees,
            restraints,
            cases,
            temps,
            pressures,
            forces,
            moves,
            checks,
        } = self;
        Model {
            materials: materials.into_vec(),
            sections: sections.into_vec(),
            nodes: nodes.into_vec(),
            elements: elements.into_vec(),
            tees,
            restraints: restraints.into_vec(),
            cases: cases.into_vec(),
            temps,
            pressures,
            forces,
            moves,
            checks: checks.into_vec(),
        }
    }

    /// How many names a space has.
    pub(crate) fn names(&self, space: Space) -> usize
        ensures { result ≡ length (names_in self.now space) }
    {
        match space {
            Space::Material => self.materials.len(),
            Space::Section => self.sections.len(),
            Space::Node => self.nodes.len(),
            Space::Element => self.elements.len(),
            Space::Restraint => self.restraints.len(),
            Space::Case => self.cases.len(),
            Space::Check => self.checks.len(),
        }
    }

    /// The number of the record of that name in that space.
    pub(crate) fn look_up(&self, space: Space, name: &Name) -> Option<u32>
        ensures { result ≡ record_number self.now space name.now }
    {
        match space {
            Space::Material => self.materials.find(name),
            Space::Section => self.sections.find(name),
            Space::Node => self.nodes.find(name),
            Space::Element => self.elements.find(name),
            Space::Restraint => self.restraints.find(name),
            Space::Case => self.cases.find(name),
            Space::Check => self.checks.find(name),
        }
    }

    /// Appends a record with a new key, where there is room for it. An error leaves the lists as they were.
    pub(crate) fn append(&mut self, candidate: Record) -> Result<(), AllocError>
        requires new { refused.is_doubled self.old candidate ≡ false }
        requires room { refused.is_too_many self.old candidate ≡ false }
        ensures ok { OnOk result (self.new ≡ added self.old candidate) }
        ensures unchanged { OnErr result (self.new ≡ self.old) }
    {
        match candidate {
            Record::Material(r) => self.materials.push(r),
            Record::Section(r) => self.sections.push(r),
            Record::Node(r) => self.nodes.push(r),
            Record::Element(r) => self.elements.push(r),
            Record::Tee(r) => Ok(self.tees.push(r)?),
            Record::Restraint(r) => self.restraints.push(r),
            Record::Case(r) => self.cases.push(r),
            Record::Temp(r) => Ok(self.temps.push(r)?),
            Record::Pressure(r) => Ok(self.pressures.push(r)?),
            Record::Force(r) => Ok(self.forces.push(r)?),
            Record::Move(r) => Ok(self.moves.push(r)?),
            Record::Check(r) => self.checks.push(r),
        }
    }

    /// The number that refuses the record: that of the first test that holds. For a bend `sine` encloses the sine of half its angle.
    pub(crate) fn refusal(&self, candidate: &Record, sine: Bounds) -> Option<u8>
        requires form { InForm candidate.now }
        requires sine { refused.IsSineFor candidate.now sine }
        requires nodes { All NodeInForm self.now.nodes }
        ensures { result ≡ refused.refusal self.now candidate.now }
    {
        if self.is_doubled(candidate) {
            return Some(8);
        }
        if self.lacks(candidate) {
            return Some(9);
        }
        if let Some(number) = self.own_refusal(candidate, sine) {
            return Some(number);
        }
        if self.is_too_many(candidate) {
            return Some(14);
        }
        None
    }

    /// The number of the first tee that the elements at its node don't make.
    pub(crate) fn broken_tee(&self) -> Option<u32>
        requires nodes { All NodeInForm self.now.nodes }
        requires few { length self.now.tees ≤ 500 }
        ensures { result ≡ broken_tee self.now }
    {
        first_broken(
            self.nodes.as_slice(),
            self.elements.as_slice(),
            self.tees.as_slice(),
        )
    }

    // Whether a record of its kind has its key.
    fn is_doubled(&self, candidate: &Record) -> bool
        ensures { result ≡ refused.is_doubled self.now candidate.now }
    {
        match candidate {
            Record::Material(r) => self.look_up(Space::Material, &r.name).is_some(),
            Record::Section(r) => self.look_up(Space::Section, &r.name).is_some(),
            Record::Node(r) => self.look_up(Space::Node, &r.name).is_some(),
            Record::Element(r) => self.look_up(Space::Element, &r.name).is_some(),
            Record::Tee(r) => has_tee(self.tees.as_slice(), r.node.0),
            Record::Restraint(r) => self.look_up(Space::Restraint, &r.name).is_some(),
            Record::Case(r) => self.look_up(Space::Case, &r.name).is_some(),
            Record::Temp(r) => has_temp(self.temps.as_slice(), r.case.0, r.section.0),
            Record::Pressure(r) => has_pressure(self.pressures.as_slice(), r.case.0, r.section.0),
            Record::Force(_) => false,
            Record::Move(r) => has_move(self.moves.as_slice(), r.case.0, r.anchor.0),
            Record::Check(r) => self.look_up(Space::Check, &r.name).is_some(),
        }
    }

    // Whether a record that it names isn't there.
    fn lacks(&self, candidate: &Record) -> bool
        ensures { result ≡ refused.lacks self.now (refs candidate.now) }
    {
        match candidate {
            Record::Material(_) | Record::Node(_) | Record::Case(_) => false,
            Record::Section(r) => self.materials.len() <= r.material.0 as usize,
            Record::Element(r) => {
                self.nodes.len() <= r.from.0 as usize
                    || self.nodes.len() <= r.to.0 as usize
                    || self.sections.len() <= r.section.0 as usize
            }
            Record::Tee(r) => {
                self.nodes.len() <= r.node.0 as usize
                    || self.elements.len() <= r.branch.0 as usize
                    || self.sections.len() <= r.header.0 as usize
            }
            Record::Restraint(r) => self.nodes.len() <= r.node.0 as usize,
            Record::Temp(r) => {
                self.cases.len() <= r.case.0 as usize || self.sections.len() <= r.section.0 as usize
            }
            Record::Pressure(r) => {
                self.cases.len() <= r.case.0 as usize || self.sections.len() <= r.section.0 as usize
            }
            Record::Force(r) => {
                self.cases.len() <= r.case.0 as usize || self.nodes.len() <= r.node.0 as usize
            }
            Record::Move(r) => {
                self.cases.len() <= r.case.0 as usize
                    || self.restraints.len() <= r.anchor.0 as usize
            }
            Record::Check(r) => self.lacks_compared(&r.kind),
        }
    }

    // Whether a case or a check that a check names isn't there.
    fn lacks_compared(&self, kind: &CheckKind) -> bool
        ensures { result ≡ refused.lacks self.now (check_refs kind.now) }
    {
        match kind {
            CheckKind::Sustained { case, .. } | CheckKind::Occasional { case, .. } => {
                self.cases.len() <= case.0 as usize
            }
            CheckKind::Expansion {
                case1,
                case2,
                sus,
                ..
            } => {
                self.cases.len() <= case1.0 as usize
                    || self.cases.len() <= case2.0 as usize
                    || self.lacks_check(*sus)
            }
        }
    }

    // Whether a check that is named isn't there.
    fn lacks_check(&self, named: Option<CheckId>) -> bool
        ensures { result ≡ refused.lacks self.now (named_refs named) }
    {
        match named {
            Some(id) => self.checks.len() <= id.0 as usize,
            None => false,
        }
    }

    // The first test of its own kind that refuses the record.
    fn own_refusal(&self, candidate: &Record, sine: Bounds) -> Option<u8>
        requires form { InForm candidate.now }
        requires sine { refused.IsSineFor candidate.now sine }
        requires nodes { All NodeInForm self.now.nodes }
        ensures { result ≡ refused.first_refusal (refused.own_tests self.now candidate.now) }
    {
        match candidate {
            Record::Material(_) | Record::Node(_) | Record::Restraint(_) => None,
            Record::Tee(_) | Record::Case(_) | Record::Temp(_) => None,
            Record::Pressure(_) | Record::Force(_) => None,
            Record::Section(r) => section_refusal(r),
            Record::Element(r) => {
                element_refusal(self.nodes.as_slice(), self.sections.as_slice(), r, sine)
            }
            Record::Move(r) => move_refusal(self.restraints.as_slice(), r.anchor.0),
            Record::Check(r) => check_refusal(self.checks.as_slice(), &r.kind),
        }
    }

    // Whether there are as many records of its kind as there may be, or as many stops where it is one.
    fn is_too_many(&self, candidate: &Record) -> bool
        ensures { result ≡ refused.is_too_many self.now candidate.now }
    {
        self.count(candidate) >= most(candidate)
            || (is_stop(candidate) && stop_count(self.restraints.as_slice()) >= MOST_STOPS)
    }

    // How many records there are of its kind.
    fn count(&self, candidate: &Record) -> usize
        ensures { result ≡ count self.now (kind_of candidate.now) }
    {
        match candidate {
            Record::Material(_) => self.materials.len(),
            Record::Section(_) => self.sections.len(),
            Record::Node(_) => self.nodes.len(),
            Record::Element(_) => self.elements.len(),
            Record::Tee(_) => self.tees.len(),
            Record::Restraint(_) => self.restraints.len(),
            Record::Case(_) => self.cases.len(),
            Record::Temp(_) => self.temps.len(),
            Record::Pressure(_) => self.pressures.len(),
            Record::Force(_) => self.forces.len(),
            Record::Move(_) => self.moves.len(),
            Record::Check(_) => self.checks.len(),
        }
    }
}

// How many records there may be of its kind.
fn most(candidate: &Record) -> usize
    ensures { result ≡ most (kind_of candidate.now) }
{
    match candidate {
        Record::Material(_) => 64,
        Record::Section(_) => 64,
        Record::Node(_) => 2000,
        Record::Element(_) => 4000,
        Record::Tee(_) => 500,
        Record::Restraint(_) => 2000,
        Record::Case(_) => 32,
        Record::Temp(_) => 2048,
        Record::Pressure(_) => 2048,
        Record::Force(_) => 4000,
        Record::Move(_) => 1000,
        Record::Check(_) => 32,
    }
}

// Whether a record is a one-way support or a gap.
fn is_stop(candidate: &Record) -> bool
    ensures { result ≡ has_stop candidate.now }
{
    match candidate {
        Record::Restraint(r) => r.kind.is_stop(),
        Record::Material(_) | Record::Section(_) | Record::Node(_) => false,
        Record::Element(_) | Record::Tee(_) => false,
        Record::Case(_) | Record::Temp(_) | Record::Pressure(_) => false,
        Record::Force(_) | Record::Move(_) | Record::Check(_) => false,
    }
}

// Whether a node has a tee.
fn has_tee(tees: &[Tee], node: u32) -> bool
    ensures { result ≡ is_some (position (pointwise nat_eq (node ∷ [])) (map (λ t. t.node.0 ∷ []) tees.now)) }
{
    tee_at(tees, node).is_some()
}

// The first tee at a node.
fn tee_at(tees: &[Tee], node: u32) -> Option<usize>
    ensures { result ≡ position (λ t. t.node.0 == node) tees.now }
{
    tees.iter().position(|tee| tee.node.0 == node)
}

// Whether a case has a change of temperature for a section.
fn has_temp(temps: &[Temp], case: u32, section: u32) -> bool
    ensures { result ≡ is_some (position (pointwise nat_eq (case ∷ section ∷ [])) (map (λ t. t.case.0 ∷ t.section.0 ∷ []) temps.now)) }
{
    temp_at(temps, case, section).is_some()
}

fn temp_at(temps: &[Temp], case: u32, section: u32) -> Option<usize>
    ensures { result ≡ position (λ t. t.case.0 == case && t.section.0 == section) temps.now }
{
    temps
        .iter()
        .position(|t| t.case.0 == case && t.section.0 == section)
}

// Whether a case has a pressure for a section.
fn has_pressure(pressures: &[Pressure], case: u32, section: u32) -> bool
    ensures { result ≡ is_some (position (pointwise nat_eq (case ∷ section ∷ [])) (map (λ p. p.case.0 ∷ p.section.0 ∷ []) pressures.now)) }
{
    pressure_at(pressures, case, section).is_some()
}

fn pressure_at(pressures: &[Pressure], case: u32, section: u32) -> Option<usize>
    ensures { result ≡ position (λ p. p.case.0 == case && p.section.0 == section) pressures.now }
{
    pressures
        .iter()
        .position(|p| p.case.0 == case && p.section.0 == section)
}

// Whether a case has a movement of an anchor.
fn has_move(moves: &[Move], case: u32, anchor: u32) -> bool
    ensures { result ≡ is_some (position (pointwise nat_eq (case ∷ anchor ∷ [])) (map (λ v. v.case.0 ∷ v.anchor.0 ∷ []) moves.now)) }
{
    move_at(moves, case, anchor).is_some()
}

fn move_at(moves: &[Move], case: u32, anchor: u32) -> Option<usize>
    ensures { result ≡ position (λ v. v.case.0 == case && v.anchor.0 == anchor) moves.now }
{
    moves
        .iter()
        .position(|v| v.case.0 == case && v.anchor.0 == anchor)
}

// The test of a movement: the restraint that it names is no anchor.
fn move_refusal(restraints: &[Restraint], anchor: u32) -> Option<u8>
    ensures { result ≡ refused.first_refusal (refused.test 9 (refused.is_other_restraint restraints.now anchor) ∷ []) }
{
    if is_other_restraint(restraints, anchor) {
        return Some(9);
    }
    None
}

// Whether the restraint of that number is there and is no anchor.
fn is_other_restraint(restraints: &[Restraint], number: u32) -> bool
    ensures { result ≡ refused.is_other_restraint restraints.now number }
{
    match restraints.get(number as usize) {
        Some(restraint) => !restraint.kind.is_anchor(),
        None => false,
    }
}

// The test of a check: the check that it names is no sustained one.
fn check_refusal(checks: &[Check], kind: &CheckKind) -> Option<u8>
    ensures { result ≡ refused.first_refusal (refused.test 9 (refused.names_other checks.now (named_check kind.now)) ∷ []) }
{
    if names_other(checks, kind) {
        return Some(9);
    }
    None
}

// Whether a check names another than a sustained one.
fn names_other(checks: &[Check], kind: &CheckKind) -> bool
    ensures { result ≡ refused.names_other checks.now (named_check kind.now) }
{
    match kind {
        CheckKind::Expansion { sus: Some(id), .. } => is_other_check(checks, id.0),
        CheckKind::Expansion { sus: None, .. } => false,
        CheckKind::Sustained { .. } | CheckKind::Occasional { .. } => false,
    }
}

// Whether the check of that number is there and is no sustained one.
fn is_other_check(checks: &[Check], number: u32) -> bool
    ensures { result ≡ refused.is_other_check checks.now number }
{
    match checks.get(number as usize) {
        Some(check) => !check.kind.is_sustained(),
        None => false,
    }
}

// How many restraints are one-way supports or gaps.
fn stop_count(restraints: &[Restraint]) -> usize
    ensures { result ≡ stop_count restraints.now }
{
    restraints.iter().filter(|r| r.kind.is_stop()).count()
}

// The test of a section: its wall fills its bore, or its allowance the wall.
fn section_refusal(section: &Section) -> Option<u8>
    requires { SectionInForm section.now }
    ensures { result ≡ refused.first_refusal (refused.test 13 (refused.has_thick_wall section.now) ∷ []) }
{
    if fills_bore(section.d, section.t) || section.t <= section.allowance {
        return Some(13);
    }
    None
}

// Whether a wall fills the bore of a pipe.
fn fills_bore(d: i64, t: i64) -> bool
    requires { IsIn WALL t }
    ensures { result ≡ int_le d (pos 2 *ℤ t) }
{
    d <= 2 * t
}
