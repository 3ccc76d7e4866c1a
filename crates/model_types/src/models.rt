//! The model of a piping system.
ghost use Rattle.std.specs.Prelude.{◌≡◌, ◌<◌, length, slice_get, Some};
ghost use Rattle.model_types.specs.Rules.{IsModel, Keeps, NamesEarlier};
ghost use Rattle.model_types.specs.declared.records.Record.TheVariants as record_of;
ghost use Rattle.model_types.specs.Refusals.{RecordsFollow};
ghost use Rattle.model_types.specs.Tees.{TeesAreJudged};

use crate::ids::{CaseId, CheckId, ElementId, MaterialId, NodeId, RestraintId, SectionId};
use crate::records::{
    Case, Check, Element, Force, Material, Move, Node, Pressure, Restraint, Section, Tee, Temp,
};

/// The records of a piping system, which keep all rules of the model text. [`Draft::finish`](crate::Draft::finish) makes it.
#[derive(Drop)]
pub struct Model {
    pub(crate) materials: Vec<Material>,
    pub(crate) sections: Vec<Section>,
    pub(crate) nodes: Vec<Node>,
    pub(crate) elements: Vec<Element>,
    pub(crate) tees: Vec<Tee>,
    pub(crate) restraints: Vec<Restraint>,
    pub(crate) cases: Vec<Case>,
    pub(crate) temps: Vec<Temp>,
    pub(crate) pressures: Vec<Pressure>,
    pub(crate) forces: Vec<Force>,
    pub(crate) moves: Vec<Move>,
    pub(crate) checks: Vec<Check>,
}

impl std::marker::Model for Model {
    ghost use Rattle.model_types.specs.Lists.{Lists};

    ghost Value = { Lists };

    ghost use Rattle.model_types.specs.Rules.{IsModel};
    ghost use Rattle.model_types.specs.Views.{model_lists};

    ghost view = { model_lists };

    ghost invariant = { λ m. IsModel (model_lists m) };
}

impl Model {
    /// The materials, in text order.
    pub fn materials(&self) -> &[Material]
        ensures records { result.now ≡ self.now.materials }
        ensures model { IsModel self.now }
    {
        self.materials.as_slice()
    }

    /// The sections, in text order.
    pub fn sections(&self) -> &[Section]
        ensures records { result.now ≡ self.now.sections }
        ensures model { IsModel self.now }
    {
        self.sections.as_slice()
    }

    /// The nodes, in text order.
    pub fn nodes(&self) -> &[Node]
        ensures records { result.now ≡ self.now.nodes }
        ensures model { IsModel self.now }
    {
        self.nodes.as_slice()
    }

    /// The elements, in text order.
    pub fn elements(&self) -> &[Element]
        ensures records { result.now ≡ self.now.elements }
        ensures model { IsModel self.now }
    {
        self.elements.as_slice()
    }

    /// The tees, in text order.
    pub fn tees(&self) -> &[Tee]
        ensures records { result.now ≡ self.now.tees }
        ensures model { IsModel self.now }
    {
        self.tees.as_slice()
    }

    /// The restraints, in text order.
    pub fn restraints(&self) -> &[Restraint]
        ensures records { result.now ≡ self.now.restraints }
        ensures model { IsModel self.now }
    {
        self.restraints.as_slice()
    }

    /// The load cases, in text order.
    pub fn cases(&self) -> &[Case]
        ensures records { result.now ≡ self.now.cases }
        ensures model { IsModel self.now }
    {
        self.cases.as_slice()
    }

    /// The changes of temperature of single sections, in text order.
    pub fn temps(&self) -> &[Temp]
        ensures records { result.now ≡ self.now.temps }
        ensures model { IsModel self.now }
    {
        self.temps.as_slice()
    }

    /// The pressures of single sections, in text order.
    pub fn pressures(&self) -> &[Pressure]
        ensures records { result.now ≡ self.now.pressures }
        ensures model { IsModel self.now }
    {
        self.pressures.as_slice()
    }

    /// The forces, in text order.
    pub fn forces(&self) -> &[Force]
        ensures records { result.now ≡ self.now.forces }
        ensures model { IsModel self.now }
    {
        self.forces.as_slice()
    }

    /// The movements of anchors, in text order.
    pub fn moves(&self) -> &[Move]
        ensures records { result.now ≡ self.now.moves }
        ensures model { IsModel self.now }
    {
        self.moves.as_slice()
    }

    /// The code checks, in text order.
    pub fn checks(&self) -> &[Check]
        ensures records { result.now ≡ self.now.checks }
        ensures model { IsModel self.now }
    {
        self.checks.as_slice()
    }

    /// The material of that number.
    pub fn material(&self, id: MaterialId) -> &Material
        requires { id.0 < length self.now.materials }
        ensures found { slice_get self.now.materials id.0 ≡ Some result.now }
        ensures kept { Keeps self.now (record_of.Material result.now) }
        ensures model { IsModel self.now }
    {
        &self.materials[id.0 as usize]
    }

    /// The section of that number.
    pub fn section(&self, id: SectionId) -> &Section
        requires { id.0 < length self.now.sections }
        ensures found { slice_get self.now.sections id.0 ≡ Some result.now }
        ensures kept { Keeps self.now (record_of.Section result.now) }
        ensures model { IsModel self.now }
    {
        &self.sections[id.0 as usize]
    }

    /// The node of that number.
    pub fn node(&self, id: NodeId) -> &Node
        requires { id.0 < length self.now.nodes }
        ensures found { slice_get self.now.nodes id.0 ≡ Some result.now }
        ensures kept { Keeps self.now (record_of.Node result.now) }
        ensures model { IsModel self.now }
    {
        &self.nodes[id.0 as usize]
    }

    /// The element of that number.
    pub fn element(&self, id: ElementId) -> &Element
        requires { id.0 < length self.now.elements }
        ensures found { slice_get self.now.elements id.0 ≡ Some result.now }
        ensures kept { Keeps self.now (record_of.Element result.now) }
        ensures model { IsModel self.now }
    {
        &self.elements[id.0 as usize]
    }

    /// The restraint of that number.
    pub fn restraint(&self, id: RestraintId) -> &Restraint
        requires { id.0 < length self.now.restraints }
        ensures found { slice_get self.now.restraints id.0 ≡ Some result.now }
        ensures kept { Keeps self.now (record_of.Restraint result.now) }
        ensures model { IsModel self.now }
    {
        &self.restraints[id.0 as usize]
    }

    /// The load case of that number.
    pub fn case(&self, id: CaseId) -> &Case
        requires { id.0 < length self.now.cases }
        ensures found { slice_get self.now.cases id.0 ≡ Some result.now }
        ensures kept { Keeps self.now (record_of.Case result.now) }
        ensures model { IsModel self.now }
    {
        &self.cases[id.0 as usize]
    }

    /// The code check of that number.
    pub fn check(&self, id: CheckId) -> &Check
        requires { id.0 < length self.now.checks }
        ensures found { slice_get self.now.checks id.0 ≡ Some result.now }
        ensures kept { Keeps self.now (record_of.Check result.now) }
        ensures earlier { NamesEarlier id.0 result.now.kind }
        ensures model { IsModel self.now }
    {
        &self.checks[id.0 as usize]
    }
}

/// The law of reading in order: a model's records, taken by kind, are each refused by no number against those before them.
pub fn records_follow()
    ensures { RecordsFollow }
{}

/// The law of tees: the test finds no broken tee exactly where the elements at the node of each tee make it.
pub fn tees_are_judged()
    ensures { TeesAreJudged }
{}
