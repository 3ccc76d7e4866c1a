ghost use Rattle.std.specs.Prelude.{◌≡◌, ◌*◌, ◌≤◌, length, All, IfOk, Ok, Err};
ghost use Rattle.model_types.specs.MemberCounts.{shape_member_count};
ghost use Rattle.model_types.specs.Rules.{Keeps};
ghost use Rattle.model_types.specs.declared.records.Record.TheVariants as record_of;
ghost use Rattle.member_pairs.specs.Pairs.{IsMemberOf};
ghost use Rattle.model_types.specs.Ranges.{MaterialInForm, NodeInForm, ShapeInForm};
ghost use Rattle.model_types.specs.Rules.{IsShapeSpan, IsSpan};
ghost use Rattle.section_data.specs.Tube.{IsTube};
ghost use Rattle.structure.specs.Elements.{element_member_count, members_along, members_of_element};
ghost use Rattle.structure.specs.Enclosure.{EnclosesElement, EachEncloses, HoldsAlong};
ghost use Rattle.structure.specs.Sound.{IsSound};
ghost use Rattle.structure.specs.Structure.{element_members as all_of};

use crate::fault::BuildFault;
use bend_element::{bend, bend_spans_are_curves, curve_from};
use flex_interval::Wide;
use member_pairs::ElementMembers;
use member_set::Member;
use model_types::{Element, ElementId, Material, Model, Node, Section, Shape};
use pipe_element::straight;
use std::alloc::Global;

/// The members of an element of a model: `Wide` where they leave their limits.
pub fn element_members(model: &Model, element: &Element) -> Result<ElementMembers, Wide>
    requires { Keeps model.now (record_of.Element element.now) }
    ensures value { result ≡ members_of_element model.now element.now }
    ensures count { IfOk result (λ members. length members ≡ shape_member_count element.now.shape) }
    ensures few { IfOk result (λ members. length members ≤ 8) }
    ensures limits { IfOk result (λ members. All (IsMemberOf element.now) members) }
    ensures encloses { EnclosesElement model.now element.now }
{
    let from = model.node(element.from);
    let to = model.node(element.to);
    let section = model.section(element.section);
    let material = model.material(section.material);
    members_along(element, from, to, section, material)
}

/// The members of an element between these nodes, of this section and material.
fn members_along(
    e: &Element,
    from: &Node,
    to: &Node,
    s: &Section,
    m: &Material,
) -> Result<ElementMembers, Wide>
    requires from { NodeInForm from.now }
    requires to { NodeInForm to.now }
    requires span { IsSpan from.now to.now }
    requires form { ShapeInForm e.now.shape }
    requires shape { IsShapeSpan from.now to.now s.now e.now.shape }
    requires tube { IsTube s.now }
    requires material { MaterialInForm m.now }
    ensures value { result ≡ members_along e.now.shape e.now from.now to.now s.now m.now }
    ensures count { IfOk result (λ members. length members ≡ shape_member_count e.now.shape) }
    ensures limits { IfOk result (λ members. All (IsMemberOf e.now) members) }
    ensures holds { IfOk result (HoldsAlong e.now.shape from.now to.now s.now m.now) }
{
    match e.shape {
        Shape::Straight => {
            let members = straight(e, from, to, s, m)?;
            Ok(ElementMembers::eight(members))
        }
        Shape::Bend {
            r,
            angle,
            px,
            py,
            pz,
        } => {
            bend_spans_are_curves();
            let curve = curve_from(from, r, angle, px, py, pz);
            let members = bend(e, from, to, s, m, &curve)?;
            Ok(ElementMembers::six(members))
        }
    }
}

/// How many members the elements of a model have, before those of its restraints.
pub fn element_member_count(model: &Model) -> usize
    ensures value { result ≡ element_member_count model.now }
    ensures few { result ≤ 8 * length model.now.elements }
{
    let mut count = 0;
    let elements = model.elements();
    for number in 0..elements.len() {
        count += elements[number].shape.member_count();
    }
    count
}

/// The members of a model's elements, in order, or the first element that leaves its limits.
pub fn all_element_members(alloc: Global, model: &Model) -> Result<Vec<Member>, BuildFault>
    ensures value { IfOk result (λ members. all_of model.now (length model.now.elements) ≡ Ok members.items) }
    ensures sound { IfOk result (λ members. All (IsSound (length model.now.nodes)) members.items) }
    ensures few { IfOk result (λ members. length members.items ≤ 8 * length model.now.elements) }
    ensures encloses { IfOk result (λ _. EachEncloses model.now) }
    ensures wide { (id : ElementId) → result ≡ Err (BuildFault.Wide id) → all_of model.now (length model.now.elements) ≡ Err id.0 }
{
    let mut members = Vec::new(alloc);
    let elements = model.elements();
    for number in 0..elements.len() {
        match element_members(model, &elements[number]) {
            Ok(more) => members.extend_from_slice(more.as_slice())?,
            Err(Wide) => return Err(BuildFault::Wide(ElementId(number as u32))),
        }
    }
    Ok(members)
}
