//! The weight and the initial deformation of a model's elements in a case.
ghost use Rattle.std.specs.Prelude.{◌≡◌, ◌<◌, ◌+◌, ◌++◌, ◌*◌, ◌^◌, ◌≤ℤ◌, Ok, ℕ, pos, length, map, IfOk, OnOk};
ghost use Rattle.angle_table.specs.Pi.{pi_ends};
ghost use Rattle.flex_interval.specs.Fraction.{Fraction, Within};
ghost use Rattle.lists.specs.Results.{and_then};
ghost use Rattle.member_pairs.specs.Lengths.{IsLengthWithin};
ghost use Rattle.member_pairs.specs.Vectors.{IsWay, parts_of};
ghost use Rattle.model_types.specs.Ranges.{CaseInForm, IsIn};
ghost use Rattle.model_types.specs.Rules.{Keeps};
ghost use Rattle.model_types.specs.declared.ranges.TheConstants.{PRESSURE, TEMPERATURE_CHANGE};
ghost use Rattle.model_types.specs.declared.records.Record.TheVariants as record_of;
ghost use Rattle.structure.specs.Elements.{element_at, section_of, material_of};
ghost use Rattle.load_vectors.specs.Cases.{case_at, dt_of, pressure_of, way_along, weight_of_element, end_load_in, deformation_in};
ghost use Rattle.load_vectors.specs.Deformations.{deformation_of, exact_deformation};
ghost use Rattle.load_vectors.specs.Laws.{delta_of, EnclosesDeformation};
ghost use Rattle.load_vectors.specs.NodeLoads.{Reading, IsReading, exact_weight_in, weight_load, weight_loads};
ghost use Rattle.load_vectors.specs.Totals.{ArePartsOf, AddsLoads, AreOfLoads};

use crate::adding::add_parts;
use crate::changes::{PipeChange, changes_by_section};
use crate::deformations::deformation;
use crate::weights::{element_weight, end_load_by};
use flex_interval::Iv;
use member_pairs::{Way, way_between};
use model_types::{Case, CaseId, Element, ElementId, Model, NoMemory};
use std::alloc::Global;

/// The load of the weight of an element on its first node in a case, or where `end` on its second: along and about x, y and z, in
/// units of 2^-40 N and N m.
pub fn end_load(m: &Model, case: CaseId, e: ElementId, end: bool) -> [Iv; 6]
    requires case { case.0 < length m.now.cases }
    requires element { e.0 < length m.now.elements }
    ensures { ArePartsOf (weight_load m.now case.0 (element_at m.now e.0) end) result }
{
    let element = m.element(e);
    end_parts(m, case, element, element_weight_in(m, element), end)
}

/// Adds the weight of an element to the rows of its two nodes.
pub(crate) fn add_weight(m: &Model, case: CaseId, element: &Element, loads: &mut [Iv])
    requires case { case.0 < length m.now.cases }
    requires kept { Keeps m.now (record_of.Element element.now) }
    requires rows { length loads.old ≡ 6 * length m.now.nodes }
    requires room { AreOfLoads 19999 loads.old }
    ensures adds { AddsLoads m.now (weight_loads m.now case.0 element.now) loads.old loads.new }
    ensures rows { length loads.new ≡ length loads.old }
    ensures size { (n : ℕ) → AreOfLoads n loads.old → AreOfLoads (n + 2) loads.new }
{
    let weight = element_weight_in(m, element);
    let from = end_parts(m, case, element, weight, false);
    add_parts(loads, element.from.0, &from);
    let to = end_parts(m, case, element, weight, true);
    add_parts(loads, element.to.0, &to);
}

/// The weight of an element of a model at standard gravity, in units of 2^-40 N.
fn element_weight_in(m: &Model, element: &Element) -> Iv
    requires { Keeps m.now (record_of.Element element.now) }
    ensures value { weight_of_element m.now element.now ≡ Ok result }
    ensures within { (x : Reading) → IsReading x → Within result (exact_weight_in m.now element.now x) }
    ensures lo { pos 0 ≤ℤ result.lo }
    ensures hi { result.hi ≤ℤ pos (2 ^ 68) }
{
    let section = m.section(element.section);
    let material = m.material(section.material);
    element_weight(section, material, &element.shape, &way_along(m, element))
}

/// The way of an element of a model.
fn way_along(m: &Model, element: &Element) -> Way
    requires { Keeps m.now (record_of.Element element.now) }
    ensures value { result ≡ way_along m.now element.now }
    ensures way { IsWay result }
{
    way_between(m.node(element.from), m.node(element.to))
}

/// The parts of an element's end load by its weight.
fn end_parts(m: &Model, case: CaseId, element: &Element, weight: Iv, at_to: bool) -> [Iv; 6]
    requires case { case.0 < length m.now.cases }
    requires kept { Keeps m.now (record_of.Element element.now) }
    requires weight { weight_of_element m.now element.now ≡ Ok weight }
    requires within { (x : Reading) → IsReading x → Within weight (exact_weight_in m.now element.now x) }
    requires lo { pos 0 ≤ℤ weight.lo }
    requires hi { weight.hi ≤ℤ pos (2 ^ 68) }
    ensures { ArePartsOf (weight_load m.now case.0 element.now at_to) result }
{
    let way = way_along(m, element);
    let load = end_load_by(&element.shape, weight, &way, m.case(case), at_to);
    joined(load.force, load.moment)
}

/// The parts of a force and of a moment.
fn joined(force: [Iv; 3], moment: [Iv; 3]) -> [Iv; 6]
    ensures value { result ≡ force ++ moment }
    ensures force { length force ≡ 3 }
    ensures moment { length moment ≡ 3 }
{
    let [fx, fy, fz] = force;
    let [mx, my, mz] = moment;
    [fx, fy, fz, mx, my, mz]
}

/// The initial deformation of each element of a model in a case, in units of 2^-56 m.
pub fn deltas(alloc: Global, m: &Model, case: CaseId) -> Result<Vec<Iv>, NoMemory>
    requires { case.0 < length m.now.cases }
    ensures value { IfOk result (λ deltas. deltas.items ≡ map (delta_of m.now case.0) m.now.elements) }
    ensures encloses { IfOk result (λ _. (n : ℕ) → n < length m.now.elements → EnclosesDeformation m.now case.0 (element_at m.now n) (delta_of m.now case.0 (element_at m.now n))) }
{
    let changes = changes_by_section(alloc, m, case)?;
    let elements = m.elements();
    let mut deltas = Vec::with_capacity(alloc, elements.len())?;
    for number in 0..elements.len() {
        let element = &elements[number];
        let change = changes[element.section.0 as usize];
        deltas.push(delta(m, element, change))?;
    }
    Ok(deltas)
}

/// The initial deformation of an element by a change in its section.
fn delta(m: &Model, element: &Element, change: PipeChange) -> Iv
    requires kept { Keeps m.now (record_of.Element element.now) }
    requires heat { IsIn TEMPERATURE_CHANGE change.dt }
    requires pressure { IsIn PRESSURE change.p }
    ensures value { deformation_of (section_of m.now element.now) (material_of m.now (section_of m.now element.now)) (way_along m.now element.now) change.dt change.p ≡ Ok result }
    ensures within { (x : Reading) → IsReading x →
        Within result (exact_deformation (section_of m.now element.now) (material_of m.now (section_of m.now element.now)) (x.length (way_along m.now element.now)) change.dt change.p) }
{
    let section = m.section(element.section);
    let material = m.material(section.material);
    deformation(
        section,
        material,
        &way_along(m, element),
        change.dt,
        change.p,
    )
}
