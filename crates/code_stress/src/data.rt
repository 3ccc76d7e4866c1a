ghost use Rattle.std.specs.Prelude.{◌≡◌, ◌^◌, ◌<◌, ◌==◌, false, Ok, None, length, pos, ◌≤ℤ◌, ◌<ℤ◌};
ghost use Rattle.std.specs.List.{find};
ghost use Rattle.std.specs.Option.{option_map};
ghost use Rattle.model_types.specs.Rules.{Keeps};
ghost use Rattle.model_types.specs.declared.records.Record.TheVariants as record_of;
ghost use Rattle.model_types.specs.declared.records.Shape.TheVariants.{Straight};
ghost use Rattle.sif_factors.specs.Factors.{AreFromOne};
ghost use Rattle.structure.specs.Stations.{station_of};
ghost use Rattle.structure.specs.Tees.{tee_at};
ghost use Rattle.code_stress.specs.Actions.{place};
ghost use Rattle.code_stress.specs.Data.{factors_along, factors_by_tee, plain_factors, section_values, station_data_of};
ghost use Rattle.code_stress.specs.Direct.{HasInside};
ghost use Rattle.code_stress.specs.Station.{StationInForm};

use crate::actions::node_at;
use crate::station::StationData;
use flex_interval::{Iv, point};
use member_set::Station;
use model_types::{Element, ElementId, Model, NodeId, Shape, Tee};
use section_data::{SectionIv, section};
use sif_factors::{Factors, bend_factors, tee_factors};

/// What the stress of a station is taken with: its unit vectors, the section values of its element, with the wall less its allowance
/// where `reduced`, and the factors of its bend or tee, which are 1 elsewhere.
pub(crate) fn station_data(m: &Model, s: &Station, reduced: bool) -> StationData
    requires in_range { s.now.element < length m.now.elements }
    requires station { s.now ≡ station_of m.now s.now.element s.now.end }
    ensures value { station_data_of m.now reduced (place s.now.element s.now.end) ≡ Ok result }
    ensures in_form { StationInForm result }
{
    let element = m.element(ElementId(s.element));
    let values = section_values(m, element, reduced);
    let node = node_at(element, s.end);
    let factors = factors_along(m, element, node, &s.normal);
    StationData {
        tangent: s.tangent,
        normal: s.normal,
        section: values,
        bending: values.modulus,
        ii: factors.ii,
        io: factors.io,
    }
}

/// The section values of an element.
fn section_values(m: &Model, element: &Element, reduced: bool) -> SectionIv
    requires { Keeps m.now (record_of.Element element.now) }
    ensures value { section_values m.now element.now reduced ≡ Ok result }
    ensures inside { HasInside result }
    ensures area { pos 0 <ℤ result.area.lo }
    ensures modulus { pos 0 <ℤ result.modulus.lo }
{
    let own = m.section(element.section);
    section(own, m.material(own.material), reduced)
}

/// The factors at an end of an element by its node: a bend has its own, and a straight those of a tee, where its end has a normal.
fn factors_along(m: &Model, element: &Element, node: NodeId, normal: &Option<[Iv; 3]>) -> Factors
    requires keeps { Keeps m.now (record_of.Element element.now) }
    requires normal { element.now.shape ≡ Straight → normal.now ≡ None → tee_at m.now node.0 ≡ None }
    ensures value { factors_along element.now.shape m.now element.now node.0 ≡ Ok result }
    ensures from_one { AreFromOne result }
{
    match element.shape {
        Shape::Straight => factors_at(m, node, normal.is_some()),
        Shape::Bend { r, .. } => bend_factors(m.section(element.section), r),
    }
}

/// The factors at the end of a straight: those of a tee at its node, where there is one. No tee is sought where none is known to be.
fn factors_at(m: &Model, node: NodeId, has_tee: bool) -> Factors
    requires { has_tee ≡ false → tee_at m.now node.0 ≡ None }
    ensures value { factors_by_tee m.now (tee_at m.now node.0) ≡ Ok result }
    ensures from_one { AreFromOne result }
{
    if !has_tee {
        return plain_factors();
    }
    match tee_at(m.tees(), node) {
        Some(tee) => tee_factors(m.section(tee.header), tee.kind),
        None => plain_factors(),
    }
}

/// The tee at a node.
fn tee_at(tees: &[Tee], node: NodeId) -> Option<&Tee>
    ensures { option_map (λ t. t.now) result ≡ find (λ t. t.node.0 == node.0) tees.now }
{
    tees.iter().find(|tee| tee.node.0 == node.0)
}

/// The factors of an end that is neither at a bend nor at a tee.
fn plain_factors() -> Factors
    ensures value { result ≡ plain_factors }
    ensures from_one { AreFromOne result }
{
    let one = point(1 << 30);
    Factors {
        k: point(1 << 56),
        ii: one,
        io: one,
    }
}
