ghost use Rattle.std.specs.Prelude.{◌≡◌, Ok, All, IfOk};
ghost use Rattle.std.specs.List.{find};
ghost use Rattle.std.specs.Option.{option_map};
ghost use Rattle.member_pairs.specs.Vectors.{IsWay};
ghost use Rattle.model_types.specs.Rules.{Keeps};
ghost use Rattle.model_types.specs.Tees.{IsTee, is_beside};
ghost use Rattle.model_types.specs.declared.records.Record.TheVariants as record_of;
ghost use Rattle.structure.specs.Elements.{element_at};
ghost use Rattle.structure.specs.Tees.{AreTeeNormals, HasNormal, HoldsTeeNormal, header_of, run_along, tee_normal, tee_normal_of};

use bend_element::{plane_normal, unit_normal, ways_cross};
use flex_interval::Iv;
use member_pairs::{Way, way_between};
use model_types::{Element, Model, Tee};
use std::alloc::{AllocError, Global};

/// For each node of a model the unit vector across the plane of its tee, in units of 2^-56, where it has one.
pub fn tee_normals(alloc: Global, m: &Model) -> Result<Vec<Option<[Iv; 3]>>, AllocError>
    ensures value { IfOk result (λ normals. AreTeeNormals m.now normals.items) }
    ensures holds { IfOk result (λ _. All (HasNormal m.now) m.now.tees) }
{
    let tees = m.tees();
    let mut normals = vec![in alloc; None; m.nodes().len()]?;
    for number in (0..tees.len()).rev() {
        let tee = &tees[number];
        normals[tee.node.0 as usize] = Some(tee_normal(m, tee));
    }
    Ok(normals)
}

/// The unit vector across the plane of a tee.
fn tee_normal(m: &Model, tee: &Tee) -> [Iv; 3]
    requires made { IsTee m.now tee.now }
    requires keeps { Keeps m.now (record_of.Tee tee.now) }
    ensures value { tee_normal_of m.now tee.now ≡ Ok result }
    ensures holds { HoldsTeeNormal (tee_normal m.now tee.now) result }
{
    let branch = m.element(tee.branch);
    let header = header(m, tee, branch);
    let along_branch = run_along(m, branch);
    let along_header = run_along(m, header);
    ways_cross();
    unit_normal(&plane_normal(&along_branch, &along_header)).unwrap()
}

/// The way along an element.
fn run_along(m: &Model, element: &Element) -> Way
    requires { Keeps m.now (record_of.Element element.now) }
    ensures value { result ≡ run_along m.now element.now }
    ensures way { IsWay result }
{
    way_between(m.node(element.from), m.node(element.to))
}

/// The first element of a tee's header, by its branch.
fn header<'a>(m: &'a Model, tee: &Tee, branch: &Element) -> &'a Element
    requires made { IsTee m.now tee.now }
    requires branch { branch.now ≡ element_at m.now tee.now.branch.0 }
    ensures value { result.now ≡ header_of m.now tee.now }
    ensures keeps { Keeps m.now (record_of.Element result.now) }
{
    first_beside(m.elements(), tee, branch).unwrap()
}

/// The first element that ends at a tee's node beside its branch.
fn first_beside<'a>(elements: &'a [Element], tee: &Tee, branch: &Element) -> Option<&'a Element>
    ensures { option_map (λ e. e.now) result ≡ find (is_beside tee.now.node.0 branch.now.name) elements.now }
{
    elements
        .iter()
        .find(|element| is_beside(element, tee, branch))
}

/// Whether an element ends at a tee's node beside its branch.
fn is_beside(element: &Element, tee: &Tee, branch: &Element) -> bool
    ensures { result ≡ is_beside tee.now.node.0 branch.now.name element.now }
{
    let node = tee.node.0;
    (element.from.0 == node || element.to.0 == node) && element.name != branch.name
}
