ghost use Rattle.std.specs.Prelude.{◌≡◌, ◌<◌, ◌∷◌, [], false, true, length, All, IfOk, IsOk, ℕ};
ghost use Rattle.structure.specs.Elements.{element_at, member_count_below, members_of_element};
ghost use Rattle.structure.specs.Stations.{HoldsVectors, station_of, stations_of};
ghost use Rattle.structure.specs.Tees.{AreTeeNormals, HasNormal};

use crate::tees::tee_normals;
use crate::vectors::end_vectors;
use flex_interval::Iv;
use member_set::Station;
use model_types::Model;
use std::alloc::{AllocError, Global};

/// The stations of a model whose elements have members: for each element in order the end `from`, then `to`.
pub fn stations(alloc: Global, m: &Model) -> Result<Vec<Station>, AllocError>
    requires { (n : ℕ) → n < length m.now.elements → IsOk (members_of_element m.now (element_at m.now n)) }
    ensures value { IfOk result (λ stations. stations.items ≡ stations_of m.now) }
    ensures holds { IfOk result (λ stations. All (HoldsVectors m.now) stations.items) }
{
    let elements = m.elements();
    let normals = tee_normals(alloc, m)?;
    let mut stations = Vec::new(alloc);
    let mut first = 0;
    for number in 0..elements.len() {
        stations.extend_from_slice(&ends(m, number, first, &normals))?;
        first += elements[number].shape.member_count();
    }
    Ok(stations)
}

/// The stations at the ends of an element that has members, the first of which has number `first`, by the unit vectors across the
/// tees of the nodes.
fn ends(m: &Model, number: usize, first: usize, normals: &[Option<[Iv; 3]>]) -> [Station; 2]
    requires in_range { number < length m.now.elements }
    requires members { IsOk (members_of_element m.now (element_at m.now number)) }
    requires first { first ≡ member_count_below m.now number }
    requires normals { AreTeeNormals m.now normals.now }
    requires tees { All (HasNormal m.now) m.now.tees }
    ensures value { result ≡ station_of m.now number false ∷ station_of m.now number true ∷ [] }
    ensures holds { All (HoldsVectors m.now) result }
{
    let element = &m.elements()[number];
    let vectors = end_vectors(m, element);
    let count = element.shape.member_count();
    let across_from = vectors.normal.or(normals[element.from.0 as usize]);
    let across_to = vectors.normal.or(normals[element.to.0 as usize]);
    let from = from_station(
        &vectors.from,
        across_from,
        number as u32,
        first as u32,
        count as u32,
    );
    let to = Station {
        end: true,
        tangent: vectors.to,
        normal: across_to,
        ..from
    };
    [from, to]
}

/// The station at the first end of an element with these unit vectors.
fn from_station(
    tangent: &[Iv; 3],
    normal: Option<[Iv; 3]>,
    element: u32,
    first: u32,
    count: u32,
) -> Station
    ensures { result ≡ (record { element = element; end = false; tangent = tangent.now; normal = normal; first = first; count = count }) }
{
    Station {
        element,
        end: false,
        tangent: *tangent,
        normal,
        first,
        count,
    }
}
