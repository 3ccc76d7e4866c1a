ghost use Rattle.std.specs.Prelude.{◌≡◌, Bool, IsOk, ℕ, Ok};
ghost use Rattle.model_types.specs.Lists.{Lists};
ghost use Rattle.model_types.specs.Ranges.{NodeInForm};
ghost use Rattle.model_types.specs.Rules.{IsSpan, Keeps};
ghost use Rattle.model_types.specs.declared.records.Record.TheVariants as record_of;
ghost use Rattle.member_pairs.specs.Vectors.{way_of};
ghost use Rattle.structure.specs.Elements.{from_of, members_of_element, to_of};
ghost use Rattle.structure.specs.Stations.{HoldsTangent, HoldsVectorsAlong, station_with, vectors_along, vectors_of_element};

use bend_element::{bend_spans_are_curves, bend_vectors, curve_from};
use flex_interval::Iv;
use member_pairs::{length, tangent, way_between};
use model_types::{Element, Model, Node, Shape};

/// The unit vectors of an element, in units of 2^-56.
#[derive(Clone, Copy)]
pub struct EndVectors {
    /// Along it at its first node.
    pub from: [Iv; 3],
    /// Along it at its second node.
    pub to: [Iv; 3],
    /// Across the plane of a bend.
    pub normal: Option<[Iv; 3]>,
}

/// The unit vectors of an element that has members.
pub fn end_vectors(m: &Model, e: &Element) -> EndVectors
    requires keeps { Keeps m.now (record_of.Element e.now) }
    requires members { IsOk (members_of_element m.now e.now) }
    ensures value { vectors_of_element m.now e.now ≡ Ok result }
    ensures holds { (n : ℕ) (end : Bool) → HoldsVectorsAlong e.now.shape (from_of m.now e.now) (to_of m.now e.now) (station_with m.now n end result) }
{
    let from = m.node(e.from);
    let to = m.node(e.to);
    match e.shape {
        Shape::Straight => straight_vectors(from, to),
        Shape::Bend {
            r,
            angle,
            px,
            py,
            pz,
        } => {
            bend_spans_are_curves();
            let curve = curve_from(from, r, angle, px, py, pz);
            let vectors = bend_vectors(from, to, &curve).unwrap();
            let [x, y, z] = vectors.normal;
            EndVectors {
                from: vectors.from,
                to: vectors.to,
                normal: Some([x, y, z]),
            }
        }
    }
}

/// Those of a straight.
fn straight_vectors(from: &Node, to: &Node) -> EndVectors
    requires from { NodeInForm from.now }
    requires to { NodeInForm to.now }
    requires span { IsSpan from.now to.now }
    requires found { IsOk (vectors_along Shape.Straight from.now to.now) }
    ensures value { vectors_along Shape.Straight from.now to.now ≡ Ok result }
    ensures holds { (m : Lists) (n : ℕ) (end : Bool) → HoldsTangent (way_of from.now to.now) (station_with m n end result) }
{
    let way = way_between(from, to);
    let length = length(&way).unwrap();
    let along = tangent(&way, length).unwrap();
    EndVectors {
        from: along,
        to: along,
        normal: None,
    }
}
