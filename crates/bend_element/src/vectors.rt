ghost use Rattle.std.specs.Prelude.{◌≡◌, Ok, IfOk, IsOk, IsTrue};
ghost use Rattle.angle_table.specs.HalfAngle.{is_bend_angle};
ghost use Rattle.flex_interval.specs.Ends.{Ends};
ghost use Rattle.flex_interval.specs.Fraction.{Fraction, Within};
ghost use Rattle.model_types.specs.Ranges.{NodeInForm};
ghost use Rattle.model_types.specs.Rules.{IsSpan};
ghost use Rattle.model_types.specs.declared.records.Element.{Element};
ghost use Rattle.model_types.specs.declared.records.Section.{Section};
ghost use Rattle.member_pairs.specs.Lengths.{IsLengthWithin};
ghost use Rattle.member_pairs.specs.Vectors.{way_of, parts_of};
ghost use Rattle.member_pairs.specs.declared.tube.Tube.{Tube};
ghost use Rattle.bend_element.specs.Between.{bend_of, IsOffLine, IsPlaceWithin};
ghost use Rattle.bend_element.specs.ExactBend.{ExactFrame};
ghost use Rattle.bend_element.specs.Normal.{IsCornerWay, IsNormalLength, IsNormalLengthWithin, normal_parts, normal_to};
ghost use Rattle.bend_element.specs.Stages.{EnclosesFrame};
ghost use Rattle.bend_element.specs.Vectors.{vectors_in, bend_vectors_of, AreWithinHalf, EnclosesVectors, place_by};

use crate::between::Curve;
use crate::frame::{Frame, frame_along};
use crate::normal::{plane_normal, unit_normal};
use angle_table::half;
use flex_interval::{Iv, IvFault};
use member_pairs::{difference, stretched, total, way_between};
use model_types::Node;

/// The unit vectors of a bend, in units of 2^-56.
#[derive(Clone, Copy)]
pub struct BendVectors {
    /// Along the bend at its first node.
    pub from: [Iv; 3],
    /// Along it at its second node.
    pub to: [Iv; 3],
    /// Across its plane.
    pub normal: [Iv; 3],
}

/// The unit vectors of a bend between two nodes: along it at its ends, and across its plane. A bend that has members has them.
#[tactic(auto, unfolding(crate::specs::Vectors::bend_vectors_of))]
pub fn bend_vectors(from: &Node, to: &Node, curve: &Curve) -> Result<BendVectors, IvFault>
    requires from { NodeInForm from.now }
    requires to { NodeInForm to.now }
    requires span { IsSpan from.now to.now }
    requires listed { IsTrue (is_bend_angle curve.now.angle) }
    requires corner { IsCornerWay curve.now.corner }
    requires off_line { IsOffLine (way_of from.now to.now) curve.now.corner }

    ensures value { result ≡ bend_vectors_of (way_of from.now to.now) curve.now }
    ensures within { IfOk result (λ v. (place : ExactFrame) (cos sin : Fraction) → IsPlaceWithin (way_of from.now to.now) curve.now.corner place →
        AreWithinHalf curve.now.angle cos sin → EnclosesVectors v place cos sin) }

    // The place by the exact lengths is such a place.
    ensures place { IfOk result (λ _. (chord across : Fraction) → IsLengthWithin (parts_of (way_of from.now to.now)) chord →
        IsNormalLength (normal_parts (normal_to (way_of from.now to.now) curve.now.corner)) across →
        IsPlaceWithin (way_of from.now to.now) curve.now.corner (place_by (way_of from.now to.now) curve.now.corner chord across)) }
    ensures found { (e : Element) (tube : Tube) (s : Section) → IsOk (bend_of e tube s (way_of from.now to.now) curve.now) → IsOk result }
{
    let half = half(curve.angle);
    let way = way_between(from, to);
    let normal = unit_normal(&plane_normal(&way, &curve.corner))?;
    let frame = frame_along(&way, &normal)?;
    vectors_in(&frame, half.cos, half.sin)
}

/// Those of a bend in its frame, by the cosine and the sine of half of its angle.
#[tactic(auto, unfolding(crate::specs::Vectors::vectors_in))]
fn vectors_in(frame: &Frame, cos: Iv, sin: Iv) -> Result<BendVectors, IvFault>
    ensures value { result ≡ vectors_in frame.now cos sin }
    ensures within { IfOk result (λ v. (place : ExactFrame) (x y : Fraction) → EnclosesFrame frame.now place → Within cos x → Within sin y → EnclosesVectors v place x y) }
{
    let along = stretched(cos, &frame.chord)?;
    let outwards = stretched(sin, &frame.side)?;
    let from = total(&along, &outwards)?;
    let to = difference(&along, &outwards)?;
    Ok(BendVectors {
        from,
        to,
        normal: frame.normal,
    })
}
