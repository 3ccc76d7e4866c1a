ghost use Rattle.std.specs.Prelude.{◌≡◌, Ok, All, IfOk};
ghost use Rattle.angle_table.specs.Pi.{pi_ends};
ghost use Rattle.flex_interval.specs.Fraction.{Fraction, Within};
ghost use Rattle.model_types.specs.Ranges.{BendInForm, MaterialInForm, NodeInForm};
ghost use Rattle.model_types.specs.Rules.{IsSpan};
ghost use Rattle.section_data.specs.Tube.{IsTube};
ghost use Rattle.member_pairs.specs.Pairs.{IsMemberOf};
ghost use Rattle.member_pairs.specs.Tubes.{tube_of};
ghost use Rattle.member_pairs.specs.Vectors.{way_of};
ghost use Rattle.bend_element.specs.Arcs.{IsArc, ExactArc, EnclosesArc};
ghost use Rattle.bend_element.specs.Bend.{EnclosesBend};
ghost use Rattle.bend_element.specs.Between.{IsCurve, IsOffLine, arc_of, bend_of, curve_from, IsArcWithin, IsExactArc, IsPlaceWithin, SomeWithin};
ghost use Rattle.bend_element.specs.ExactBend.{ExactFrame};

use crate::arc::Arc;
use crate::members::bend_members;
use crate::normal::{plane_normal, unit_normal};
use angle_table::half;
use flex_interval::Wide;
use member_pairs::{Way, round_tube, way_between};
use member_set::Member;
use model_types::{Element, Material, Node, Section};
use sif_factors::bend_factors;

/// How a bend runs between its nodes.
#[derive(Clone, Copy)]
pub struct Curve {
    /// The radius of its middle line, 1,000 to 15,000,000 micrometres.
    pub radius: i64,
    /// Its angle in thousandths of a degree: 22,500, 30,000, 45,000, 60,000, 90,000 or 180,000.
    pub angle: u32,
    /// The way from its first node to a point on the outer side of its chord, usually the corner where the tangents at its ends
    /// meet; at most 100 m along each axis.
    pub corner: Way,
}

/// How a bend runs from its first node, by its radius and the place of its corner in micrometres, and its angle in thousandths of a
/// degree.
pub fn curve_from(from: &Node, radius: i64, angle: u32, x: i64, y: i64, z: i64) -> Curve
    requires from { NodeInForm from.now }
    requires form { BendInForm radius angle x y z }
    ensures { result ≡ curve_from from.now radius angle x y z }
{
    Curve {
        radius,
        angle,
        corner: Way {
            x: x - from.x,
            y: y - from.y,
            z: z - from.z,
        },
    }
}

/// The six members of a bend between two nodes: rotation in its plane, forces along its middle radius and its chord, moments
/// about the middle radius and the chord, and a force across its plane.
///
/// `Wide` where an operation has no answer, a stiffness has a lower end under 1 or an upper end of 2^60 or more, or a shape
/// number exceeds 2^60.
#[tactic(auto, unfolding(crate::specs::Between::bend_of))]
pub fn bend(
    e: &Element,
    from: &Node,
    to: &Node,
    s: &Section,
    m: &Material,
    curve: &Curve,
) -> Result<[Member; 6], Wide>
    requires from { NodeInForm from.now }
    requires to { NodeInForm to.now }
    requires span { IsSpan from.now to.now }
    requires tube { IsTube s.now }
    requires material { MaterialInForm m.now }
    requires curve { IsCurve s.now curve.now }
    requires off_line { IsOffLine (way_of from.now to.now) curve.now.corner }

    ensures value { result ≡ bend_of e.now (tube_of s.now m.now) s.now (way_of from.now to.now) curve.now }
    ensures limits { IfOk result (λ members. All (IsMemberOf e.now) members) }

    // Each exact stiffness and shape vector lies in its member, for every choice within the intervals.
    ensures within { IfOk result (λ members. (x : ExactArc) (place : ExactFrame) (pi : Fraction) → IsArcWithin s.now curve.now x →
        IsPlaceWithin (way_of from.now to.now) curve.now.corner place → Within pi_ends pi → EnclosesBend members (tube_of s.now m.now) x place pi) }

    // The exact half angle and flexibility factor are such a choice.
    ensures exact { (x : ExactArc) (pi : Fraction) → Within pi_ends pi → IsExactArc s.now curve.now pi x → IsArcWithin s.now curve.now x }
    ensures some { IfOk result (λ _. SomeWithin s.now (way_of from.now to.now) curve.now) }
{
    let arc = arc_along(s, curve);
    let way = way_between(from, to);
    let normal = unit_normal(&plane_normal(&way, &curve.corner))?;
    bend_members(e, &round_tube(s, m), &arc, &way, &normal)
}

// The arc of a bend of that section.
fn arc_along(s: &Section, curve: &Curve) -> Arc
    requires tube { IsTube s.now }
    requires curve { IsCurve s.now curve.now }
    ensures value { arc_of s.now curve.now ≡ Ok result }
    ensures arc { IsArc result }
    ensures exact { (x : ExactArc) (pi : Fraction) → Within pi_ends pi → IsExactArc s.now curve.now pi x → IsArcWithin s.now curve.now x }
    ensures some { (x : ExactArc) × EnclosesArc result x }
{
    let half = half(curve.angle);
    let factors = bend_factors(s, curve.radius);
    Arc {
        radius: curve.radius,
        a: half.a,
        sin: half.sin,
        cos: half.cos,
        k: factors.k,
    }
}
