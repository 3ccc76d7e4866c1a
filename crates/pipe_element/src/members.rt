ghost use Rattle.std.specs.Prelude.{◌≡◌, All, IfOk};
ghost use Rattle.flex_interval.specs.Fraction.{Fraction, Within};
ghost use Rattle.angle_table.specs.Pi.{pi_ends};
ghost use Rattle.member_pairs.specs.Axes.{Axis};
ghost use Rattle.member_pairs.specs.Lengths.{IsLengthWithin, tangent};
ghost use Rattle.member_pairs.specs.Pairs.{member as member_of, EnclosesMember, IsMemberOf};
ghost use Rattle.member_pairs.specs.Span.{Span, IsLengthOf};
ghost use Rattle.member_pairs.specs.Tubes.{tube_of};
ghost use Rattle.member_pairs.specs.Vectors.{way_of, parts_of, zero_vector, negative_of, crossed as crossed_with, EnclosesVector};
ghost use Rattle.member_pairs.specs.declared.tube.Tube.{Tube};
ghost use Rattle.model_types.specs.Ranges.{MaterialInForm, NodeInForm};
ghost use Rattle.model_types.specs.Rules.{IsSpan};
ghost use Rattle.section_data.specs.Tube.{IsTube};
ghost use Rattle.pipe_element.specs.Beam.{AddUpToBeam};
ghost use Rattle.pipe_element.specs.ExactStraight.{axial as axial_mode, torsion as torsion_mode, bending as bending_mode, shear as shear_mode, lever_arm, shape_of, axial_stiffness, torsion_stiffness, bending_stiffness, shear_stiffness};
ghost use Rattle.pipe_element.specs.Shapes.{EnclosesStiffness, EnclosesShapes};
ghost use Rattle.pipe_element.specs.Straight.{straight_of, limited, members_of, EnclosesStraight};

use crate::shapes::{Shapes, are_shapes, enclose_shapes};
use crate::stiffness::{Stiffness, are_stiffnesses, stiffnesses};
use flex_interval::{Iv, Wide};
use member_pairs::{
    crossed_x, crossed_y, crossed_z, length, member, negative, round_tube, way_between, zero,
};
use member_set::Member;
use model_types::{Element, Material, Node, Section};

/// The eight members of a straight: along its axis, in torsion about it, and in bending and in shear about each axis of
/// space. Shears act at the middle of the length.
///
/// `Wide` where an operation has no answer, a stiffness has a lower end under 1 or an upper end of 2^60 or more, or a shape
/// number exceeds 2^60.
pub fn straight(
    e: &Element,
    from: &Node,
    to: &Node,
    s: &Section,
    m: &Material,
) -> Result<[Member; 8], Wide>
    requires from { NodeInForm from.now }
    requires to { NodeInForm to.now }
    requires span { IsSpan from.now to.now }
    requires tube { IsTube s.now }
    requires material { MaterialInForm m.now }

    ensures value { result ≡ straight_of e.now from.now to.now s.now m.now }

    ensures limits { IfOk result (λ members. All (IsMemberOf e.now) members) }

    // Each exact stiffness and shape vector lies in its member.
    ensures within { IfOk result (λ members. (pi l : Fraction) → Within pi_ends pi → IsLengthWithin (parts_of (way_of from.now to.now)) l →
        EnclosesStraight members (tube_of s.now m.now) (parts_of (way_of from.now to.now)) pi l) }

    // And at the true length they add up to the stiffness matrix of a beam, in any direction.
    ensures beam { (pi l : Fraction) → Within pi_ends pi → IsLengthOf (parts_of (way_of from.now to.now)) l →
        AddUpToBeam (tube_of s.now m.now) (parts_of (way_of from.now to.now)) pi l }
{
    let way = way_between(from, to);
    let length = length(&way)?;
    let stiffness = stiffnesses(&round_tube(s, m), &way, length)?;
    let shapes = enclose_shapes(&way, length)?;
    limited(e, &stiffness, &shapes)
}

/// The members, where their numbers are in their limits.
fn limited(e: &Element, k: &Stiffness, w: &Shapes) -> Result<[Member; 8], Wide>
    ensures value { result ≡ limited e.now k.now w.now }
    ensures limits { IfOk result (λ members. All (IsMemberOf e.now) members) }
    ensures within { IfOk result (λ members. (tube : Tube) (d : Span) (pi l : Fraction) → EnclosesStiffness k.now tube d pi l → EnclosesShapes w.now d l →
        EnclosesStraight members tube d pi l) }
{
    if are_stiffnesses(k) && are_shapes(w) {
        Ok(members(e, k, w))
    } else {
        Err(Wide)
    }
}

fn members(e: &Element, k: &Stiffness, w: &Shapes) -> [Member; 8]
    ensures value { result ≡ members_of e.now k.now w.now }
    ensures within { (tube : Tube) (d : Span) (pi l : Fraction) → EnclosesStiffness k.now tube d pi l → EnclosesShapes w.now d l →
        EnclosesStraight result tube d pi l }
{
    [
        axial(e, k.axial, &w.tangent),
        torsion(e, k.torsion, &w.tangent),
        bending(e, k.bending, &crossed_x(&w.tangent)),
        bending(e, k.bending, &crossed_y(&w.tangent)),
        bending(e, k.bending, &crossed_z(&w.tangent)),
        shear(e, k.shear, &crossed_x(&w.tangent), &w.x_arm),
        shear(e, k.shear, &crossed_y(&w.tangent), &w.y_arm),
        shear(e, k.shear, &crossed_z(&w.tangent), &w.z_arm),
    ]
}

fn axial(e: &Element, kappa: Iv, unit: &[Iv; 3]) -> Member
    ensures value { result ≡ member_of e.now kappa unit.now zero_vector zero_vector }
    ensures within { (k : Fraction) (d : Span) (l : Fraction) → Within kappa k → EnclosesVector unit.now (tangent d l) →
        EnclosesMember result k (shape_of d l axial_mode) }
{
    member(e, kappa, unit, &zero(), &zero())
}

fn torsion(e: &Element, kappa: Iv, unit: &[Iv; 3]) -> Member
    ensures value { result ≡ member_of e.now kappa zero_vector (negative_of unit.now) unit.now }
    ensures within { (k : Fraction) (d : Span) (l : Fraction) → Within kappa k → EnclosesVector unit.now (tangent d l) →
        EnclosesMember result k (shape_of d l torsion_mode) }
{
    member(e, kappa, &zero(), &negative(unit), unit)
}

fn bending(e: &Element, kappa: Iv, crossed: &[Iv; 3]) -> Member
    ensures value { result ≡ member_of e.now kappa zero_vector (negative_of crossed.now) crossed.now }
    ensures within { (k : Fraction) (d : Span) (l : Fraction) (axis : Axis) → Within kappa k → EnclosesVector crossed.now (crossed_with (tangent d l) axis) →
        EnclosesMember result k (shape_of d l (bending_mode axis)) }
{
    member(e, kappa, &zero(), &negative(crossed), crossed)
}

fn shear(e: &Element, kappa: Iv, crossed: &[Iv; 3], arm: &[Iv; 3]) -> Member
    ensures value { result ≡ member_of e.now kappa crossed.now arm.now arm.now }
    ensures within { (k : Fraction) (d : Span) (l : Fraction) (axis : Axis) → Within kappa k → EnclosesVector crossed.now (crossed_with (tangent d l) axis) →
        EnclosesVector arm.now (lever_arm d l axis) → EnclosesMember result k (shape_of d l (shear_mode axis)) }
{
    member(e, kappa, crossed, arm, arm)
}
