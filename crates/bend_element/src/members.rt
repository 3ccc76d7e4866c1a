ghost use Rattle.std.specs.Prelude.{◌≡◌, All, IfOk};
ghost use Rattle.flex_interval.specs.Fraction.{Fraction, Within};
ghost use Rattle.angle_table.specs.Pi.{pi_ends};
ghost use Rattle.member_pairs.specs.Pairs.{EnclosesMember, IsMemberOf};
ghost use Rattle.member_pairs.specs.Tubes.{IsRoundTube};
ghost use Rattle.member_pairs.specs.Lengths.{IsLengthWithin};
ghost use Rattle.member_pairs.specs.Vectors.{Exact, IsWay, EnclosesVector, parts_of};
ghost use Rattle.member_pairs.specs.declared.tube.Tube.{Tube};
ghost use Rattle.bend_element.specs.Arcs.{IsArc, ExactArc, EnclosesArc};
ghost use Rattle.bend_element.specs.Bend.{bend_members_of, IsFrameWithin, EnclosesBend, frame_by};
ghost use Rattle.bend_element.specs.ExactBend.{ExactFrame, plane_rotation, radial_force, chord_force, radius_moment as about_radius, chord_moment as about_chord, normal_force, plane_centre, normal_centre, stiffness, shape_of};
ghost use Rattle.bend_element.specs.Rounded.{rotation_member, radial_member, chord_member, radius_moment_member, chord_moment_member, normal_member, six_of};
ghost use Rattle.bend_element.specs.Stages.{EnclosesFlexibility, EnclosesStiffness, EnclosesFrame};

use crate::arc::Arc;
use crate::flexibility::{Flexibility, flexibilities};
use crate::frame::{Frame, frame_along};
use crate::stiffness::{Stiffness, rigidity, stiffnesses};
use flex_interval::{Iv, Wide};
use member_pairs::{
    Tube as PipeTube, Way, difference, limited_member, negative, stretched, total, zero,
};
use member_set::Member;
use model_types::Element;

/// The six members of a bend along a way: rotation in its plane, forces along its middle radius and its chord, moments about the
/// middle radius and the chord, and a force across its plane. `normal` encloses the unit vector across the plane, in units of 2^-56.
///
/// `Wide` where an operation has no answer, a stiffness has a lower end under 1 or an upper end of 2^60 or more, or a shape
/// number exceeds 2^60.
#[tactic(auto, unfolding(crate::specs::Bend::bend_members_of))]
pub fn bend_members(
    e: &Element,
    tube: &PipeTube,
    arc: &Arc,
    way: &Way,
    normal: &[Iv; 3],
) -> Result<[Member; 6], Wide>
    requires tube { IsRoundTube tube.now }
    requires arc { IsArc arc.now }
    requires way { IsWay way.now }

    ensures value { result ≡ bend_members_of e.now tube.now arc.now way.now normal.now }
    ensures limits { IfOk result (λ members. All (IsMemberOf e.now) members) }

    // Each exact stiffness and shape vector lies in its member.
    ensures within { IfOk result (λ members. (x : ExactArc) (place : ExactFrame) (pi : Fraction) → EnclosesArc arc.now x → IsFrameWithin way.now normal.now place → Within pi_ends pi →
        EnclosesBend members tube.now x place pi) }
    ensures place { IfOk result (λ _. (l : Fraction) (n : Exact) → IsLengthWithin (parts_of way.now) l → EnclosesVector normal.now n → IsFrameWithin way.now normal.now (frame_by way.now l n)) }
{
    let frame = frame_along(way, normal)?;
    let flexibility = flexibilities(tube, arc)?;
    let rigidity = rigidity(tube, arc)?;
    let stiffness = stiffnesses(rigidity, &flexibility)?;
    six(e, &stiffness, &frame, &flexibility)
}

#[tactic(auto, unfolding(crate::specs::Rounded::six_of))]
fn six(e: &Element, k: &Stiffness, frame: &Frame, f: &Flexibility) -> Result<[Member; 6], Wide>
    ensures value { result ≡ six_of e.now k.now frame.now f.now }
    ensures limits { IfOk result (λ members. All (IsMemberOf e.now) members) }
    ensures within { IfOk result (λ members. (tube : Tube) (x : ExactArc) (place : ExactFrame) (pi : Fraction) → EnclosesStiffness k.now tube x pi → EnclosesFrame frame.now place → EnclosesFlexibility f.now tube x →
        EnclosesBend members tube x place pi) }
{
    let first = rotation(e, k, frame)?;
    let second = radial(e, k, frame)?;
    let third = chord(e, k, frame, f.plane.centre)?;
    let fourth = radius_moment(e, k, frame)?;
    let fifth = chord_moment(e, k, frame)?;
    let sixth = normal(e, k, frame, f.across.centre)?;
    Ok([first, second, third, fourth, fifth, sixth])
}

#[tactic(auto, unfolding(crate::specs::Rounded::rotation_member))]
fn rotation(e: &Element, k: &Stiffness, frame: &Frame) -> Result<Member, Wide>
    ensures value { result ≡ rotation_member e.now k.now frame.now }
    ensures limits { IfOk result (IsMemberOf e.now) }
    ensures within { IfOk result (λ m. (tube : Tube) (x : ExactArc) (place : ExactFrame) (pi : Fraction) → EnclosesStiffness k.now tube x pi → EnclosesFrame frame.now place →
        EnclosesMember m (stiffness tube x pi plane_rotation) (shape_of tube x place plane_rotation)) }
{
    limited_member(
        e,
        k.rotation,
        &zero(),
        &negative(&frame.normal),
        &frame.normal,
    )
}

#[tactic(auto, unfolding(crate::specs::Rounded::radial_member))]
fn radial(e: &Element, k: &Stiffness, frame: &Frame) -> Result<Member, Wide>
    ensures value { result ≡ radial_member e.now k.now frame.now }
    ensures limits { IfOk result (IsMemberOf e.now) }
    ensures within { IfOk result (λ m. (tube : Tube) (x : ExactArc) (place : ExactFrame) (pi : Fraction) → EnclosesStiffness k.now tube x pi → EnclosesFrame frame.now place →
        EnclosesMember m (stiffness tube x pi radial_force) (shape_of tube x place radial_force)) }
{
    let reach = stretched(frame.half, &frame.normal)?;
    let arm = negative(&reach);
    limited_member(e, k.radial, &frame.side, &arm, &arm)
}

#[tactic(auto, unfolding(crate::specs::Rounded::chord_member))]
fn chord(e: &Element, k: &Stiffness, frame: &Frame, centre: Iv) -> Result<Member, Wide>
    ensures value { result ≡ chord_member e.now k.now frame.now centre }
    ensures limits { IfOk result (IsMemberOf e.now) }
    ensures within { IfOk result (λ m. (tube : Tube) (x : ExactArc) (place : ExactFrame) (pi : Fraction) → EnclosesStiffness k.now tube x pi → EnclosesFrame frame.now place → Within centre (plane_centre x) →
        EnclosesMember m (stiffness tube x pi chord_force) (shape_of tube x place chord_force)) }
{
    let arm = stretched(centre, &frame.normal)?;
    limited_member(e, k.chord, &frame.chord, &arm, &negative(&arm))
}

#[tactic(auto, unfolding(crate::specs::Rounded::radius_moment_member))]
fn radius_moment(e: &Element, k: &Stiffness, frame: &Frame) -> Result<Member, Wide>
    ensures value { result ≡ radius_moment_member e.now k.now frame.now }
    ensures limits { IfOk result (IsMemberOf e.now) }
    ensures within { IfOk result (λ m. (tube : Tube) (x : ExactArc) (place : ExactFrame) (pi : Fraction) → EnclosesStiffness k.now tube x pi → EnclosesFrame frame.now place →
        EnclosesMember m (stiffness tube x pi about_radius) (shape_of tube x place about_radius)) }
{
    limited_member(
        e,
        k.radius_moment,
        &zero(),
        &negative(&frame.side),
        &frame.side,
    )
}

#[tactic(auto, unfolding(crate::specs::Rounded::chord_moment_member))]
fn chord_moment(e: &Element, k: &Stiffness, frame: &Frame) -> Result<Member, Wide>
    ensures value { result ≡ chord_moment_member e.now k.now frame.now }
    ensures limits { IfOk result (IsMemberOf e.now) }
    ensures within { IfOk result (λ m. (tube : Tube) (x : ExactArc) (place : ExactFrame) (pi : Fraction) → EnclosesStiffness k.now tube x pi → EnclosesFrame frame.now place →
        EnclosesMember m (stiffness tube x pi about_chord) (shape_of tube x place about_chord)) }
{
    limited_member(
        e,
        k.chord_moment,
        &zero(),
        &negative(&frame.chord),
        &frame.chord,
    )
}

#[tactic(auto, unfolding(crate::specs::Rounded::normal_member))]
fn normal(e: &Element, k: &Stiffness, frame: &Frame, centre: Iv) -> Result<Member, Wide>
    ensures value { result ≡ normal_member e.now k.now frame.now centre }
    ensures limits { IfOk result (IsMemberOf e.now) }
    ensures within { IfOk result (λ m. (tube : Tube) (x : ExactArc) (place : ExactFrame) (pi : Fraction) → EnclosesStiffness k.now tube x pi → EnclosesFrame frame.now place → Within centre (normal_centre tube x) →
        EnclosesMember m (stiffness tube x pi normal_force) (shape_of tube x place normal_force)) }
{
    let half = stretched(frame.half, &frame.side)?;
    let offset = stretched(centre, &frame.chord)?;
    let from = difference(&half, &offset)?;
    let to = total(&half, &offset)?;
    limited_member(e, k.normal, &frame.normal, &from, &to)
}
