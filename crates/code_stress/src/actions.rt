//! What acts at an end of an element in a check.
ghost use Rattle.std.specs.Prelude.{◌≡◌, ℕ, ◌+◌, ◌^◌, ◌<◌, ◌≤◌, true, List, length, ℤ, pos, ◌+ℤ◌, ◌*ℤ◌, ◌<ℤ◌, IfOk};
ghost use Rattle.flex_interval.specs.Fraction.{Fraction, Within};
ghost use Rattle.flex_interval.specs.Operations.{add_of, mul_of};
ghost use Rattle.int_laws.specs.Matrices.{Vector};
ghost use Rattle.lists.specs.Results.{and_then};
ghost use Rattle.load_vectors.specs.Equilibria.{HoldForcesAlways};
ghost use Rattle.load_vectors.specs.NodeLoads.{node_at};
ghost use Rattle.member_set.specs.Members.{shape_at};
ghost use Rattle.member_set.specs.Realisation.{Realisation, IsStiffnessOf, HoldForces, fraction, force_fraction, pull_fraction};
ghost use Rattle.member_set.specs.declared.members.Law.{Law};
ghost use Rattle.structure.specs.Structure.{IsStructureOf};
ghost use Rattle.code_stress.specs.Actions.{place, row_at, exact_held, exact_hold, EncloseParts, sum_held, held_of, six, action_range_of, action_of};
ghost use Rattle.code_stress.specs.Checks.{acts_in, forces_in, is_certified};
ghost use Rattle.code_stress.specs.Meaning.{CasesHold, ActionsLieIn, EnclosesAction, InCase, exact_range};
ghost use Rattle.code_stress.specs.Rules.{IsCheckOf, AreForcesOf, AreCertified, IsStationOf};

use flex_interval::{Iv, IvFault, add, mul, point, sub};
use load_vectors::end_load;
use member_set::{Built, Member, Station, shape};
use model_types::{CaseId, CheckKind, Element, ElementId, Model, NodeId, Sequence};

/// What acts at a station in a check whose cases are certified, by the forces of all members in each case, in units of 2^-40 N: that
/// of its case, or of an expansion check what acts in its first case less what acts in its second. A force and a moment along and about
/// x, y and z, in units of 2^-40 N and 2^-40 N m. `Wide` where an operation leaves the limit of intervals.
pub(crate) fn action_in_check(
    m: &Model,
    b: &Built,
    forces: &[Option<Sequence<Iv>>],
    kind: &CheckKind,
    s: &Station,
) -> Result<[Iv; 6], IvFault>
    requires structure { IsStructureOf m.now b.now }
    requires check { IsCheckOf m.now kind.now }
    requires forces { AreForcesOf m.now b.now forces.now }
    requires certified { AreCertified forces.now kind.now }
    requires station { IsStationOf m.now s.now }
    ensures value { result ≡ acts_in m.now b.now forces.now kind.now (place s.now.element s.now.end) }
    ensures holds { IfOk result (λ f. CasesHold m.now forces.now kind.now → ActionsLieIn m.now kind.now (place s.now.element s.now.end) f) }
{
    match *kind {
        CheckKind::Sustained { case, .. } => action_in_case(m, b, forces, case, s),
        CheckKind::Occasional { case, .. } => action_in_case(m, b, forces, case, s),
        CheckKind::Expansion { case1, case2, .. } => {
            let first = action_in_case(m, b, forces, case1, s)?;
            let second = action_in_case(m, b, forces, case2, s)?;
            difference(&first, &second)
        }
    }
}

/// What acts at a station in a certified case.
fn action_in_case(
    m: &Model,
    b: &Built,
    forces: &[Option<Sequence<Iv>>],
    case: CaseId,
    s: &Station,
) -> Result<[Iv; 6], IvFault>
    requires structure { IsStructureOf m.now b.now }
    requires case { case.0 < length m.now.cases }
    requires forces { AreForcesOf m.now b.now forces.now }
    requires certified { is_certified forces.now case.0 ≡ true }
    requires station { IsStationOf m.now s.now }
    ensures value { result ≡ action_of m.now case.0 b.now (forces_in forces.now case.0) (place s.now.element s.now.end) }
    ensures holds { IfOk result (λ f. HoldForcesAlways m.now case.0 (forces_in forces.now case.0) →
        InCase m.now case.0 (place s.now.element s.now.end) (EnclosesAction f)) }
{
    action(m, case, b, forces_in(forces, case), s)
}

/// The forces of all members in a case; none where it is not certified.
fn forces_in(forces: &[Option<Sequence<Iv>>], case: CaseId) -> &[Iv]
    requires { case.0 < length forces.now }
    ensures { result.now ≡ forces_in forces.now case.0 }
{
    match &forces[case.0 as usize] {
        Some(forces) => forces.as_slice(),
        None => &[],
    }
}

/// What acts at a station by the forces of all members: what the members of its element hold there, less the load of the element's
/// weight.
fn action(
    m: &Model,
    case: CaseId,
    b: &Built,
    forces: &[Iv],
    s: &Station,
) -> Result<[Iv; 6], IvFault>
    requires structure { IsStructureOf m.now b.now }
    requires case { case.0 < length m.now.cases }
    requires one_force_each { length forces.now ≡ length b.now.members }
    requires station { IsStationOf m.now s.now }
    ensures value { result ≡ action_of m.now case.0 b.now forces.now (place s.now.element s.now.end) }
    ensures holds { IfOk result (λ f. HoldForcesAlways m.now case.0 forces.now →
        InCase m.now case.0 (place s.now.element s.now.end) (EnclosesAction f)) }
{
    let held = all_held(m, b, forces, s)?;
    difference(&held, &end_load(m, case, ElementId(s.element), s.end))
}

/// By how much one force and moment are more than others, part by part.
fn difference(first: &[Iv; 6], second: &[Iv; 6]) -> Result<[Iv; 6], IvFault>
    ensures value { result ≡ action_range_of first.now second.now }
    ensures within { IfOk result (λ f. (x y : ℕ → Fraction) → EncloseParts first.now x → EncloseParts second.now y → EnclosesAction f (exact_range x y)) }
{
    let [fx, fy, fz, mx, my, mz] = *first;
    let [less_fx, less_fy, less_fz, less_mx, less_my, less_mz] = *second;
    Ok([
        sub(fx, less_fx)?,
        sub(fy, less_fy)?,
        sub(fz, less_fz)?,
        sub(mx, less_mx)?,
        sub(my, less_my)?,
        sub(mz, less_mz)?,
    ])
}

/// What the members of a station's element hold at its end: a force and a moment.
fn all_held(m: &Model, b: &Built, forces: &[Iv], s: &Station) -> Result<[Iv; 6], IvFault>
    requires structure { IsStructureOf m.now b.now }
    requires one_force_each { length forces.now ≡ length b.now.members }
    requires station { IsStationOf m.now s.now }
    ensures value { result ≡ six (held_of m.now b.now forces.now (place s.now.element s.now.end)) }
    ensures within { IfOk result (λ f. (laws : List Law) (r : Realisation) (u : Vector) → IsStiffnessOf b.now laws r.stiffness → HoldForces r u forces.now →
        EncloseParts f (λ freedom. pull_fraction r.stiffness.denominator (exact_hold m.now r u (place s.now.element s.now.end) freedom))) }
{
    Ok([
        held(m, b, forces, s, 0)?,
        held(m, b, forces, s, 1)?,
        held(m, b, forces, s, 2)?,
        held(m, b, forces, s, 3)?,
        held(m, b, forces, s, 4)?,
        held(m, b, forces, s, 5)?,
    ])
}

/// What they hold in one freedom.
fn held(m: &Model, b: &Built, forces: &[Iv], s: &Station, freedom: u32) -> Result<Iv, IvFault>
    requires structure { IsStructureOf m.now b.now }
    requires one_force_each { length forces.now ≡ length b.now.members }
    requires station { IsStationOf m.now s.now }
    requires freedom { freedom < 6 }
    ensures value { result ≡ held_of m.now b.now forces.now (place s.now.element s.now.end) freedom }
    ensures within { IfOk result (λ e. (laws : List Law) (r : Realisation) (u : Vector) → IsStiffnessOf b.now laws r.stiffness → HoldForces r u forces.now →
        Within e (pull_fraction r.stiffness.denominator (exact_hold m.now r u (place s.now.element s.now.end) freedom))) }
{
    structure::models_have_their_members();
    sum_held(b, forces, s.first, s.count, row_at(m, s, freedom))
}

/// The row of a freedom of the node at a station.
fn row_at(m: &Model, s: &Station, freedom: u32) -> u32
    requires station { s.now.element < length m.now.elements }
    requires freedom { freedom < 6 }
    ensures { result ≡ row_at m.now (place s.now.element s.now.end) freedom }
{
    // What every model keeps: not many nodes.
    let _nodes = m.nodes();
    let node = node_at(m.element(ElementId(s.element)), s.end);
    6 * node.0 + freedom
}

/// The node at an end of an element, `to` where `at_to`.
pub(crate) fn node_at(element: &Element, at_to: bool) -> NodeId
    ensures { result.0 ≡ node_at element.now at_to }
{
    if at_to { element.to } else { element.from }
}

/// What so many members from `first` on hold on a row, by their forces.
fn sum_held(b: &Built, forces: &[Iv], first: u32, count: u32, row: u32) -> Result<Iv, IvFault>
    requires members { first + count ≤ length b.now.members }
    requires few { length b.now.members ≤ 2 ^ 32 }
    requires one_force_each { length forces.now ≡ length b.now.members }
    ensures value { result ≡ sum_held b.now forces.now first count row }
    ensures within { IfOk result (λ e. (laws : List Law) (r : Realisation) (u : Vector) → IsStiffnessOf b.now laws r.stiffness → HoldForces r u forces.now →
        Within e (pull_fraction r.stiffness.denominator (exact_held r u first count row))) }
{
    let members = b.members.as_slice();
    let mut total = point(0);
    for part in 0..count {
        let number = (first + part) as usize;
        total = with_member(&members[number], forces[number], row, total)?;
    }
    Ok(total)
}

/// What is held on a row with one member more, by its force.
fn with_member(member: &Member, force: Iv, row: u32, total: Iv) -> Result<Iv, IvFault>
    ensures value { result ≡ and_then (mul_of (shape_at member.now row) force 56) (add_of total) }
    ensures within { IfOk result (λ e. (q weight exact before : ℤ) → pos 0 <ℤ q → Within (shape_at member.now row) (fraction weight q) →
        Within force (force_fraction q exact) → Within total (pull_fraction q before) → Within e (pull_fraction q (before +ℤ (weight *ℤ exact)))) }
{
    add(total, mul(shape(member, row), force, 56)?)
}
