//! The law of each member of a model in a case.
ghost use Rattle.std.specs.Prelude.{◌≡◌, ◌<◌, ◌+◌, ◌++◌, ℕ, length, IfOk, OnOk};
ghost use Rattle.std.specs.List.{flat_map, range_with_len};
ghost use Rattle.flex_interval.specs.Fraction.{Within};
ghost use Rattle.member_set.specs.Members.{start_of};
ghost use Rattle.model_types.specs.Ranges.{KindInForm};
ghost use Rattle.restraint_law.specs.States.{case_law, exact_start};
ghost use Rattle.structure.specs.Restraints.{restraint_at};
ghost use Rattle.model_types.specs.MemberCounts.{restraint_member_count};
ghost use Rattle.load_vectors.specs.Cases.{move_of};
ghost use Rattle.load_vectors.specs.Laws.{axial_member, law_along, laws_along, laws_of, restraint_laws, EncloseStarts, LawsHoldNumbers, LawsSuitModels};

use crate::changes::move_of;
use crate::elements::deltas;
use flex_interval::{Iv, point};
use member_set::Law;
use model_types::{CaseId, Model, NoMemory, Shape};
use restraint_law::law;
use std::alloc::{AllocError, Global};

/// The law of each member of a model in a case: of its elements in order, then of its restraints in order. Only the member along the
/// axis of an element has an initial deformation, and only an anchor can be moved.
pub fn laws(alloc: Global, m: &Model, case: CaseId) -> Result<Vec<Law>, NoMemory>
    requires { case.0 < length m.now.cases }
    ensures value { IfOk result (λ laws. laws.items ≡ laws_of m.now case.0) }
    ensures encloses { IfOk result (λ _. EncloseStarts m.now case.0) }
{
    let deltas = deltas(alloc, m, case)?;
    let elements = m.elements();
    let mut laws = Vec::new(alloc);
    for number in 0..elements.len() {
        push_element_laws(&mut laws, &elements[number].shape, deltas[number])?;
    }
    push_restraint_laws(m, case, &mut laws)?;
    Ok(laws)
}

/// Appends the laws of an element's members.
fn push_element_laws(laws: &mut Vec<Law>, shape: &Shape, delta: Iv) -> Result<(), AllocError>
    ensures { OnOk result (laws.new.items ≡ laws.old.items ++ laws_along shape.now delta) }
{
    for part in 0..shape.member_count() {
        laws.push(law_along(shape, delta, part))?;
    }
    Ok(())
}

/// The law of an element's member: an initial deformation along its axis, and none of the others.
fn law_along(shape: &Shape, delta: Iv, part: usize) -> Law
    ensures { result ≡ law_along shape.now delta part }
{
    let offset = if part == axial_member(shape) {
        delta
    } else {
        point(0)
    };
    Law::Linear { offset }
}

/// The member along the axis of an element: the first of a straight, and the third of a bend.
fn axial_member(shape: &Shape) -> usize
    ensures { result ≡ axial_member shape.now }
{
    match shape {
        Shape::Straight => 0,
        Shape::Bend { .. } => 2,
    }
}

/// Appends the laws of the members of all restraints.
fn push_restraint_laws(m: &Model, case: CaseId, laws: &mut Vec<Law>) -> Result<(), AllocError>
    ensures value { OnOk result (laws.new.items ≡ laws.old.items ++ flat_map (restraint_laws m.now case.0) (range_with_len 0 (length m.now.restraints))) }
    ensures encloses { OnOk result ((n part : ℕ) → n < length m.now.restraints → part < restraint_member_count (restraint_at m.now n).kind →
        Within (start_of (case_law (restraint_at m.now n).kind (move_of m.now case.0 n) part)) (exact_start (restraint_at m.now n).kind (move_of m.now case.0 n) part)) }
{
    for number in 0..m.restraints().len() {
        push_laws(m, case, number, laws)?;
    }
    Ok(())
}

/// Appends the laws of a restraint's members.
fn push_laws(m: &Model, case: CaseId, number: usize, laws: &mut Vec<Law>) -> Result<(), AllocError>
    requires { number < length m.now.restraints }
    ensures value { OnOk result (laws.new.items ≡ laws.old.items ++ restraint_laws m.now case.0 number) }
    ensures encloses { OnOk result ((part : ℕ) → part < restraint_member_count (restraint_at m.now number).kind →
        Within (start_of (case_law (restraint_at m.now number).kind (move_of m.now case.0 number) part)) (exact_start (restraint_at m.now number).kind (move_of m.now case.0 number) part)) }
{
    let r = &m.restraints()[number];
    let moved = move_of(m, case, number as u32);
    for part in 0..r.kind.member_count() as u32 {
        laws.push(law(r, part, moved))?;
    }
    Ok(())
}

/// The laws of a case are one for each member, and hold one way just where the model's restraints do.
pub fn laws_suit_models()
    ensures { LawsSuitModels }
{}

/// The initial deformation, movement or gap of each law of a case has an interval that holds a number.
pub fn laws_hold_numbers()
    ensures { LawsHoldNumbers }
{}
