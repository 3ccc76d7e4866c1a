ghost use Rattle.std.specs.Prelude.{◌≡◌, ◌+◌, ◌*◌, ◌<◌, ◌≤◌, ◌++◌, ◌^◌, length, replicate, IfOk, OnOk, All};
ghost use Rattle.std.specs.List.{flat_map};
ghost use Rattle.model_types.specs.MemberCounts.{restraint_member_count};
ghost use Rattle.model_types.specs.Ranges.{KindInForm};
ghost use Rattle.restraint_law.specs.Restraints.{restraint_members};
ghost use Rattle.restraint_law.specs.States.{state_numbers};
ghost use Rattle.structure.specs.Enclosure.{HoldsRestraint};
ghost use Rattle.structure.specs.Restraints.{unilateral_of};

use crate::elements::element_member_count;
use member_set::Member;
use model_types::{Model, Restraint};
use restraint_law::{restraint, state_count};
use std::alloc::{AllocError, Global};

/// Appends the members of restraints, in order.
pub fn push_restraints(
    alloc: Global,
    members: &mut Vec<Member>,
    restraints: &[Restraint],
) -> Result<(), AllocError>
    requires { All (λ r. KindInForm r.kind) restraints.now }
    ensures value { OnOk result (members.new.items ≡ members.old.items ++ flat_map restraint_members restraints.now) }
    ensures holds { OnOk result (All HoldsRestraint restraints.now) }
{
    for r in restraints {
        push_restraint(alloc, members, r)?;
    }
    Ok(())
}

fn push_restraint(alloc: Global, members: &mut Vec<Member>, r: &Restraint) -> Result<(), AllocError>
    requires { KindInForm r.now.kind }
    ensures value { OnOk result (members.new.items ≡ members.old.items ++ restraint_members r.now) }
    ensures holds { OnOk result (HoldsRestraint r.now) }
{
    let own = restraint(alloc, r)?;
    members.extend_from_slice(&own)
}

/// The number of each restraint's member, as often as it has states.
pub fn unilateral(alloc: Global, m: &Model) -> Result<Vec<u32>, AllocError>
    ensures { IfOk result (λ numbers. numbers.items ≡ unilateral_of m.now) }
{
    let restraints = m.restraints();
    let mut numbers = Vec::new(alloc);
    let mut first = element_member_count(m) as u32;
    for number in 0..restraints.len() {
        let r = &restraints[number];
        push_state_numbers(&mut numbers, r, first)?;
        first += r.kind.member_count() as u32;
    }
    Ok(numbers)
}

/// Appends the numbers of a restraint's members, the first of which is `first`, each as often as it has states.
fn push_state_numbers(numbers: &mut Vec<u32>, r: &Restraint, first: u32) -> Result<(), AllocError>
    requires { first + 6 < 2 ^ 32 }
    ensures { OnOk result (numbers.new.items ≡ numbers.old.items ++ state_numbers first r.now.kind) }
{
    for part in 0..r.kind.member_count() as u32 {
        push_repeated(numbers, first + part, state_count(r, part))?;
    }
    Ok(())
}

/// Appends a number so many times.
fn push_repeated(numbers: &mut Vec<u32>, number: u32, count: u32) -> Result<(), AllocError>
    ensures { OnOk result (numbers.new.items ≡ numbers.old.items ++ replicate count number) }
{
    for _step in 0..count {
        numbers.push(number)?;
    }
    Ok(())
}
