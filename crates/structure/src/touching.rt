ghost use Rattle.std.specs.Prelude.{◌≡◌, ℕ, ◌^◌, ◌<◌, ◌≤◌, All, IfOk, OnOk, length, replicate, []};
ghost use Rattle.lists.specs.Rising.{IsRising};
ghost use Rattle.lists.specs.Lists.{contents, list_of};
ghost use Rattle.structure.specs.Touching.{ListsTouching, ListsMember};

use lists::{Sequence, empty_lists, list_number};
use member_set::Member;
use std::alloc::{AllocError, Global};

/// For each of some nodes the numbers of the members that touch it, rising.
pub fn touching(
    alloc: Global,
    members: &[Member],
    nodes: usize,
) -> Result<Vec<Sequence<u32>>, AllocError>
    requires few { length members.now ≤ 2 ^ 32 }
    requires in_range { All (λ m. (m.n1 < nodes) × (m.n2 < nodes)) members.now }
    ensures count { IfOk result (λ lists. length lists.items ≡ nodes) }
    ensures lists { IfOk result (λ lists. ListsTouching members.now (length members.now) lists.items) }
{
    let mut lists = empty_lists(alloc, nodes)?;
    list_members(&mut lists, members)?;
    sequences(alloc, lists)
}

// Puts the number of each member into the lists of its nodes.
fn list_members(lists: &mut [Vec<u32>], members: &[Member]) -> Result<(), AllocError>
    requires few { length members.now ≤ 2 ^ 32 }
    requires in_range { All (λ m. (m.n1 < length lists.old) × (m.n2 < length lists.old)) members.now }
    requires empty { contents lists.old ≡ replicate (length lists.old) [] }
    ensures count { length lists.new ≡ length lists.old }
    ensures lists { OnOk result (ListsTouching members.now (length members.now) (contents lists.new)) }
{
    for number in 0..members.len() {
        list_member(lists, &members[number], number as u32)?;
    }
    Ok(())
}

// Puts the number of a member into the lists of its nodes.
fn list_member(lists: &mut [Vec<u32>], member: &Member, number: u32) -> Result<(), AllocError>
    requires first_node { member.now.n1 < length lists.old }
    requires second_node { member.now.n2 < length lists.old }
    requires rising { (node : ℕ) → IsRising (list_of (contents lists.old) node) }
    ensures { OnOk result (ListsMember (contents lists.old) (contents lists.new) member.now number) }
{
    list_number(lists, member.n1, number)?;
    list_number(lists, member.n2, number)
}

fn sequences(alloc: Global, lists: Vec<Vec<u32>>) -> Result<Vec<Sequence<u32>>, AllocError>
    ensures { IfOk result (λ sequences. sequences.items ≡ contents lists.items) }
{
    let mut sequences = Vec::with_capacity(alloc, lists.len())?;
    for list in lists {
        sequences.push(Sequence::new(list))?;
    }
    Ok(sequences)
}
