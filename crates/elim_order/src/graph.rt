ghost use Rattle.std.specs.Prelude.{◌≡◌, ◌≢◌, ℕ, ◌<◌, ◌≤◌, length, slice_index, Contains, ◌↔◌, IfOk, OnOk, IsTrue, IsFalse};
ghost use Rattle.lists.specs.Rising.{IsRising};
ghost use Rattle.lists.specs.Lists.{contents, list_of};
ghost use Rattle.elim_order.specs.Graph.{eliminated};
ghost use Rattle.elim_order.specs.State.{AreNeighbourLists, told, IsGraph, TakesFront, InsertsUpTo};

use std::alloc::{AllocError, Global};
use std::mem;

// Eliminates a node, and answers its neighbours, which become neighbours of each other.
pub fn eliminate(
    alloc: Global,
    neighbours: &mut [Vec<u32>],
    node: u32,
) -> Result<Vec<u32>, AllocError>
    requires node { node < length neighbours.old }
    requires graph { IsGraph (contents neighbours.old) }
    ensures lists { OnOk result (AreNeighbourLists (contents neighbours.new) (eliminated (told (contents neighbours.old)) node)) }
    ensures front { IfOk result (λ front. front.items ≡ list_of (contents neighbours.old) node) }
{
    let front = mem::replace(&mut neighbours[node as usize], Vec::new(alloc));
    for &own in &front {
        join(&mut neighbours[own as usize], &front, node, own)?;
    }
    Ok(front)
}

// Takes one node out of a rising list, and puts in those of a rising front, but for the list's own.
fn join(list: &mut Vec<u32>, front: &[u32], gone: u32, own: u32) -> Result<(), AllocError>
    requires list { IsRising list.old.items }
    requires front { IsRising front.now }
    ensures { OnOk result (TakesFront list.old.items list.new.items front.now gone own) }
{
    remove_rising(list, gone);
    let mut place = 0;
    for &node in front {
        if node != own {
            place = insert_from(list, place, node)?;
        }
    }
    Ok(())
}

// Puts a number into a rising list, where it is not there already, and answers the place past it. Those before `from` are
// less.
fn insert_from(list: &mut Vec<u32>, from: usize, number: u32) -> Result<usize, AllocError>
    requires rising { IsRising list.old.items }
    requires within { from ≤ length list.old.items }
    requires below { (k : ℕ) → k < from → slice_index list.old.items k < number }
    ensures { IfOk result (λ past. InsertsUpTo list.old.items list.new.items number past) }
{
    let place = place_from(list, from, number);
    if !stands_at(list, place, number) {
        list.insert(place, number)?;
    }
    Ok(place + 1)
}

// The first place whose number is not less; the length where there is none. Those before `from` are less.
fn place_from(list: &[u32], from: usize, number: u32) -> usize
    requires rising { IsRising list.now }
    requires within { from ≤ length list.now }
    requires below { (k : ℕ) → k < from → slice_index list.now k < number }
    ensures within { result ≤ length list.now }
    ensures below { (k : ℕ) → k < result → slice_index list.now k < number }
    ensures above { (k : ℕ) → result ≤ k → k < length list.now → number ≤ slice_index list.now k }
{
    for place in from..list.len() {
        if list[place] >= number {
            return place;
        }
    }
    list.len()
}

// Whether a number stands at a place of a list.
fn stands_at(list: &[u32], place: usize, number: u32) -> bool
    ensures yes { IsTrue result → (place < length list.now) × (slice_index list.now place ≡ number) }
    ensures no { IsFalse result → place < length list.now → slice_index list.now place ≢ number }
{
    if place < list.len() {
        list[place] == number
    } else {
        false
    }
}

// Takes a number out of a rising list, where it is there.
fn remove_rising(list: &mut Vec<u32>, number: u32)
    requires { IsRising list.old.items }
    ensures rising { IsRising list.new.items }
    ensures members { (k : ℕ) → Contains list.new.items k ↔ (Contains list.old.items k × (k ≢ number)) }
{
    if let Ok(place) = list.binary_search(&number) {
        list.remove(place);
    }
}
