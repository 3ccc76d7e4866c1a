ghost use Rattle.std.specs.Prelude.{◌≡◌, ℕ, ◌<◌, ◌≢◌, length, slice_get, slice_index, All, Contains, OnOk};
ghost use Rattle.lists.specs.Rising.{IsRising};
ghost use Rattle.lists.specs.Lists.{contents, list_of};
ghost use Rattle.elim_tree.specs.Tree.{AreLater};
ghost use Rattle.elim_tree.specs.Parts.{ListsHigher, AreHigher, higher, HandsTo};

use lists::{insert_later, list_number};
use std::alloc::{AllocError, Global};
use std::mem;

// Puts the places of each pair's nodes into the lists: the higher into that of the lower.
pub fn list_higher(
    lists: &mut [Vec<u32>],
    places: &[u32],
    pairs: &[(u32, u32)],
) -> Result<(), AllocError>
    requires places { All (λ p. p < length lists.old) places.now }
    requires in_range { All (λ p. (p.0 < length places.now) × (p.1 < length places.now)) pairs.now }
    requires apart { All (λ p. slice_index places.now p.0 ≢ slice_index places.now p.1) pairs.now }
    requires rising { (p : ℕ) → IsRising (list_of (contents lists.old) p) }
    ensures { OnOk result (ListsHigher pairs.now places.now (contents lists.old) (contents lists.new)) }
{
    for &(n, k) in pairs {
        let p = places[n as usize];
        let q = places[k as usize];
        list_number(lists, p.min(q), p.max(q))?;
    }
    Ok(())
}

// From the higher places that are linked with each place to its later neighbours: each place hands its own, above the
// first, to the first.
pub fn hand_up(alloc: Global, lists: &mut [Vec<u32>]) -> Result<(), AllocError>
    requires { AreHigher (contents lists.old) }
    ensures { OnOk result (AreLater (higher (contents lists.old)) (length lists.old) (contents lists.new)) }
{
    for place in 0..lists.len() {
        let own = mem::replace(&mut lists[place], Vec::new(alloc));
        hand_to_first(lists, &own)?;
        lists[place] = own;
    }
    Ok(())
}

// Hands a list to the list that its first number names.
fn hand_to_first(lists: &mut [Vec<u32>], own: &[u32]) -> Result<(), AllocError>
    requires in_range { (q : ℕ) → Contains own.now q → q < length lists.old }
    requires rising { (q : ℕ) → IsRising (list_of (contents lists.old) q) }
    ensures { OnOk result (HandsTo (slice_get own.now 0) own.now (contents lists.old) (contents lists.new)) }
{
    match first_of(own) {
        Some(first) => insert_later(&mut lists[first as usize], own, first),
        None => Ok(()),
    }
}

// The first of a list.
pub fn first_of(list: &[u32]) -> Option<u32>
    ensures { result ≡ slice_get list.now 0 }
{
    list.first().copied()
}
