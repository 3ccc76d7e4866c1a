ghost use Rattle.std.specs.Prelude.{◌≡◌, ℕ, ◌<◌, ◌≤◌, ◌↔◌, ◌∷◌, [], length, slice_get, slice_index_or, replicate, None, Some, All, Contains, IfOk, OnOk};
ghost use Rattle.lists.specs.Rising.{IsRising};
ghost use Rattle.lists.specs.Lists.{contents, list_of};
ghost use Rattle.lists.specs.Listed.{listed};
ghost use Rattle.elim_tree.specs.Fronts.{rows_at, front_entries, entries_of};
ghost use Rattle.elim_tree.specs.Parts.{ListsChildren};

use crate::later::first_of;
use lists::{empty_lists, list_number};
use std::alloc::{AllocError, Global};

// The first of each front's later places.
pub fn parents_of(alloc: Global, later: &[Vec<u32>]) -> Result<Vec<Option<u32>>, AllocError>
    ensures { IfOk result (λ parents. parents.items ≡ listed (length later.now) (λ f. slice_get (list_of (contents later.now) f) 0)) }
{
    let mut parents = Vec::with_capacity(alloc, later.len())?;
    for front in 0..later.len() {
        parents.push(first_of(&later[front]))?;
    }
    Ok(parents)
}

// The rows of each front.
pub fn rows_of(alloc: Global, later: &[Vec<u32>]) -> Result<Vec<Vec<u32>>, AllocError>
    requires few { length later.now ≤ 8000 }
    requires small { (f q : ℕ) → Contains (list_of (contents later.now) f) q → q < 8000 }
    requires narrow { (f : ℕ) → length (list_of (contents later.now) f) ≤ 31 }
    ensures { IfOk result (λ rows. contents rows.items ≡ listed (length later.now) (λ f. rows_at (f ∷ list_of (contents later.now) f))) }
{
    let mut rows = Vec::with_capacity(alloc, later.len())?;
    for front in 0..later.len() {
        rows.push(rows_with(alloc, front as u32, &later[front])?)?;
    }
    Ok(rows)
}

// The rows of a front, by its place and its later places.
fn rows_with(alloc: Global, place: u32, later: &[u32]) -> Result<Vec<u32>, AllocError>
    requires own { place < 8000 }
    requires small { All (λ q. q < 8000) later.now }
    requires narrow { length later.now ≤ 31 }
    ensures { IfOk result (λ rows. rows.items ≡ rows_at (place ∷ later.now)) }
{
    let mut rows = Vec::with_capacity(alloc, 6 * (later.len() + 1))?;
    for row in 0..6 * (later.len() + 1) {
        rows.push(6 * place_at(place, later, row / 6) + (row % 6) as u32)?;
    }
    Ok(rows)
}

fn place_at(place: u32, later: &[u32], i: usize) -> u32
    requires { i ≤ length later.now }
    ensures { result ≡ slice_index_or (place ∷ later.now) i 0 }
{
    if i == 0 { place } else { later[i - 1] }
}

// The fronts of each parent.
pub fn children_of(alloc: Global, parents: &[Option<u32>]) -> Result<Vec<Vec<u32>>, AllocError>
    requires few { length parents.now ≤ 8000 }
    requires in_range { (c f : ℕ) → slice_index_or parents.now c None ≡ Some f → f < length parents.now }
    ensures { IfOk result (λ children. ListsChildren parents.now (length parents.now) (contents children.items)) }
{
    let mut children = empty_lists(alloc, parents.len())?;
    list_children(&mut children, parents)?;
    Ok(children)
}

// Puts each front into the list of its parent.
fn list_children(children: &mut [Vec<u32>], parents: &[Option<u32>]) -> Result<(), AllocError>
    requires few { length parents.now ≤ 8000 }
    requires empty { contents children.old ≡ replicate (length parents.now) [] }
    requires in_range { (c f : ℕ) → slice_index_or parents.now c None ≡ Some f → f < length parents.now }
    ensures { OnOk result (ListsChildren parents.now (length parents.now) (contents children.new)) }
{
    for child in 0..parents.len() {
        if let Some(parent) = parents[child] {
            list_number(children, parent, child as u32)?;
        }
    }
    Ok(())
}

// The entries of a tree.
pub fn entries_in(later: &[Vec<u32>]) -> u32
    requires few { length later.now ≤ 8000 }
    requires narrow { (f : ℕ) → length (list_of (contents later.now) f) ≤ 31 }
    ensures { result ≡ entries_of (contents later.now) }
{
    let mut entries = 0;
    for places in later {
        entries += entries_with(places.len() as u32);
    }
    entries
}

fn entries_with(later: u32) -> u32
    requires { later ≤ 31 }
    ensures value { result ≡ front_entries later }
    ensures small { result ≤ 36864 }
{
    let rows = 6 * (later + 1);
    rows * rows
}
