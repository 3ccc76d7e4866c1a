ghost use Rattle.std.specs.Prelude.{◌≡◌, ◌<◌, ℕ, length, [], ◌∷◌, replicate, All, IfOk, OnOk};
ghost use Rattle.lists.specs.Rising.{IsRising};
ghost use Rattle.lists.specs.Lists.{contents, list_of, ListsNumber, ListsInAll, LinksLists};

use crate::rising::insert_rising;
use std::alloc::{AllocError, Global};

/// So many empty lists.
pub fn empty_lists(alloc: Global, count: usize) -> Result<Vec<Vec<u32>>, AllocError>
    ensures { IfOk result (λ lists. contents lists.items ≡ replicate count []) }
{
    let mut lists = Vec::with_capacity(alloc, count)?;
    for _list in 0..count {
        lists.push(Vec::new(alloc))?;
    }
    Ok(lists)
}

/// Puts a number into one of some rising lists.
pub fn list_number(lists: &mut [Vec<u32>], n: u32, k: u32) -> Result<(), AllocError>
    requires in_range { n < length lists.old }
    requires rising { (a : ℕ) → IsRising (list_of (contents lists.old) a) }
    ensures { OnOk result (ListsNumber (contents lists.old) (contents lists.new) n k) }
{
    insert_rising(&mut lists[n as usize], k)
}

/// Puts a number into those of some rising lists that are named.
pub fn list_in_all(lists: &mut [Vec<u32>], named: &[u32], number: u32) -> Result<(), AllocError>
    requires in_range { All (λ q. q < length lists.old) named.now }
    requires rising { (q : ℕ) → IsRising (list_of (contents lists.old) q) }
    ensures { OnOk result (ListsInAll (contents lists.old) (contents lists.new) named.now number) }
{
    for &list in named {
        list_number(lists, list, number)?;
    }
    Ok(())
}

/// Puts the numbers of each pair into each other's rising lists.
pub fn link_pairs(lists: &mut [Vec<u32>], pairs: &[(u32, u32)]) -> Result<(), AllocError>
    requires in_range { All (λ p. (p.0 < length lists.old) × (p.1 < length lists.old)) pairs.now }
    requires rising { (n : ℕ) → IsRising (list_of (contents lists.old) n) }
    ensures { OnOk result (LinksLists (contents lists.old) (contents lists.new) pairs.now) }
{
    for &(n, k) in pairs {
        link(lists, n, k)?;
    }
    Ok(())
}

// Puts two numbers into each other's lists.
fn link(lists: &mut [Vec<u32>], n: u32, k: u32) -> Result<(), AllocError>
    requires n_in_range { n < length lists.old }
    requires k_in_range { k < length lists.old }
    requires rising { (a : ℕ) → IsRising (list_of (contents lists.old) a) }
    ensures { OnOk result (LinksLists (contents lists.old) (contents lists.new) ((n, k) ∷ [])) }
{
    list_number(lists, n, k)?;
    list_number(lists, k, n)
}
