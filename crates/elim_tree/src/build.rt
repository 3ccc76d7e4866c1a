ghost use Rattle.std.specs.Prelude.{◌≡◌, ◌≢◌, ◌<◌, ◌≤◌, [], length, replicate, All, IfOk, OnOk, MatchResult};
ghost use Rattle.lists.specs.Lists.{contents};
ghost use Rattle.lists.specs.Order.{IsOrder};
ghost use Rattle.elim_order.specs.Graph.{links};
ghost use Rattle.elim_order.specs.Order.{IsEliminationOrder};
ghost use Rattle.elim_tree.specs.Tree.{placed, AreLater, IsTreeOf, IsTreeFault};

use crate::fault::TreeFault;
use crate::fronts::Tree;
use crate::later::{hand_up, list_higher};
use crate::parts::entries_in;
use lists::{Permutation, empty_lists};
use std::alloc::{AllocError, Global};

// The most entries that a tree may have.
const ENTRIES: u32 = 33_554_432;

/// The assembly tree of the order that `elim_order::order` answers for these pairs. Entries comes where the tree would have
/// over 33,554,432 entries.
pub fn tree(alloc: Global, order: &[u32], pairs: &[(u32, u32)]) -> Result<Tree, TreeFault>
    requires few { length order.now ≤ 8000 }
    requires in_range { All (λ p. (p.0 < length order.now) × (p.1 < length order.now)) pairs.now }
    requires apart { All (λ p. p.0 ≢ p.1) pairs.now }
    requires order { IsEliminationOrder (length order.now) (links pairs.now) order.now }
    requires permutation { IsOrder order.now }
    ensures { MatchResult result
        (IsTreeOf (placed (links pairs.now) order.now) order.now)
        (IsTreeFault (placed (links pairs.now) order.now) (length order.now)) }
{
    let order = Permutation::new(alloc, Vec::from_slice(alloc, order)?)?;
    let later = later_places(alloc, &order, pairs)?;
    let entries = entries_in(&later);
    if entries > ENTRIES {
        return Err(TreeFault::Entries);
    }
    Ok(Tree::of_later(alloc, order, later, entries)?)
}

// The later neighbours of each place of an order.
fn later_places(
    alloc: Global,
    order: &Permutation,
    pairs: &[(u32, u32)],
) -> Result<Vec<Vec<u32>>, AllocError>
    requires order { IsOrder order.now }
    requires in_range { All (λ p. (p.0 < length order.now) × (p.1 < length order.now)) pairs.now }
    requires apart { All (λ p. p.0 ≢ p.1) pairs.now }
    ensures { IfOk result (λ later. AreLater (placed (links pairs.now) order.now) (length order.now) (contents later.items)) }
{
    let mut later = empty_lists(alloc, order.len())?;
    fill_later(alloc, order, pairs, &mut later)?;
    Ok(later)
}

// The same, into empty lists.
fn fill_later(
    alloc: Global,
    order: &Permutation,
    pairs: &[(u32, u32)],
    later: &mut [Vec<u32>],
) -> Result<(), AllocError>
    requires order { IsOrder order.now }
    requires in_range { All (λ p. (p.0 < length order.now) × (p.1 < length order.now)) pairs.now }
    requires apart { All (λ p. p.0 ≢ p.1) pairs.now }
    requires empty { contents later.old ≡ replicate (length order.now) [] }
    ensures { OnOk result (AreLater (placed (links pairs.now) order.now) (length order.now) (contents later.new)) }
{
    list_higher(later, order.places(), pairs)?;
    hand_up(alloc, later)
}
