ghost use Rattle.std.specs.Prelude.{◌≡◌, [], length, slice_index, IfOk};
ghost use Rattle.lists.specs.Lists.{contents, list_of};
ghost use Rattle.elimination.specs.Elimination.{AreParents};
ghost use Rattle.elim_tree.specs.Fronts.{IsAssemblyTree, AreChildren, parent_in, parents_in, front_rows, entries_of};
ghost use Rattle.elim_tree.specs.Parts.{fronts_of};

use crate::parts::{children_of, parents_of, rows_of};
use lists::Permutation;
use std::alloc::{AllocError, Global};
use std::marker::Model;

/// An assembly tree: a front for each node of an order, numbered by the node's place there. Contracts see the order and the
/// later places of each front, the places of its other nodes. Readers answer 0, None or nothing past the last front.
#[derive(Drop)]
pub struct Tree {
    order: Permutation,
    later: Vec<Vec<u32>>,
    parents: Vec<Option<u32>>,
    rows: Vec<Vec<u32>>,
    children: Vec<Vec<u32>>,
    entries: u32,
}

impl Model for Tree {
    ghost use Rattle.lists.specs.Lists.{contents};
    ghost use Rattle.elim_tree.specs.Fronts.{Fronts};
    ghost use Rattle.elim_tree.specs.Parts.{fronts_of, HasParts};

    ghost Value = { Fronts };

    ghost view = { λ t. fronts_of t.order (contents t.later.items) };

    ghost invariant = { λ t. HasParts (fronts_of t.order (contents t.later.items)) t.parents.items (contents t.rows.items) (contents t.children.items) t.entries };
}

impl Tree {
    // The tree of an order and its later places, of so many entries.
    pub(crate) fn of_later(
        alloc: Global,
        order: Permutation,
        later: Vec<Vec<u32>>,
        entries: u32,
    ) -> Result<Tree, AllocError>
        requires tree { IsAssemblyTree (fronts_of order (contents later.items)) }
        requires entries { entries ≡ entries_of (contents later.items) }
        ensures { IfOk result (λ t. t ≡ fronts_of order (contents later.items)) }
    {
        let parents = parents_of(alloc, &later)?;
        let rows = rows_of(alloc, &later)?;
        let children = children_of(alloc, &parents)?;
        Ok(Tree {
            order,
            later,
            parents,
            rows,
            children,
            entries,
        })
    }

    /// How many fronts: one for each node.
    pub fn len(&self) -> u32
        ensures { result ≡ length self.now.order }
    {
        self.order.len() as u32
    }

    /// The node of a front.
    pub fn node(&self, f: u32) -> u32
        ensures { result ≡ slice_index self.now.order f }
    {
        match self.order.numbers().get(f as usize) {
            Some(&node) => node,
            None => 0,
        }
    }

    /// The nodes, each at its front's number.
    pub fn order(&self) -> &[u32]
        ensures { result.now ≡ self.now.order }
    {
        self.order.numbers()
    }

    /// The later places of a front, rising.
    pub fn later(&self, f: u32) -> &[u32]
        ensures value { result.now ≡ list_of self.now.later f }
        ensures kept { IsAssemblyTree self.now }
    {
        list_at(&self.later, f)
    }

    /// The parent of a front, the first of its later places; a root has none.
    pub fn parent(&self, f: u32) -> Option<u32>
        ensures value { result ≡ parent_in self.now f }
        ensures kept { IsAssemblyTree self.now }
    {
        self.later(f).first().copied()
    }

    /// The parents of all fronts, which are those of the nodes at their places.
    pub fn node_parents(&self) -> &[Option<u32>]
        ensures value { result.now ≡ parents_in self.now }
        ensures later { AreParents result.now (length self.now.order) }
    {
        &self.parents
    }

    /// The fronts whose parent is this one, rising.
    pub fn children(&self, f: u32) -> &[u32]
        ensures { AreChildren self.now f result.now }
    {
        list_at(&self.children, f)
    }

    /// The elimination positions of a front's rows: six for its own place, then six for each later place.
    pub fn rows(&self, f: u32) -> &[u32]
        ensures { result.now ≡ list_of (front_rows self.now) f }
    {
        list_at(&self.rows, f)
    }

    /// The entries of all fronts, as squares of their numbers of rows.
    pub fn entries(&self) -> u32
        ensures { result ≡ entries_of self.now.later }
    {
        self.entries
    }
}

// One of some lists; past the end nothing.
fn list_at(lists: &[Vec<u32>], n: u32) -> &[u32]
    ensures { result.now ≡ list_of (contents lists.now) n }
{
    match lists.get(n as usize) {
        Some(list) => list.as_slice(),
        None => &[],
    }
}
