ghost use Rattle.std.specs.Prelude.{◌≡◌, ◌<◌, ◌∷◌, ℕ, suc, List, length, IfOk};
ghost use Rattle.lists.specs.Lists.{list_of};
ghost use Rattle.elim_tree.specs.Fronts.{Fronts};
ghost use Rattle.cholesky_laws.specs.Fronts.{Front, loaded, added, eliminated, assembled, front_value, IsNextChild, IsComplete};
ghost use Rattle.dense_front.specs.Value.{front_with, blank, value_of};
ghost use Rattle.dense_front.specs.Tree.{nodes_at, tree_fronts, IsLoad, IsSpaceOf};

use crate::columns::{Columns, FrontUpdate};
use crate::eliminate::eliminate_square;
use crate::laws::tree_fronts_are_a_base;
use crate::load::load_own;
use crate::own::OwnBreakdown;
use crate::room::{all_places, nodes_of, zero_columns};
use cholesky_laws::fronts_follow_the_recurrence;
use elim_tree::Tree;
use std::alloc::{AllocError, Global};
use std::marker::Model;
use sym_blocks::SymBlocks;

/// Memory ran out.
pub type NoMemory = AllocError;

/// What eliminating a front gives: its columns and what it gives to its parent, or how it breaks down.
#[derive(Drop)]
pub enum FrontValue {
    Ok {
        columns: Columns,
        update: FrontUpdate,
    },
    Pivot {
        front: u32,
        dof: u32,
    },
    Wide {
        front: u32,
    },
}

/// A front of an assembly tree, with room for its elimination. Contracts see its number, the nodes of its rows, its later
/// places and the lower triangle of its rows, in units of `2^-52` of a stiffness.
#[derive(Drop)]
pub struct FrontSpace {
    front: u32,
    nodes: Vec<u32>,
    // The places of its rows: its own, then the later ones.
    places: Vec<u32>,
    later: Vec<u32>,
    // For each later place of a child, where it stands among the places.
    matched: Vec<u32>,
    // Column after column.
    square: Vec<i128>,
    // The entries of its own columns, by rows of six.
    entries: Vec<i64>,
    // Room for its columns.
    columns: Vec<Vec<i64>>,
}

impl Model for FrontSpace {
    ghost use Rattle.std.specs.Prelude.{◌≡◌, ◌∷◌, ◌*◌, ◌≤◌, length};
    ghost use Rattle.lists.specs.Lists.{contents};
    ghost use Rattle.cholesky_laws.specs.Fronts.{Space};
    ghost use Rattle.dense_front.specs.Square.{triangle_of};
    ghost use Rattle.dense_front.specs.Space.{space_of, IsSpace};

    ghost Value = { Space };

    ghost view = { λ s. space_of s.front s.nodes.items s.later.items s.square.items };

    ghost invariant = { λ s. IsSpace s.front s.nodes.items s.places.items s.later.items s.matched.items s.square.items s.entries.items (contents s.columns.items) };
}

impl FrontSpace {
    /// Room for a front of a tree.
    pub fn new(alloc: Global, t: &Tree, f: u32) -> Result<FrontSpace, NoMemory>
        requires { f < length t.now.order }
        ensures space { IfOk result (λ s. IsSpaceOf t.now s) }
        ensures blank { IfOk result (λ s. s ≡ blank f (nodes_at t.now.order (f ∷ list_of t.now.later f)) (list_of t.now.later f)) }
    {
        fronts_follow_the_recurrence();
        let places = all_places(alloc, f, t.later(f))?;
        let nodes = nodes_of(alloc, t.order(), &places)?;
        let size = 6 * places.len();
        Ok(FrontSpace {
            front: f,
            nodes,
            places,
            later: Vec::from_slice(alloc, t.later(f))?,
            matched: vec![in alloc; 0; 32]?,
            square: vec![in alloc; 0; size * size]?,
            entries: vec![in alloc; 0; 6 * size]?,
            columns: zero_columns(alloc, size)?,
        })
    }

    /// Clears it and assembles the front's own entries of a matrix less a shift, in units of `2^-52` of a stiffness. The
    /// entries are below `2^60` in size, and the shift is from 0 to `2^44`.
    pub fn load(&mut self, k: &SymBlocks, shift: i128)
        requires { IsLoad k.now shift }
        ensures exact { self.new ≡ loaded self.old.front (front_with k.now shift self.old.nodes self.old.later) }
        ensures value { (t : Fronts) → IsSpaceOf t self.old → self.new ≡ assembled (tree_fronts t k.now shift) self.old.front 0 }
    {
        fronts_follow_the_recurrence();
        tree_fronts_are_a_base();
        load_own(&mut self.square, &self.nodes, k, shift);
    }

    /// Adds the update of the next child, the children in rising order of their numbers.
    pub fn add_child(&mut self, update: &FrontUpdate)
        requires { (base : List Front) × (d : ℕ) × IsNextChild base d self.old update.now }
        ensures exact { self.new ≡ added self.old update.now }
        ensures value { (base : List Front) → (d : ℕ) → IsNextChild base d self.old update.now → self.new ≡ assembled base self.old.front (suc d) }
    {
        fronts_follow_the_recurrence();
        update.add_to(&mut self.square, &self.places, &mut self.matched);
    }

    /// Eliminates the front, to which the updates of all its children were added.
    pub fn eliminate(self) -> FrontValue
        requires { (base : List Front) × IsComplete base self }
        ensures exact { value_of result ≡ eliminated self }
        ensures value { (base : List Front) → IsComplete base self → value_of result ≡ front_value base self.front }
    {
        fronts_follow_the_recurrence();
        let FrontSpace {
            front,
            later,
            mut square,
            mut entries,
            columns,
            ..
        } = self;
        match eliminate_square(&mut square, later.len(), &mut entries) {
            Some(OwnBreakdown::Pivot(dof)) => FrontValue::Pivot { front, dof },
            Some(OwnBreakdown::Wide) => FrontValue::Wide { front },
            None => FrontValue::Ok {
                columns: Columns::of_entries(columns, &entries, 6 * later.len() + 6),
                update: FrontUpdate::of_parts(later, square),
            },
        }
    }
}
