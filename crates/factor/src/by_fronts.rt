ghost use Rattle.std.specs.Prelude.{◌≡◌, ℕ, ◌*◌, ◌<◌, ◌∷◌, ◌++◌, IfOk, MatchResult, OnOk, Some, length};
ghost use Rattle.lists.specs.Lists.{contents, list_of};
ghost use Rattle.sym_blocks.specs.Matrix.{node_count};
ghost use Rattle.elim_tree.specs.Fronts.{IsAssemblyTree, parent_in, parents_in};
ghost use Rattle.cholesky_laws.specs.Fronts.{front_columns, front_update, SubtreePasses};
ghost use Rattle.dense_front.specs.Tree.{tree_fronts, IsLoad};
ghost use Rattle.factor_data.specs.Columns.{HasDiagonal};
ghost use Rattle.factor.specs.State.{shifted_matrix};
ghost use Rattle.factor.specs.Scalar.{IsFactorOf, IsBreakdown};
ghost use Rattle.factor.specs.Fronts.{IsOnTree, AreWaiting, RowsAdded, update_at};

use crate::fault::ScalarFault;
use cholesky_laws::{
    fronts_follow_the_recurrence, recurrence_is_determined, recurrence_keeps_laws,
};
use dense_front::{Columns, FrontSpace, FrontUpdate, FrontValue, tree_fronts_are_a_base};
use elim_tree::Tree;
use factor_data::Factor;
use std::alloc::{AllocError, Global};
use std::mem;
use sym_blocks::SymBlocks;

/// The factor of the integer Cholesky recurrence of a matrix at a shift, or the recurrence's first breakdown, as `scalar`
/// answers them: by the fronts of the elimination's tree, each after its children.
pub fn fronts(alloc: Global, t: &Tree, k: &SymBlocks, shift: i128) -> Result<Factor, ScalarFault>
    requires nodes { node_count k.now ≡ length t.now.order }
    requires load { IsLoad k.now shift }
    requires pattern { IsOnTree k.now t.now shift }
    ensures diagonal { IfOk result HasDiagonal }
    ensures factor { MatchResult result
        (IsFactorOf (shifted_matrix k.now t.now.order shift) t.now.order (parents_in t.now))
        (IsBreakdown (shifted_matrix k.now t.now.order shift) t.now.order (parents_in t.now)) }
{
    recurrence_keeps_laws();
    recurrence_is_determined();
    fronts_follow_the_recurrence();
    tree_fronts_are_a_base();
    // What every tree keeps, for the case of no front too.
    let _later = t.later(0);
    let mut rows = Vec::with_capacity(alloc, 6 * t.len() as usize)?;
    let mut values = Vec::with_capacity(alloc, 6 * t.len() as usize)?;
    let mut updates = Vec::with_capacity(alloc, t.len() as usize)?;
    for f in 0..t.len() {
        let (columns, update) = eliminate_front(alloc, t, k, shift, &mut updates, f)?;
        push_columns(alloc, &mut rows, &mut values, t, f, columns)?;
        updates.push(update)?;
    }
    Ok(Factor::of_parts(Vec::from_slice(alloc, t.order())?, rows, values))
}

// A front's columns and its update, with the updates of its children, which are spent.
fn eliminate_front(
    alloc: Global,
    t: &Tree,
    k: &SymBlocks,
    shift: i128,
    updates: &mut [FrontUpdate],
    f: u32,
) -> Result<(Columns, FrontUpdate), ScalarFault>
    requires front { f < length t.now.order }
    requires nodes { node_count k.now ≡ length t.now.order }
    requires load { IsLoad k.now shift }
    requires pattern { IsOnTree k.now t.now shift }
    requires waiting { AreWaiting t.now k.now shift f updates.old }
    ensures value { MatchResult result
        (λ p. (p.0 ≡ front_columns (tree_fronts t.now k.now shift) f) × (p.1 ≡ front_update (tree_fronts t.now k.now shift) f) × SubtreePasses (tree_fronts t.now k.now shift) f)
        (IsBreakdown (shifted_matrix k.now t.now.order shift) t.now.order (parents_in t.now)) }
    ensures count { length updates.new ≡ f }
    ensures others { (d : ℕ) → (parent_in t.now d ≡ Some f → ⊥) → update_at updates.new d ≡ update_at updates.old d }
{
    recurrence_keeps_laws();
    recurrence_is_determined();
    fronts_follow_the_recurrence();
    tree_fronts_are_a_base();
    let mut space = FrontSpace::new(alloc, t, f)?;
    space.load(k, shift);
    let children = t.children(f);
    for i in 0..children.len() {
        let update = take(alloc, updates, children[i]);
        space.add_child(&update);
    }
    match space.eliminate() {
        FrontValue::Ok { columns, update } => Ok((columns, update)),
        FrontValue::Pivot { front, dof } => Err(ScalarFault::Pivot {
            node: t.node(front),
            dof,
        }),
        FrontValue::Wide { front } => Err(ScalarFault::Wide {
            node: t.node(front),
        }),
    }
}

// An update, which is spent: its rows are given back.
fn take(alloc: Global, updates: &mut [FrontUpdate], child: u32) -> FrontUpdate
    requires { child < length updates.old }
    ensures value { result ≡ update_at updates.old child }
    ensures count { length updates.new ≡ length updates.old }
    ensures others { (d : ℕ) → (d ≡ child → ⊥) → update_at updates.new d ≡ update_at updates.old d }
{
    mem::replace(&mut updates[child as usize], FrontUpdate::empty(alloc))
}

// The columns of a front, each with its rows.
fn push_columns(
    alloc: Global,
    rows: &mut Vec<Vec<u32>>,
    values: &mut Vec<Vec<i64>>,
    t: &Tree,
    f: u32,
    mut columns: Columns,
) -> Result<(), AllocError>
    requires front { f < length t.now.order }
    requires tree { IsAssemblyTree t.now }
    requires columns { length columns ≡ 6 }
    requires few { length rows.old.items ≡ 6 * f }
    requires aligned { length values.old.items ≡ 6 * f }
    ensures rows { OnOk result (RowsAdded (f ∷ list_of t.now.later f) (contents rows.old.items) (contents rows.new.items)) }
    ensures values { OnOk result (contents values.new.items ≡ contents values.old.items ++ columns) }
{
    for c in 0..6 {
        rows.push(Vec::from_slice(alloc, &t.rows(f)[c..])?)?;
        values.push(columns.take(alloc, c as u32))?;
    }
    Ok(())
}
