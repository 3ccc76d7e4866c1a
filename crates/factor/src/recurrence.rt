ghost use Rattle.std.specs.Prelude.{◌≡◌, ℕ, ◌*◌, ◌^◌, ◌<◌, ◌≤◌, All, IfOk, OnOk, MatchResult, length, replicate, slice_index, [], pos, ◌≤ℤ◌};
ghost use Rattle.std.specs.Int.RustNames.{unsigned_abs};
ghost use Rattle.lists.specs.Rising.{IsRising};
ghost use Rattle.lists.specs.Lists.{contents, list_of, ListsInAll};
ghost use Rattle.sym_blocks.specs.Matrix.{node_count, entry};
ghost use Rattle.lists.specs.Order.{IsOrder};
ghost use Rattle.factor.specs.State.{IsProblem, shifted_matrix};
ghost use Rattle.elimination.specs.Elimination.{AreParents};
ghost use Rattle.factor.specs.Columns.{ArePanelShapes, HasColumns, AreColumnRows, AreColumnValues};
ghost use Rattle.factor_data.specs.Columns.{HasDiagonal};
ghost use Rattle.factor.specs.Scalar.{IsFactorOf, IsBreakdown};

use crate::fault::ScalarFault;
use crate::panel::{Panel, eliminate_node};
use crate::scatter::Problem;
use cholesky_laws::recurrence_keeps_laws;
use factor_data::Factor;
use lists::{Permutation, empty_lists, list_in_all};
use std::alloc::{AllocError, Global};
use sym_blocks::SymBlocks;

/// The factor of the integer Cholesky recurrence of a matrix at a shift, in an order of its nodes, or the recurrence's
/// first breakdown. Each entry on the factor's diagonal is positive. `parents` has the parent of each place of the order in
/// the tree of the elimination. One node after another, each from the columns that reach it: the plain program that faster
/// ones are compared with.
pub fn scalar(
    alloc: Global,
    k: &SymBlocks,
    order: &[u32],
    parents: &[Option<u32>],
    shift: i128,
) -> Result<Factor, ScalarFault>
    requires few { length order.now ≤ 8000 }
    requires order { IsOrder order.now }
    requires nodes { node_count k.now ≡ length order.now }
    requires small { (i j : ℕ) → unsigned_abs (entry k.now i j) < 2 ^ 60 }
    requires shift_low { pos 0 ≤ℤ shift }
    requires shift_high { shift ≤ℤ pos (2 ^ 44) }
    requires parents_count { length parents.now ≡ length order.now }
    requires parents_later { AreParents parents.now (length order.now) }
    ensures diagonal { IfOk result HasDiagonal }
    ensures factor { MatchResult result
        (IsFactorOf (shifted_matrix k.now order.now shift) order.now parents.now)
        (IsBreakdown (shifted_matrix k.now order.now shift) order.now parents.now) }
{
    recurrence_keeps_laws();
    let permutation = Permutation::new(alloc, Vec::from_slice(alloc, order)?)?;
    let problem = Problem {
        matrix: k,
        order: &permutation,
        parents,
        shift,
    };
    eliminate_all(alloc, &problem)
}

// The columns of all nodes, one node after another, each from the columns that reach it.
fn eliminate_all(alloc: Global, problem: &Problem) -> Result<Factor, ScalarFault>
    requires { IsProblem problem.now.matrix.now problem.now.order.now problem.now.parents.now problem.now.shift }
    ensures { MatchResult result
        (IsFactorOf (shifted_matrix problem.now.matrix.now problem.now.order.now problem.now.shift) problem.now.order.now problem.now.parents.now)
        (IsBreakdown (shifted_matrix problem.now.matrix.now problem.now.order.now problem.now.shift) problem.now.order.now problem.now.parents.now) }
{
    recurrence_keeps_laws();
    let mut row_patterns = empty_lists(alloc, problem.order.len())?;
    let mut panels = Vec::with_capacity(alloc, problem.order.len())?;
    for node in 0..problem.order.len() {
        let panel = eliminate_node(alloc, problem, &panels, &row_patterns[node], node as u32)?;
        list_in_all(&mut row_patterns, &panel.nodes, node as u32)?;
        panels.push(panel)?;
    }
    Ok(columns(alloc, problem.order, &panels)?)
}

// The factor of all columns.
fn columns(alloc: Global, order: &Permutation, panels: &[Panel]) -> Result<Factor, AllocError>
    requires few { length order.now ≤ 8000 }
    requires panels { ArePanelShapes (length order.now) panels.now }
    ensures { IfOk result (λ f. HasColumns order.now panels.now f) }
{
    let mut rows = Vec::with_capacity(alloc, 6 * panels.len())?;
    let mut values = Vec::with_capacity(alloc, 6 * panels.len())?;
    for column in 0..6 * panels.len() {
        let panel = &panels[column / 6];
        rows.push(column_rows(alloc, &panel.nodes, column % 6)?)?;
        values.push(column_values(alloc, &panel.entries, column % 6)?)?;
    }
    Ok(Factor::of_parts(Vec::from_slice(alloc, order.numbers())?, rows, values))
}

// The positions of a column, from its own on.
fn column_rows(alloc: Global, nodes: &[u32], column: usize) -> Result<Vec<u32>, AllocError>
    requires few { length nodes.now ≤ 8000 }
    requires own { 0 < length nodes.now }
    requires small { All (λ q. q < 8000) nodes.now }
    requires column { column < 6 }
    ensures { IfOk result (λ rows. AreColumnRows nodes.now column rows.items) }
{
    let mut rows = Vec::with_capacity(alloc, 6 * nodes.len())?;
    for row in column..6 * nodes.len() {
        rows.push(6 * nodes[row / 6] + (row % 6) as u32)?;
    }
    Ok(rows)
}

// The entries of a column, from its own position on.
fn column_values(alloc: Global, entries: &[i64], column: usize) -> Result<Vec<i64>, AllocError>
    requires column { column < 6 }
    ensures { IfOk result (λ values. AreColumnValues entries.now column values.items) }
{
    let mut values = Vec::with_capacity(alloc, entries.len() / 6)?;
    for row in column..entries.len() / 6 {
        values.push(entries[6 * row + column])?;
    }
    Ok(values)
}
