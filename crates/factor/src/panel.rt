ghost use Rattle.std.specs.Prelude.{◌≡◌, ℕ, ◌+◌, ◌*◌, ◌<◌, ◌≤◌, IfOk, MatchResult, length, slice_index, []};
ghost use Rattle.factor.specs.State.{IsProblem, shifted_matrix, ArePanels, IsRowPattern, IsFront, IsNodePanel, IsSchurComplement, AreChildSums, IsWithParent};
ghost use Rattle.elimination.specs.Elimination.{is_parent};
ghost use Rattle.factor.specs.Scalar.{IsBreakdownAt, fault_of};

use crate::eliminate::{Breakdown, eliminate};
use crate::fault::ScalarFault;
use crate::front::places_of;
use crate::gather::{add_squares, gather};
use crate::scatter::{Problem, scatter};
use crate::squares::add_own;
use cholesky_laws::recurrence_keeps_laws;
use lists::{Permutation, insert_later, insert_rising};
use std::alloc::{AllocError, Global};

/// A node's six columns.
#[derive(Drop)]
pub struct Panel {
    // The node and the later nodes that its columns reach, rising.
    pub nodes: Vec<u32>,
    // Six entries for each of their rows.
    pub entries: Vec<i64>,
    // The squares of each row, summed over the node's subtree.
    pub sums: Vec<i128>,
}

// The columns of a node, from those of the nodes before; `row_pattern` has those whose columns reach it.
pub fn eliminate_node(
    alloc: Global,
    problem: &Problem,
    panels: &[Panel],
    row_pattern: &[u32],
    node: u32,
) -> Result<Panel, ScalarFault>
    requires problem { IsProblem problem.now.matrix.now problem.now.order.now problem.now.parents.now problem.now.shift }
    requires node_in { node < length problem.now.order.now }
    requires panels { ArePanels (shifted_matrix problem.now.matrix.now problem.now.order.now problem.now.shift) problem.now.parents.now (length problem.now.order.now) node panels.now }
    requires row_pattern { IsRowPattern panels.now node node row_pattern.now }
    ensures { MatchResult result
        (λ p. IsNodePanel (shifted_matrix problem.now.matrix.now problem.now.order.now problem.now.shift) problem.now.parents.now (length problem.now.order.now) node p.nodes.items p.entries.items p.sums.items)
        (IsBreakdownAt (shifted_matrix problem.now.matrix.now problem.now.order.now problem.now.shift) problem.now.order.now problem.now.parents.now node) }
{
    recurrence_keeps_laws();
    let nodes = front(alloc, problem, panels, row_pattern, node)?;
    let work = schur_complement(alloc, problem, &nodes, panels, row_pattern, node)?;
    let entries = match eliminate(alloc, &work) {
        Ok(entries) => entries,
        Err(breakdown) => return Err(fault_at(problem.order, node, breakdown)),
    };
    let mut sums = child_sums(alloc, problem, &nodes, panels, row_pattern, node)?;
    if !add_own(&mut sums, &entries) {
        return Err(ScalarFault::Wide {
            node: problem.order.number_at(node),
        });
    }
    Ok(Panel {
        nodes,
        entries,
        sums,
    })
}

// The nodes that a node's columns reach: itself, its parent, its later neighbours, and the later nodes that the columns
// reach that reach it.
fn front(
    alloc: Global,
    problem: &Problem,
    panels: &[Panel],
    row_pattern: &[u32],
    node: u32,
) -> Result<Vec<u32>, AllocError>
    requires problem { IsProblem problem.now.matrix.now problem.now.order.now problem.now.parents.now problem.now.shift }
    requires node_in { node < length problem.now.order.now }
    requires panels { ArePanels (shifted_matrix problem.now.matrix.now problem.now.order.now problem.now.shift) problem.now.parents.now (length problem.now.order.now) node panels.now }
    requires row_pattern { IsRowPattern panels.now node node row_pattern.now }
    ensures { IfOk result (λ nodes. IsFront problem.now.matrix.now problem.now.order.now problem.now.parents.now panels.now row_pattern.now node nodes.items) }
{
    let mut nodes = adjacency(alloc, problem, node)?;
    for &earlier in row_pattern {
        insert_later(&mut nodes, &panels[earlier as usize].nodes, node)?;
    }
    Ok(nodes)
}

// The node itself, its parent and its later neighbours.
fn adjacency(alloc: Global, problem: &Problem, node: u32) -> Result<Vec<u32>, AllocError>
    requires problem { IsProblem problem.now.matrix.now problem.now.order.now problem.now.parents.now problem.now.shift }
    requires node_in { node < length problem.now.order.now }
    ensures { IfOk result (λ nodes. IsFront problem.now.matrix.now problem.now.order.now problem.now.parents.now [] [] node nodes.items) }
{
    let mut nodes = with_parent(alloc, problem.parents, node)?;
    let neighbours = problem.matrix.pattern(problem.order.number_at(node));
    insert_later(
        &mut nodes,
        &places_of(alloc, problem.order, neighbours)?,
        node,
    )?;
    Ok(nodes)
}

fn with_parent(alloc: Global, parents: &[Option<u32>], node: u32) -> Result<Vec<u32>, AllocError>
    requires { node < length parents.now }
    ensures { IfOk result (λ nodes. IsWithParent parents.now node nodes.items) }
{
    let mut nodes = vec![in alloc; node]?;
    match parents[node as usize] {
        Some(parent) => insert_rising(&mut nodes, parent)?,
        None => {}
    }
    Ok(nodes)
}

// The Schur complement in a node's columns: what is left of its rows after the columns before.
fn schur_complement(
    alloc: Global,
    problem: &Problem,
    nodes: &[u32],
    panels: &[Panel],
    row_pattern: &[u32],
    node: u32,
) -> Result<Vec<i128>, AllocError>
    requires problem { IsProblem problem.now.matrix.now problem.now.order.now problem.now.parents.now problem.now.shift }
    requires node_in { node < length problem.now.order.now }
    requires panels { ArePanels (shifted_matrix problem.now.matrix.now problem.now.order.now problem.now.shift) problem.now.parents.now (length problem.now.order.now) node panels.now }
    requires row_pattern { IsRowPattern panels.now node node row_pattern.now }
    requires front { IsFront problem.now.matrix.now problem.now.order.now problem.now.parents.now panels.now row_pattern.now node nodes.now }
    ensures { IfOk result (λ work. IsSchurComplement (shifted_matrix problem.now.matrix.now problem.now.order.now problem.now.shift) (length problem.now.order.now) node nodes.now work.items) }
{
    recurrence_keeps_laws();
    let mut work = scatter(alloc, problem, nodes, node)?;
    for &earlier in row_pattern {
        let panel = &panels[earlier as usize];
        gather(&mut work, nodes, &panel.nodes, &panel.entries, node);
    }
    Ok(work)
}

// The squares of a node's rows in its children's subtrees.
fn child_sums(
    alloc: Global,
    problem: &Problem,
    nodes: &[u32],
    panels: &[Panel],
    row_pattern: &[u32],
    node: u32,
) -> Result<Vec<i128>, AllocError>
    requires problem { IsProblem problem.now.matrix.now problem.now.order.now problem.now.parents.now problem.now.shift }
    requires node_in { node < length problem.now.order.now }
    requires panels { ArePanels (shifted_matrix problem.now.matrix.now problem.now.order.now problem.now.shift) problem.now.parents.now (length problem.now.order.now) node panels.now }
    requires row_pattern { IsRowPattern panels.now node node row_pattern.now }
    requires front { IsFront problem.now.matrix.now problem.now.order.now problem.now.parents.now panels.now row_pattern.now node nodes.now }
    ensures { IfOk result (λ sums. AreChildSums (shifted_matrix problem.now.matrix.now problem.now.order.now problem.now.shift) problem.now.parents.now (length problem.now.order.now) node nodes.now sums.items) }
{
    recurrence_keeps_laws();
    let mut sums = vec![in alloc; 0; 6 * nodes.len()]?;
    for &earlier in row_pattern {
        if is_child(problem.parents, earlier, node) {
            let panel = &panels[earlier as usize];
            add_squares(&mut sums, nodes, &panel.nodes, &panel.sums, node);
        }
    }
    Ok(sums)
}

fn is_child(parents: &[Option<u32>], earlier: u32, node: u32) -> bool
    requires { earlier < length parents.now }
    ensures { result ≡ is_parent parents.now node earlier }
{
    match parents[earlier as usize] {
        Some(parent) => parent == node,
        None => false,
    }
}

// The fault of a node at which its columns break down.
fn fault_at(order: &Permutation, node: u32, breakdown: Breakdown) -> ScalarFault
    requires { node < length order.now }
    ensures { result ≡ fault_of (slice_index order.now node) breakdown }
{
    let node = order.number_at(node);
    match breakdown {
        Breakdown::Pivot(dof) => ScalarFault::Pivot { node, dof },
        Breakdown::Wide => ScalarFault::Wide { node },
        Breakdown::NoMemory => ScalarFault::NoMemory,
    }
}
