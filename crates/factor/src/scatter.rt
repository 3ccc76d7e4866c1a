ghost use Rattle.std.specs.Prelude.{◌≡◌, ℕ, ◌+◌, ◌*◌, ◌/◌, ◌%◌, ◌<◌, ◌≤◌, All, IfOk, length, slice_index, slice_index_or, pos};
ghost use Rattle.std.specs.Int.RustNames.{unsigned_abs};
ghost use Rattle.lists.specs.Rows.{freedom_at};
ghost use Rattle.factor.specs.State.{IsProblem, shifted_matrix};
ghost use Rattle.factor.specs.Front.{IsScattered};

use lists::Permutation;
use std::alloc::{AllocError, Global};
use sym_blocks::SymBlocks;

// What is factorised: a matrix in an order of its nodes, with the tree of their elimination, less a shift.
#[derive(Clone, Copy)]
pub struct Problem<'a> {
    pub matrix: &'a SymBlocks,
    pub order: &'a Permutation,
    pub parents: &'a [Option<u32>],
    pub shift: i128,
}

// Stiffnesses are scaled by this.
const SCALE: i128 = 1 << 52;

// The entries of a node's columns for some nodes, six by six.
pub fn scatter(
    alloc: Global,
    problem: &Problem,
    nodes: &[u32],
    node: u32,
) -> Result<Vec<i128>, AllocError>
    requires problem { IsProblem problem.now.matrix.now problem.now.order.now problem.now.parents.now problem.now.shift }
    requires nodes_in { All (λ q. q < length problem.now.order.now) nodes.now }
    requires few { length nodes.now ≤ 8000 }
    requires node_in { node < length problem.now.order.now }
    ensures { IfOk result (λ work. IsScattered (shifted_matrix problem.now.matrix.now problem.now.order.now problem.now.shift) nodes.now node work.items) }
{
    let mut work = Vec::with_capacity(alloc, 36 * nodes.len())?;
    for s in 0..36 * nodes.len() {
        let row = 6 * nodes[s / 36] + (s % 36 / 6) as u32;
        let column = 6 * node + (s % 6) as u32;
        work.push(scaled_entry(problem, row, column))?;
    }
    Ok(work)
}

// The entry at two positions, scaled and with the shift taken off the diagonal.
fn scaled_entry(problem: &Problem, i: u32, j: u32) -> i128
    requires problem { IsProblem problem.now.matrix.now problem.now.order.now problem.now.parents.now problem.now.shift }
    requires i_in { i < 6 * length problem.now.order.now }
    requires j_in { j < 6 * length problem.now.order.now }
    ensures { result ≡ shifted_matrix problem.now.matrix.now problem.now.order.now problem.now.shift i j }
{
    let stiffness = problem
        .matrix
        .get(freedom(problem.order, i), freedom(problem.order, j));
    if i == j {
        SCALE * (stiffness - problem.shift)
    } else {
        SCALE * stiffness
    }
}

// The freedom at a position.
fn freedom(order: &Permutation, position: u32) -> u32
    requires position_in { position < 6 * length order.now }
    requires small { All (λ m. m < 8000) order.now }
    ensures { result ≡ freedom_at order.now position }
{
    6 * order.number_at(position / 6) + position % 6
}
