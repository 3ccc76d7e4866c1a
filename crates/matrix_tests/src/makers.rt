//! Chains of nodes, each joined with the next: matrices, orders and factors. What the calls under test require of a matrix is
//! tested here, entry by entry. A structure of one node too.
ghost use Rattle.std.specs.Prelude.{◌≡◌, [], ◌∷◌, ℕ, ◌+◌, ◌-◌, ◌*◌, ◌/◌, ◌^◌, ◌<◌, ◌≤◌, ◌+ℤ◌, unsigned_abs, length, slice_index, IfOk, IsTrue};
ghost use Rattle.sym_blocks.specs.Matrix.{HasBlock, entry, node_count};
ghost use Rattle.lists.specs.Order.{IsOrder};
ghost use Rattle.matrix_tests.specs.Entries.{AreEntries, IsEntry};

use factor_data::{Factor, NoMemory};
use lists::find_rising;
use member_set::{Built, Member, Sequence};
use std::alloc::{AllocError, Global};
use std::process::Abort;
use sym_blocks::SymBlocks;

// A matrix of zeros on the pattern of a chain.
pub(crate) fn chain_matrix(alloc: Global, nodes: u32) -> Result<SymBlocks, NoMemory>
    ensures { IfOk result (λ m. node_count m ≡ nodes) }
{
    let mut pairs = Vec::new(alloc);
    for node in 1..nodes {
        pairs.push((node - 1, node))?;
    }
    SymBlocks::new(alloc, nodes, &pairs)
}

// Adds to an entry of the pattern, and to its mirror.
pub(crate) fn add(rt: &impl Abort, matrix: &mut SymBlocks, row: u32, col: u32, v: i128)
    ensures { node_count matrix.new ≡ node_count matrix.old }
{
    assert!(rt; find_rising(matrix.pattern(row / 6), col / 6).is_some());
    assert!(rt; is_small_sum(matrix.get(row, col), v));
    matrix.add(row, col, v);
}

fn is_small_sum(was: i128, v: i128) -> bool
    ensures { IsTrue result → unsigned_abs (was +ℤ v) < 2 ^ 126 }
{
    was.unsigned_abs() < 1 << 60 && v.unsigned_abs() < 1 << 60
}

// Whether a number is an entry that may be tested: of any sign, or not below 0.
fn is_entry(z: i128, signed: bool) -> bool
    ensures { IsTrue result → IsEntry signed z }
{
    z.unsigned_abs() < 1 << 60 && (signed || z >= 0)
}

// All entries of a matrix may be tested.
pub(crate) fn check_entries(rt: &impl Abort, matrix: &SymBlocks, nodes: u32, signed: bool)
    requires few { nodes ≤ 8000 }
    requires nodes { node_count matrix.now ≡ nodes }
    ensures { AreEntries signed matrix.now }
{
    // What every matrix keeps: it has nothing outside its pattern.
    let _nodes = matrix.pattern(0);
    for row in 0..6 * nodes {
        check_row(rt, matrix, row, signed);
    }
}

// The entries of a row's blocks.
fn check_row(rt: &impl Abort, matrix: &SymBlocks, row: u32, signed: bool)
    ensures { (j : ℕ) → HasBlock matrix.now (row / 6) (j / 6) → IsEntry signed (entry matrix.now row j) }
{
    for &node in matrix.pattern(row / 6) {
        check_block(rt, matrix, row, node, signed);
    }
}

// A row's entries in the block of a node.
fn check_block(rt: &impl Abort, matrix: &SymBlocks, row: u32, node: u32, signed: bool)
    ensures { (j : ℕ) → j / 6 ≡ node → IsEntry signed (entry matrix.now row j) }
{
    assert!(rt; node <= 8000);
    for freedom in 0..6 {
        assert!(rt; is_entry(matrix.get(row, 6 * node + freedom), signed));
    }
}

// The numbers from one to before another.
pub(crate) fn counted(alloc: Global, from: u32, end: u32) -> Result<Vec<u32>, AllocError>
    requires { from ≤ end }
    ensures { IfOk result (λ v. (length v.items ≡ end - from) × ((k : ℕ) → k < end - from → slice_index v.items k ≡ from + k)) }
{
    let mut numbers = Vec::new(alloc);
    for number in from..end {
        numbers.push(number)?;
    }
    Ok(numbers)
}

// The nodes of a chain in their own order.
pub(crate) fn chain_order(alloc: Global, nodes: u32) -> Result<Vec<u32>, AllocError>
    ensures count { IfOk result (λ v. length v.items ≡ nodes) }
    ensures order { IfOk result (λ v. IsOrder v.items) }
{
    let order = counted(alloc, 0, nodes)?;
    Ok(order)
}

// A value at the diagonal, and others below it.
fn column(alloc: Global, count: u32, own: i64, below: i64) -> Result<Vec<i64>, AllocError>
    ensures { IfOk result (λ v. length v.items ≡ count) }
{
    let mut values = Vec::new(alloc);
    for place in 0..count {
        values.push(if place == 0 { own } else { below })?;
    }
    Ok(values)
}

// The end of the rows of the next node.
fn end_of(position: u32, nodes: u32) -> u32
    requires nodes { nodes ≤ 8000 }
    requires position { position < 6 * nodes }
    ensures after { position < result }
    ensures inside { result ≤ 6 * nodes }
{
    (6 * (position / 6) + 12).min(6 * nodes)
}

// The factor of a chain in its own order, with one value on the diagonal and one below it.
pub(crate) fn chain_factor(
    alloc: Global,
    nodes: u32,
    own: i64,
    below: i64,
) -> Result<Factor, NoMemory>
    requires { nodes ≤ 8000 }
    ensures { IfOk result (λ f. length f.order ≡ nodes) }
{
    let order = chain_order(alloc, nodes)?;
    let mut rows = Vec::new(alloc);
    let mut values = Vec::new(alloc);
    for position in 0..6 * nodes {
        let end = end_of(position, nodes);
        rows.push(counted(alloc, position, end)?)?;
        values.push(column(alloc, end - position, own, below)?)?;
    }
    Factor::of_lists(alloc, &order, &rows, &values)
}

// A structure of one node, with the numbers of the members that touch it and of those with a state.
pub(crate) fn one_node(
    alloc: Global,
    members: Vec<Member>,
    numbers: Vec<u32>,
    unilateral: Vec<u32>,
) -> Result<Built, AllocError>
    ensures { IfOk result (λ b. b ≡ record { members = members.items; unilateral = unilateral.items; stations = []; at = numbers.items ∷ [] }) }
{
    let mut at = Vec::new(alloc);
    at.push(Sequence::new(numbers))?;
    Ok(Built {
        members: Sequence::new(members),
        unilateral: Sequence::new(unilateral),
        stations: Sequence::new(Vec::new(alloc)),
        at: Sequence::new(at),
    })
}
