ghost use Rattle.lists.specs.Lists.{contents, list_of, LinksLists};
ghost use Rattle.lists.specs.Order.{place_of};
ghost use Rattle.lists.specs.Rising.{IsRising};
ghost use Rattle.std.specs.Prelude.{◌≡◌, ◌∷◌, ◌↔◌, OnOk, ℕ, suc, ◌+◌, ◌*◌, ◌/◌, ◌^◌, ◌<◌, ◌≤◌, IfOk, Contains, All, ℤ, pos, ◌+ℤ◌, length, slice_index_or, [], replicate};
ghost use Rattle.std.specs.Int.RustNames.{unsigned_abs};
ghost use Rattle.sym_blocks.specs.Storage.{own_lists_of, zero_triangle_of, flat_index, lower_entry, IsPattern, IsStorage, AddsToLower};

use lists::{find_rising, freedom_of, link_pairs, node_of};
use std::alloc::{AllocError, Global};
use std::marker::Model;

/// Memory ran out.
pub type NoMemory = AllocError;

/// A symmetric matrix of whole numbers on a pattern of 6 by 6 blocks: a node's own block, and one for each pair
/// of nodes that is joined. Row `6 n + f` is freedom f of node n. Memory goes with the pairs, not with the square: the
/// blocks on and below the diagonal are stored, each 36 numbers.
#[derive(Drop)]
pub struct SymBlocks {
    neighbours: Vec<Vec<u32>>,
    triangle: Vec<Vec<i128>>,
}

impl Model for SymBlocks {
    ghost use Rattle.sym_blocks.specs.Matrix.{Matrix};
    ghost use Rattle.lists.specs.Lists.{contents};
    ghost use Rattle.sym_blocks.specs.Storage.{stored_matrix, IsStorage};

    ghost Value = { Matrix };

    ghost view = { λ s. stored_matrix (contents s.neighbours.items) (contents s.triangle.items) };

    ghost invariant = { λ s. IsStorage (contents s.neighbours.items) (contents s.triangle.items) };
}

impl SymBlocks {
    ghost use Rattle.sym_blocks.specs.Matrix.{entry, node_count, pattern_of, HasBlock, IsLinked, IsSymmetricByBlocks, AddsAt};

    /// A matrix of zeros, for nodes 0 to `nodes - 1` and a block for each pair and for each node with itself.
    pub fn new(alloc: Global, nodes: u32, pairs: &[(u32, u32)]) -> Result<SymBlocks, NoMemory>
        requires { All (λ p. (p.0 < nodes) × (p.1 < nodes)) pairs.now }
        ensures nodes { IfOk result (λ m. node_count m ≡ nodes) }
        ensures pattern { IfOk result (λ m. (n k : ℕ) → HasBlock m n k ↔ IsLinked nodes pairs.now n k) }
        ensures zero { IfOk result (λ m. (i j : ℕ) → entry m i j ≡ pos 0) }
        ensures kept { IfOk result IsSymmetricByBlocks }
    {
        let mut neighbours = own_lists(alloc, nodes)?;
        link_pairs(&mut neighbours, pairs)?;
        let triangle = zero_triangle(alloc, &neighbours)?;
        Ok(SymBlocks {
            neighbours,
            triangle,
        })
    }

    /// The entry in a row and a column, and 0 outside the pattern.
    pub fn get(&self, row: u32, col: u32) -> i128
        ensures value { result ≡ entry self.now row col }
        ensures kept { IsSymmetricByBlocks self.now }
    {
        if row < col {
            self.lower(col, row)
        } else {
            self.lower(row, col)
        }
    }

    // The entry in a row and a column that is no greater.
    fn lower(&self, row: u32, col: u32) -> i128
        requires { col ≤ row }
        ensures value { result ≡ entry self.now row col }
        ensures kept { IsSymmetricByBlocks self.now }
    {
        match find_rising(self.pattern(node_of(row)), node_of(col)) {
            Some(place) => self.triangle[node_of(row) as usize][index(place, row, col)],
            None => 0,
        }
    }

    /// Adds to an entry, and to its mirror.
    pub fn add(&mut self, row: u32, col: u32, v: i128)
        requires in_pattern { HasBlock self.old (row / 6) (col / 6) }
        requires small { unsigned_abs (entry self.old row col +ℤ v) < 2 ^ 126 }
        ensures added { AddsAt self.old self.new row col v }
        ensures kept { IsSymmetricByBlocks self.new }
    {
        if row < col {
            add_lower(&self.neighbours, &mut self.triangle, col, row, v);
        } else {
            add_lower(&self.neighbours, &mut self.triangle, row, col, v);
        }
    }

    /// The nodes whose block with this node is in the pattern, rising.
    pub fn pattern(&self, node: u32) -> &[u32]
        ensures value { result.now ≡ pattern_of self.now node }
        ensures kept { IsSymmetricByBlocks self.now }
    {
        match self.neighbours.get(node as usize) {
            Some(nodes) => nodes.as_slice(),
            None => &[],
        }
    }
}

// A list for each node, with the node alone.
fn own_lists(alloc: Global, nodes: u32) -> Result<Vec<Vec<u32>>, AllocError>
    ensures { IfOk result (λ lists. contents lists.items ≡ own_lists_of nodes) }
{
    let mut lists = Vec::with_capacity(alloc, nodes as usize)?;
    for node in 0..nodes {
        lists.push(vec![in alloc; node]?)?;
    }
    Ok(lists)
}

// For each node a row of zeros, as long as the blocks beside the nodes of its list up to itself.
fn zero_triangle(alloc: Global, lists: &[Vec<u32>]) -> Result<Vec<Vec<i128>>, AllocError>
    requires count { length lists.now < 2 ^ 32 }
    requires pattern { IsPattern (contents lists.now) }
    ensures { IfOk result (λ triangle. contents triangle.items ≡ zero_triangle_of (contents lists.now)) }
{
    let mut triangle = Vec::with_capacity(alloc, lists.len())?;
    for node in 0..lists.len() {
        let blocks = count_up_to(&lists[node], node as u32);
        triangle.push(vec![in alloc; 0; 36 * blocks]?)?;
    }
    Ok(triangle)
}

// How many numbers of a rising list stand up to one of them.
fn count_up_to(list: &[u32], number: u32) -> usize
    requires rising { IsRising list.now }
    requires listed { Contains list.now number }
    ensures { result ≡ suc (place_of number list.now) }
{
    match find_rising(list, number) {
        Some(place) => place + 1,
        None => 0,
    }
}

// Where an entry stands in its node's row, in the block at a place.
fn index(place: usize, row: u32, col: u32) -> usize
    requires { place < 2 ^ 32 }
    ensures { result ≡ flat_index place row col }
{
    36 * place + 6 * freedom_of(row) as usize + freedom_of(col) as usize
}

// Adds to one entry of the lower triangle.
fn add_lower(lists: &[Vec<u32>], triangle: &mut [Vec<i128>], row: u32, col: u32, v: i128)
    requires lower { col ≤ row }
    requires storage { IsStorage (contents lists.now) (contents triangle.old) }
    requires listed { Contains (list_of (contents lists.now) (row / 6)) (col / 6) }
    requires small { unsigned_abs (lower_entry (contents lists.now) (contents triangle.old) row col +ℤ v) < 2 ^ 126 }
    ensures storage { IsStorage (contents lists.now) (contents triangle.new) }
    ensures added { AddsToLower (contents lists.now) (contents triangle.old) (contents triangle.new) row col v }
{
    if let Some(place) = find_rising(&lists[node_of(row) as usize], node_of(col)) {
        triangle[node_of(row) as usize][index(place, row, col)] += v;
    }
}
