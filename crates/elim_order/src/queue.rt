ghost use Rattle.std.specs.Prelude.{◌≡◌, ℕ, ◌^◌, ◌<◌, true, length, All, IfOk, OnOk, MatchOption};
ghost use Rattle.std.specs.List.{filter};
ghost use Rattle.lists.specs.Rising.{IsRising};
ghost use Rattle.lists.specs.Lists.{contents, list_of};
ghost use Rattle.elim_order.specs.Queue.{key_of, is_left, is_current, IsQueue, IsLeastKey, Queues, Marks};

use lists::list_number;
use std::alloc::{AllocError, Global};

// Where a node is queued.
fn key(neighbours: &[Vec<u32>], node: u32) -> usize
    requires { node < length neighbours.now }
    ensures { result ≡ key_of (contents neighbours.now) node }
{
    neighbours[node as usize].len().max(2)
}

// Queues some nodes.
pub fn enqueue(
    queue: &mut [Vec<u32>],
    neighbours: &[Vec<u32>],
    nodes: &[u32],
) -> Result<(), AllocError>
    requires nodes { All (λ n. n < length neighbours.now) nodes.now }
    requires room { (n : ℕ) → key_of (contents neighbours.now) n < length queue.old }
    requires few { length queue.old < 2 ^ 32 }
    requires rising { (d : ℕ) → IsRising (list_of (contents queue.old) d) }
    ensures { OnOk result (Queues (contents neighbours.now) nodes.now (contents queue.old) (contents queue.new)) }
{
    for &node in nodes {
        let key = key(neighbours, node);
        list_number(queue, key as u32, node)?;
    }
    Ok(())
}

// The least key of a node left; none where no node is left.
pub fn least_key(
    alloc: Global,
    neighbours: &[Vec<u32>],
    left: &[bool],
    queue: &mut [Vec<u32>],
) -> Result<Option<usize>, AllocError>
    requires count { length left.now ≡ length neighbours.now }
    requires queue { IsQueue (contents neighbours.now) left.now (contents queue.old) }
    ensures queue { OnOk result (IsQueue (contents neighbours.now) left.now (contents queue.new)) }
    ensures least { IfOk result (λ found. MatchOption found
        ((n : ℕ) → is_left left.now n ≡ true → ⊥)
        (IsLeastKey (contents neighbours.now) left.now (contents queue.new))) }
{
    for key in 0..queue.len() {
        queue[key] = current(alloc, neighbours, left, &queue[key], key)?;
        if !queue[key].is_empty() {
            return Ok(Some(key));
        }
    }
    Ok(None)
}

// Those of some nodes that are left and belong at a key.
fn current(
    alloc: Global,
    neighbours: &[Vec<u32>],
    left: &[bool],
    nodes: &[u32],
    key: usize,
) -> Result<Vec<u32>, AllocError>
    requires count { length left.now ≡ length neighbours.now }
    requires nodes { All (λ n. n < length neighbours.now) nodes.now }
    ensures { IfOk result (λ found. found.items ≡ filter (is_current (contents neighbours.now) left.now key) nodes.now) }
{
    let mut found = Vec::new(alloc);
    for &node in nodes {
        if belongs(neighbours, left, key, node) {
            found.push(node)?;
        }
    }
    Ok(found)
}

fn belongs(neighbours: &[Vec<u32>], left: &[bool], key: usize, node: u32) -> bool
    requires in_lists { node < length neighbours.now }
    requires in_left { node < length left.now }
    ensures { result ≡ is_current (contents neighbours.now) left.now key node }
{
    left[node as usize] && self::key(neighbours, node) == key
}

// Marks nodes that are left as gone.
pub fn mark(left: &mut [bool], nodes: &[u32])
    requires rising { IsRising nodes.now }
    requires left { All (λ n. is_left left.old n ≡ true) nodes.now }
    ensures { Marks nodes.now left.old left.new }
{
    for &node in nodes {
        left[node as usize] = false;
    }
}
