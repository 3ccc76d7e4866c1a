ghost use Rattle.std.specs.Prelude.{◌≡◌, ◌≢◌, ℕ, ◌+◌, ◌^◌, ◌<◌, ◌≤◌, ◌↔◌, true, [], length, replicate, All, Contains, IfOk, MatchBool, MatchResult};
ghost use Rattle.lists.specs.Rising.{IsRising};
ghost use Rattle.lists.specs.Lists.{contents, list_of};
ghost use Rattle.lists.specs.Order.{IsOrder};
ghost use Rattle.elim_order.specs.Graph.{links};
ghost use Rattle.elim_order.specs.Order.{IsEliminationOrder, IsOrderFault};
ghost use Rattle.elim_order.specs.State.{IsGraph, TakesApart, EliminatesRound, IsRoundFault};

use crate::fault::OrderFault;
use crate::graph::eliminate;
use crate::queue::{enqueue, least_key, mark};
use lists::{empty_lists, find_rising, link_pairs};
use std::alloc::{AllocError, Global};

// The most nodes beside its own that a front may have.
const BREADTH: usize = 31;

/// The order in which the nodes of a graph are eliminated, for nodes 0 to `nodes - 1` and the pairs that are joined: in
/// rounds of nodes of least degree, which keeps the fronts small. Broad has the first node, in this order, that has over
/// 31 neighbours left as it is eliminated.
pub fn order(alloc: Global, nodes: u32, pairs: &[(u32, u32)]) -> Result<Vec<u32>, OrderFault>
    requires few { nodes ≤ 8000 }
    requires in_range { All (λ p. (p.0 < nodes) × (p.1 < nodes)) pairs.now }
    requires apart { All (λ p. p.0 ≢ p.1) pairs.now }
    ensures order { MatchResult result
        (λ o. IsEliminationOrder nodes (links pairs.now) o.items)
        (IsOrderFault nodes (links pairs.now)) }
    ensures permutation { IfOk result (λ o. IsOrder o.items × (length o.items ≡ nodes)) }
{
    let mut neighbours = empty_lists(alloc, nodes as usize)?;
    let mut left = vec![in alloc; true; nodes as usize]?;
    let mut queue = empty_lists(alloc, nodes as usize + 3)?;
    in_rounds(alloc, pairs, &mut neighbours, &mut left, &mut queue)
}

// The order by rounds, in the space for lists of neighbours, the nodes left and the queue.
fn in_rounds(
    alloc: Global,
    pairs: &[(u32, u32)],
    neighbours: &mut [Vec<u32>],
    left: &mut [bool],
    queue: &mut [Vec<u32>],
) -> Result<Vec<u32>, OrderFault>
    requires few { length left.old ≤ 8000 }
    requires in_range { All (λ p. (p.0 < length left.old) × (p.1 < length left.old)) pairs.now }
    requires apart { All (λ p. p.0 ≢ p.1) pairs.now }
    requires neighbours { contents neighbours.old ≡ replicate (length left.old) [] }
    requires left { left.old ≡ replicate (length left.old) true }
    requires queue { contents queue.old ≡ replicate (length left.old + 3) [] }
    ensures order { MatchResult result
        (λ o. IsEliminationOrder (length left.old) (links pairs.now) o.items)
        (IsOrderFault (length left.old) (links pairs.now)) }
    ensures permutation { IfOk result (λ o. IsOrder o.items × (length o.items ≡ length left.old)) }
{
    link_pairs(neighbours, pairs)?;
    let nodes = all_nodes(alloc, left.len() as u32)?;
    enqueue(queue, neighbours, &nodes)?;
    let mut order = Vec::with_capacity(alloc, left.len())?;
    while let Some(key) = least_key(alloc, neighbours, left, queue)? {
        let round = round_of(alloc, neighbours, &queue[key])?;
        eliminate_round(alloc, neighbours, queue, &round)?;
        mark(left, &round);
        order.extend_from_slice(&round)?;
    }
    Ok(order)
}

fn all_nodes(alloc: Global, count: u32) -> Result<Vec<u32>, AllocError>
    ensures { IfOk result (λ nodes. (n : ℕ) → Contains nodes.items n ↔ (n < count)) }
{
    let mut nodes = Vec::with_capacity(alloc, count as usize)?;
    for node in 0..count {
        nodes.push(node)?;
    }
    Ok(nodes)
}

// Eliminates the nodes of a round, and queues their neighbours anew.
fn eliminate_round(
    alloc: Global,
    neighbours: &mut [Vec<u32>],
    queue: &mut [Vec<u32>],
    round: &[u32],
) -> Result<(), OrderFault>
    requires nodes { All (λ n. n < length neighbours.old) round.now }
    requires graph { IsGraph (contents neighbours.old) }
    requires room { length neighbours.old + 2 < length queue.old }
    requires few { length queue.old < 2 ^ 32 }
    requires rising { (d : ℕ) → IsRising (list_of (contents queue.old) d) }
    requires queued { (d n : ℕ) → Contains (list_of (contents queue.old) d) n → n < length neighbours.old }
    ensures { MatchResult result
        (λ _. EliminatesRound round.now (contents neighbours.old) (contents neighbours.new) (contents queue.old) (contents queue.new))
        (IsRoundFault round.now (contents neighbours.old)) }
{
    for &node in round {
        if neighbours[node as usize].len() > BREADTH {
            return Err(OrderFault::Broad { node });
        }
        let front = eliminate(alloc, neighbours, node)?;
        enqueue(queue, neighbours, &front)?;
    }
    Ok(())
}

// Of nodes in order those that are no neighbour of one taken before.
fn round_of(alloc: Global, neighbours: &[Vec<u32>], nodes: &[u32]) -> Result<Vec<u32>, AllocError>
    requires rising { IsRising nodes.now }
    requires in_range { All (λ n. n < length neighbours.now) nodes.now }
    ensures { IfOk result (λ taken. TakesApart (contents neighbours.now) nodes.now taken.items) }
{
    let mut taken = Vec::new(alloc);
    for &node in nodes {
        if !meets(&neighbours[node as usize], &taken) {
            taken.push(node)?;
        }
    }
    Ok(taken)
}

// Whether a list has a number that a rising list has.
fn meets(list: &[u32], taken: &[u32]) -> bool
    requires { IsRising taken.now }
    ensures { MatchBool result
        ((k : ℕ) × Contains list.now k × Contains taken.now k)
        ((k : ℕ) → Contains list.now k → Contains taken.now k → ⊥) }
{
    for &number in list {
        if find_rising(taken, number).is_some() {
            return true;
        }
    }
    false
}
