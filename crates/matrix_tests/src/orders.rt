//! Elimination orders and assembly trees, worked by hand.
ghost use Rattle.std.specs.Prelude.{◌≢◌, ◌<◌, ◌≤◌, All, IsTrue};

use elim_order::{OrderFault, order};
use elim_tree::{Tree, TreeFault, tree};
use std::alloc::{AllocError, Global};
use std::process::Abort;
use std::test::Fail;

// Whether a pair joins two nodes.
fn joins(nodes: u32, n: u32, k: u32) -> bool
    ensures first { IsTrue result → n < nodes }
    ensures second { IsTrue result → k < nodes }
    ensures apart { IsTrue result → n ≢ k }
{
    if n < nodes {
        if k < nodes { n != k } else { false }
    } else {
        false
    }
}

// Whether each pair joins two of the nodes.
fn are_pairs(nodes: u32, pairs: &[(u32, u32)]) -> bool
    ensures few { IsTrue result → nodes ≤ 8000 }
    ensures in_range { IsTrue result → All (λ p. (p.0 < nodes) × (p.1 < nodes)) pairs.now }
    ensures apart { IsTrue result → All (λ p. p.0 ≢ p.1) pairs.now }
{
    for pair in pairs {
        if !joins(nodes, pair.0, pair.1) {
            return false;
        }
    }
    nodes <= 8000
}

// The order of the pairs' graph.
fn ordered(
    rt: &impl Abort,
    alloc: Global,
    nodes: u32,
    pairs: &[(u32, u32)],
) -> Result<Vec<u32>, OrderFault> {
    assert!(rt; are_pairs(nodes, pairs));
    order(alloc, nodes, pairs)
}

// The tree of that order.
fn tree_of(
    rt: &impl Abort,
    alloc: Global,
    nodes: u32,
    pairs: &[(u32, u32)],
) -> Result<Result<Tree, TreeFault>, OrderFault> {
    assert!(rt; are_pairs(nodes, pairs));
    let order = order(alloc, nodes, pairs)?;
    Ok(tree(alloc, &order, pairs))
}

// Groups of so many nodes, the nodes of each all joined with each other.
fn groups(alloc: Global, count: u32, size: u32) -> Result<Vec<(u32, u32)>, AllocError>
    requires count { count ≤ 250 }
    requires size { size ≤ 33 }
{
    let mut pairs = Vec::new(alloc);
    for group in 0..count {
        for node in 1..size {
            for other in 0..node {
                pairs.push((group * size + other, group * size + node))?;
            }
        }
    }
    Ok(pairs)
}

// Pipes from a hub, node 0, to so many others.
fn hub(alloc: Global, others: u32) -> Result<Vec<(u32, u32)>, AllocError> {
    let mut pairs = Vec::new(alloc);
    for other in 0..others {
        pairs.push((0, 1 + other))?;
    }
    Ok(pairs)
}

// A line takes its first node and the next but one, which joins the two between. A loop of five takes 0 and 2, and then 1, 3
// and 4 are all joined. A comb with teeth 3, 4 and 5 takes the two ends of its back and the middle tooth first. Pairs that
// stand twice, or the other way round, are one.
#[test]
fn takes_rounds_of_apart_nodes(rt: HostRuntime) -> Result<(), Fail> {
    let rows: [(u32, &[(u32, u32)], &[u32]); 5] = [
        (1, &[], &[0]),
        (4, &[(0, 1), (1, 2), (2, 3)], &[0, 2, 1, 3]),
        (4, &[(1, 0), (1, 2), (0, 1), (3, 2)], &[0, 2, 1, 3]),
        (
            5,
            &[(0, 1), (1, 2), (2, 3), (3, 4), (4, 0)],
            &[0, 2, 1, 3, 4],
        ),
        (
            6,
            &[(0, 1), (1, 2), (0, 3), (1, 4), (2, 5)],
            &[0, 2, 4, 1, 3, 5],
        ),
    ];
    for (nodes, pairs, want) in rows {
        assert_eq!(rt; ordered(&rt, rt.alloc(), nodes, pairs)?.as_slice(), want);
    }
    Ok(())
}

// Each end of a hub has one neighbour, so all go before it; its front has them all as children.
#[test]
fn hub_comes_last(rt: HostRuntime) -> Result<(), Fail> {
    let pairs = hub(rt.alloc(), 40)?;
    let tree = tree_of(&rt, rt.alloc(), 41, &pairs)??;
    assert_eq!(rt; tree.len(), 41);
    for front in 0..40u32 {
        assert_eq!(rt; tree.node(front), front + 1);
        assert_eq!(rt; tree.parent(front), Some(40));
    }
    assert_eq!(rt; tree.node(40), 0);
    assert_eq!(rt; tree.parent(40), None);
    assert_eq!(rt; tree.children(40).len(), 40);
    assert_eq!(rt; tree.entries(), 40 * 144 + 36);
    Ok(())
}

// Of 33 nodes that are all joined the first has 32 neighbours; of 32 none has more than 31.
#[test]
fn front_may_have_31_others(rt: HostRuntime) -> Result<(), Fail> {
    let many = groups(rt.alloc(), 1, 33)?;
    match ordered(&rt, rt.alloc(), 33, &many) {
        Err(OrderFault::Broad { node }) => assert_eq!(rt; node, 0),
        _ => assert!(rt; false, "not broad"),
    }
    let few = groups(rt.alloc(), 1, 32)?;
    assert_eq!(rt; ordered(&rt, rt.alloc(), 32, &few)?.len(), 32);
    Ok(())
}

// The line 0, 1, 2, 3 in the order 0, 2, 1, 3: nodes 0 and 2 have node 1, at place 2, for their parent.
#[test]
fn tree_of_a_line(rt: HostRuntime) -> Result<(), Fail> {
    let tree = tree_of(&rt, rt.alloc(), 4, &[(0, 1), (1, 2), (2, 3)])??;
    assert_eq!(rt; tree.order(), [0, 2, 1, 3].as_slice());
    let rows: [(u32, &[u32], &[u32]); 5] = [
        (0, &[2], &[]),
        (1, &[2, 3], &[]),
        (2, &[3], &[0, 1]),
        (3, &[], &[2]),
        (4, &[], &[]),
    ];
    for (front, later, children) in rows {
        assert_eq!(rt; tree.later(front), later);
        assert_eq!(rt; tree.children(front), children);
    }
    assert_eq!(rt;
        tree.rows(0),
        [0, 1, 2, 3, 4, 5, 12, 13, 14, 15, 16, 17].as_slice()
    );
    assert_eq!(rt;
        tree.node_parents(),
        [Some(2), Some(2), Some(3), None].as_slice()
    );
    assert_eq!(rt; tree.entries(), 144 + 324 + 144 + 36);
    Ok(())
}

// A group of 32 nodes that are all joined has 36 (1 + 4 + .. + 32^2) = 411,840 entries: 81 groups are within the limit.
#[test]
fn entries_are_limited(rt: HostRuntime) -> Result<(), Fail> {
    let most = groups(rt.alloc(), 81, 32)?;
    assert_eq!(rt;
        tree_of(&rt, rt.alloc(), 2592, &most)??.entries(),
        33_359_040
    );
    let over = groups(rt.alloc(), 82, 32)?;
    match tree_of(&rt, rt.alloc(), 2624, &over)? {
        Err(TreeFault::Entries) => {}
        _ => assert!(rt; false, "not too many"),
    }
    Ok(())
}
