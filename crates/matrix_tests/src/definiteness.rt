//! Verdicts on chains of nodes.
ghost use Rattle.std.specs.Prelude.{◌≡◌, ◌≤◌, IfOk, false, true};
ghost use Rattle.sym_blocks.specs.Matrix.{node_count};
ghost use Rattle.matrix_tests.specs.Entries.{AreEntries};

use crate::makers::{add, chain_factor, chain_matrix, check_entries};
use certificate::{CheckSpace, Verdict, check_definite};
use factor_data::NoMemory;
use std::alloc::Global;
use std::process::Abort;
use std::test::Fail;
use sym_blocks::SymBlocks;

// On the pattern of a chain, a diagonal that repeats from node to node.
fn diagonal(
    rt: &impl Abort,
    alloc: Global,
    nodes: u32,
    values: [u32; 6],
) -> Result<SymBlocks, NoMemory>
    requires { nodes ≤ 8000 }
    ensures { IfOk result (λ m. node_count m ≡ nodes) }
{
    let mut matrix = chain_matrix(alloc, nodes)?;
    for row in 0..6 * nodes {
        let value = values[(row % 6) as usize];
        add(rt, &mut matrix, row, row, i128::from(value));
    }
    Ok(matrix)
}

// A chain with so many joints, the middle matrix 2000 I and the shift 1024.
fn judged(
    rt: &impl Abort,
    alloc: Global,
    joints: u32,
    own: i64,
    below: i64,
    radii: [u32; 6],
) -> Result<Verdict, NoMemory>
    requires { joints ≤ 1000 }
{
    let nodes = joints + 1;
    let middle = diagonal(rt, alloc, nodes, [2000; 6])?;
    let radii = diagonal(rt, alloc, nodes, radii)?;
    check_entries(rt, &middle, nodes, true);
    check_entries(rt, &radii, nodes, false);
    verdict(alloc, &middle, &radii, nodes, own, below)
}

// By the factor of a chain.
fn verdict(
    alloc: Global,
    middle: &SymBlocks,
    radii: &SymBlocks,
    nodes: u32,
    own: i64,
    below: i64,
) -> Result<Verdict, NoMemory>
    requires some { 1 ≤ nodes }
    requires few { nodes ≤ 8000 }
    requires middle_nodes { node_count middle.now ≡ nodes }
    requires middle { AreEntries true middle.now }
    requires radii_nodes { node_count radii.now ≡ nodes }
    requires radii { AreEntries false radii.now }
{
    let g = chain_factor(alloc, nodes, own, below)?;
    let mut space = CheckSpace::new(alloc, &g)?;
    Ok(check_definite(middle, radii, &g, 1024, &mut space))
}

// The root of 976 * 2^52 is 2,096,547,933.9.
#[test]
fn judges_a_chain(rt: HostRuntime) -> Result<(), Fail> {
    for (joints, own, below, radii, want) in [
        (0, 2_096_547_933, 0, [0; 6], Verdict::Yes { lambda: 1023 }),
        (
            0,
            2_096_547_933,
            0,
            [24, 0, 100, 0, 0, 0],
            Verdict::Yes { lambda: 923 },
        ),
        (0, 2_096_547_933, 0, [1024; 6], Verdict::No { row: 0 }),
        (
            0,
            2_096_547_933,
            0,
            [0, 0, 0, 0, 1024, 1024],
            Verdict::No { row: 4 },
        ),
        (0, i64::MAX, 0, [0; 6], Verdict::No { row: 0 }),
        (499, 2_096_547_933, 1, [1; 6], Verdict::Yes { lambda: 1022 }),
    ] {
        assert!(rt; joints <= 1000);
        let verdict = judged(&rt, rt.alloc(), joints, own, below, radii)?;
        assert!(rt; verdict == want, "of {joints} joints");
    }
    Ok(())
}
