//! The matrix of one node that six members of one stiffness hold, each in one freedom; the first two have a state.

use crate::bounds::{anchors, held_node};
use assembly::assemble;
use flex_interval::Iv;
use std::process::Abort;
use std::test::Fail;
use sym_blocks::SymBlocks;

const OPEN: bool = false;

const CLOSED: bool = true;

// The enclosure from 5 to 8 units has the middle 6 and the radius 2.
fn check_diagonal(
    rt: &impl Abort,
    middles: &SymBlocks,
    radii: &SymBlocks,
    freedom: u32,
    held: bool,
) {
    let (middle, radius) = if held { (6, 2) } else { (0, 0) };
    assert!(rt;
        middles.get(freedom, freedom) == middle,
        "the middle of {freedom}"
    );
    assert!(rt;
        radii.get(freedom, freedom) == radius,
        "the radius of {freedom}"
    );
}

// Of the members with a state only the closed ones are in the matrix, and none where no states are given.
#[test]
fn closed_members(rt: HostRuntime) -> Result<(), Fail> {
    let rows: [(&[bool], bool, bool); 5] = [
        (&[], false, false),
        (&[OPEN, OPEN], false, false),
        (&[CLOSED, OPEN], true, false),
        (&[OPEN, CLOSED], false, true),
        (&[CLOSED, CLOSED], true, true),
    ];
    for (closed, first, second) in rows {
        let structure = held_node(rt.alloc(), anchors(rt.alloc(), Iv { lo: 5, hi: 8 })?, 2)?;
        let (middles, radii) = assemble(rt.alloc(), &structure, closed)?;
        check_diagonal(&rt, &middles, &radii, 0, first);
        check_diagonal(&rt, &middles, &radii, 1, second);
        check_diagonal(&rt, &middles, &radii, 5, true);
        assert_eq!(rt; middles.get(0, 1), 0);
    }
    Ok(())
}
