//! One node without members, whose residual is its load whatever its displacements: each turn adds the same.
ghost use Rattle.std.specs.Prelude.{ℕ, pos, ◌<◌, ◌<ℤ◌};
ghost use Rattle.factor_data.specs.Columns.{factor_entry};

use crate::makers::{chain_factor, one_node};
use factor_data::Factor;
use flex_interval::Iv;
use solve::candidate;
use std::process::Abort;
use std::test::Fail;

const LOADS: [Iv; 6] = [
    Iv { lo: 1000, hi: 1000 },
    Iv { lo: -1, hi: -1 },
    Iv { lo: 0, hi: 0 },
    Iv { lo: 7, hi: 7 },
    Iv { lo: 0, hi: 0 },
    Iv {
        lo: 1 << 40,
        hi: 1 << 40,
    },
];

// The diagonal of a node's factor is above 0.
pub(crate) fn check_diagonal(rt: &impl Abort, factor: &Factor)
    ensures { (j : ℕ) → j < 6 → pos 0 <ℤ factor_entry factor.now j j }
{
    for j in 0..6 {
        assert!(rt; factor.get(j, j) > 0);
    }
}

// With the entries 2^44 of the factor the stiffness is 2^36, so that a load moves its row by as many units in each turn.
#[test]
fn eight_turns(rt: HostRuntime) -> Result<(), Fail> {
    let structure = one_node(
        rt.alloc(),
        Vec::new(rt.alloc()),
        Vec::new(rt.alloc()),
        Vec::new(rt.alloc()),
    )?;
    let factor = chain_factor(rt.alloc(), 1, 1 << 44, 0)?;
    check_diagonal(&rt, &factor);
    let u = candidate(rt.alloc(), &structure, &[], &[], &LOADS, &factor)?;
    assert!(rt; u.as_slice() == [8000, -8, 0, 56, 0, 8 << 40].as_slice());
    Ok(())
}
