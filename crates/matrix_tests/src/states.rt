//! One node with a spring in each freedom, and a stop in the first: displacements under a state of the stop, and the bounds
//! around them.
ghost use Rattle.std.specs.Prelude.{◌≡◌, length, IfOk, All};
ghost use Rattle.matrix_tests.specs.Anchors.{IsAnchor};

use crate::bounds::{LINEAR, anchor, check_ends, check_moderate, held_node, push_anchors};
use crate::makers::chain_factor;
use crate::refinement::check_diagonal;
use certificate::enclose;
use flex_interval::{Iv, point};
use member_set::{Law, Member};
use solve::candidate;
use std::alloc::{AllocError, Global};
use std::test::Fail;

// A spring gives as many units of force as it moves, and the stop three times as many.
const SPRING: Iv = Iv {
    lo: 1 << 36,
    hi: 1 << 36,
};

const STOP: Iv = Iv {
    lo: 3 << 36,
    hi: 3 << 36,
};

// The stop, then the springs.
fn stop_and_springs(alloc: Global) -> Result<Vec<Member>, AllocError>
    ensures seven { IfOk result (λ v. length v.items ≡ 7) }
    ensures anchors { IfOk result (λ v. All IsAnchor v.items) }
{
    let mut members = Vec::new(alloc);
    members.push(anchor(0, STOP))?;
    push_anchors(&mut members, SPRING)?;
    Ok(members)
}

// The factor has 2^44 on its diagonal for the springs alone, and twice that for the first freedom with the stop; no other freedom
// has a load. Pressed, four times the displacement is the load of 5000 and three times the gap of 1000. Lifted, the spring pulls
// alone. A stop that is just touched has no force, whichever state is tried. These are settled: around them the bounds are
// points, and tell the state. By a state that isn't so displacements follow all the same: the stop pulls, or the spring carries
// all.
#[test]
fn candidates_under_states(rt: HostRuntime) -> Result<(), Fail> {
    for (gap, load, closed, own, u, settled) in [
        (1000, 5000, true, 1 << 45, 2000, Some(true)),
        (1000, -700, false, 1 << 44, -700, Some(false)),
        (0, 0, true, 1 << 45, 0, Some(false)),
        (1000, 1000, true, 1 << 45, 1000, Some(false)),
        (1000, 1000, false, 1 << 44, 1000, Some(false)),
        (1000, -700, true, 1 << 45, 575, None),
        (1000, 5000, false, 1 << 44, 5000, None),
    ] {
        let structure = held_node(rt.alloc(), stop_and_springs(rt.alloc())?, 1)?;
        let factor = chain_factor(rt.alloc(), 1, own, 0)?;
        check_diagonal(&rt, &factor);
        let stop = Law::Oneway {
            gap: Iv { lo: gap, hi: gap },
        };
        let laws = [stop, LINEAR, LINEAR, LINEAR, LINEAR, LINEAR, LINEAR];
        let mut loads = [point(0); 6];
        loads[0] = Iv { lo: load, hi: load };
        let found = candidate(rt.alloc(), &structure, &laws, &[closed], &loads, &factor)?;
        assert!(rt; found.as_slice() == [u, 0, 0, 0, 0, 0].as_slice());
        if let Some(state) = settled {
            let at = [u, 0, 0, 0, 0, 0];
            check_moderate(&rt, &at);
            let answer = enclose(rt.alloc(), &structure, &laws, &loads, &at, 1)?;
            assert!(rt; answer.closed.as_slice() == [state].as_slice());
            let none = (0, 0);
            let stopped = load.checked_sub(u).expect(&rt, "the stop's force");
            check_ends(
                &rt,
                answer.force.as_slice(),
                &[(stopped, stopped), (u, u), none, none, none, none, none],
            );
        }
    }
    Ok(())
}
