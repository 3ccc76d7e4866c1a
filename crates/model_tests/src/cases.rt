//! A cantilever of 1 m: at rest, with a load at its tip, with a load that is too large, on an anchor that is too stiff, and with
//! its tip on a support that holds one way.
ghost use Rattle.std.specs.Prelude.{◌<◌};

use crate::makers::answers_of;
use model_types::{Bounds, CaseAnswer, Cause, NodeId, RestraintId};
use std::alloc::Global;
use std::process::Abort;

// A straight along the x axis from its anchor, at rest, with 1000 N down at its tip, and with 10^9 N up there.
const CANTILEVER: &str = "node a 0 0 0
node b 1000000 0 0
straight p a b s
case rest 0 0 0 0 0 0
case tip 0 0 0 0 0 0
case great 0 0 0 0 0 0
force tip b 0 0 -1000000 0 0 0
force great b 0 0 1000000000000 0 0 0
";

// The answers of the cantilever on an anchor.
fn found(rt: &impl Abort, alloc: Global, anchor: &str) -> Vec<CaseAnswer> {
    answers_of(rt, alloc, &[CANTILEVER, anchor])
}

// 10^9 nm are a m, and 10^3 mN are a N.
const NANOMETRES: (i128, u32) = (1_000_000_000, 56);

const MILLINEWTONS: (i128, u32) = (1000, 40);

// A number rounded down to a unit.
fn floor(rt: &impl Abort, number: i128, unit: (i128, u32)) -> i128
    requires { unit.1 < 100 }
{
    number.checked_mul(unit.0).expect(rt, "a product") >> unit.1
}

// A number rounded up to a unit.
fn ceiling(rt: &impl Abort, number: i128, unit: (i128, u32)) -> i128
    requires { unit.1 < 100 }
{
    let negated = number.checked_neg().expect(rt, "a number");
    floor(rt, negated, unit)
        .checked_neg()
        .expect(rt, "a number")
}

// The bounds at a place, rounded outward to a unit.
fn outward(rt: &impl Abort, bounds: &[Bounds], place: usize, unit: (i128, u32)) -> (i128, i128)
    requires { unit.1 < 100 }
{
    assert!(rt; place < bounds.len());
    (
        floor(rt, bounds[place].lo, unit),
        ceiling(rt, bounds[place].hi, unit),
    )
}

// Bounds rounded outward to a unit are these.
fn bound(rt: &impl Abort, bounds: &[Bounds], unit: (i128, u32), outward: &[(i128, i128)])
    requires { unit.1 < 100 }
{
    assert!(rt; bounds.len() == outward.len());
    for place in 0..bounds.len() {
        let (lo, hi) = outward[place];
        assert!(rt; floor(rt, bounds[place].lo, unit) == lo, "a lower bound");
        assert!(rt; ceiling(rt, bounds[place].hi, unit) == hi, "an upper bound");
    }
}

// The case is certified with these bounds.
fn is_bounded(
    rt: &impl Abort,
    answer: &CaseAnswer,
    displacements: &[(i128, i128)],
    forces: &[(i128, i128)],
    closed: &[bool],
) {
    match answer {
        CaseAnswer::Certified { u, loads, states } => {
            bound(rt, u.as_slice(), NANOMETRES, displacements);
            bound(rt, loads.as_slice(), MILLINEWTONS, forces);
            assert!(rt; states.as_slice() == closed, "states");
        }
        CaseAnswer::Uncertified { .. } => assert!(rt; false, "no bounds"),
    }
}

// The cause of a case without bounds or a candidate.
fn cause_of(rt: &impl Abort, answer: &CaseAnswer) -> Option<Cause> {
    match answer {
        CaseAnswer::Uncertified { cause, guess } => {
            assert!(rt; guess.is_empty());
            Some(*cause)
        }
        CaseAnswer::Certified { .. } => None,
    }
}

// The bounds of 1 nm, or 1 mN, around 0, and around nothing else.
const AROUND: (i128, i128) = (-1, 1);

// The tip sinks by 575 micrometres and turns by 863 microradians; its anchor gives way by a ten-millionth.
#[test]
fn tip(rt: HostRuntime) {
    let found = found(&rt, rt.alloc(), "anchor A a - -\n");
    judge_tip(&rt, found.as_slice());
}

fn judge_tip(rt: &impl Abort, found: &[CaseAnswer]) {
    assert!(rt; found.len() == 3);
    is_bounded(rt, &found[0], &[(0, 0); 12], &[(0, 0); 6], &[]);
    is_bounded(
        rt,
        &found[1],
        &[
            AROUND,
            AROUND,
            (-101, -99),
            AROUND,
            (99, 101),
            AROUND,
            AROUND,
            AROUND,
            (-575_286, -575_285),
            AROUND,
            (862_728, 862_729),
            AROUND,
        ],
        &[
            AROUND,
            AROUND,
            (-1_000_001, -999_999),
            AROUND,
            (999_999, 1_000_001),
            AROUND,
        ],
        &[],
    );
    let cause = cause_of(rt, &found[2]);
    assert!(rt;
        matches!(
            cause,
            Some(Cause::WidthLoad {
                node: NodeId(1),
                freedom: 2
            })
        )
    );
}

// The row of a stiffness of 2 * 10^12 N/m is wide in every case.
#[test]
fn stiff_anchor(rt: HostRuntime) {
    let found = found(&rt, rt.alloc(), "anchor A a 2000000000000 -\n");
    judge_stiff(&rt, found.as_slice());
}

fn judge_stiff(rt: &impl Abort, found: &[CaseAnswer]) {
    assert!(rt; found.len() == 3);
    for answer in found {
        let cause = cause_of(rt, answer);
        assert!(rt;
            matches!(
                cause,
                Some(Cause::WidthMatrix {
                    node: NodeId(0),
                    freedom: 0
                })
            )
        );
    }
}

// The cantilever on its anchor at rest, with 1000 N down at its tip, and with 1000 N up there.
const SUPPORTED: &str = "node a 0 0 0
node b 1000000 0 0
straight p a b s
anchor A a - -
case rest 0 0 0 0 0 0
case tip 0 0 0 0 0 0
case up 0 0 0 0 0 0
force tip b 0 0 -1000000 0 0 0
force up b 0 0 1000000 0 0 0
";

// The answers of the cantilever with a support at its tip.
fn supported(rt: &impl Abort, alloc: Global, support: &str) -> Vec<CaseAnswer> {
    answers_of(rt, alloc, &[SUPPORTED, support])
}

// A support under the tip touches at rest without force, which counts as open; it takes all but some 2 N of what pushes it
// down, and lets the tip go up as if it weren't there.
#[test]
fn support(rt: HostRuntime) {
    let found = supported(&rt, rt.alloc(), "oneway R b 0 0 -1 0 -\n");
    assert!(&rt; found.len() == 3);
    is_bounded(&rt, &found[0], &[(0, 0); 12], &[(0, 0); 7], &[false]);
    judge_closed(&rt, &found[1]);
    judge_open(&rt, &found[2]);
}

fn judge_closed(rt: &impl Abort, answer: &CaseAnswer) {
    match answer {
        CaseAnswer::Certified { u, loads, states } => {
            assert!(rt;
                outward(rt, u.as_slice(), 8, NANOMETRES) == (-999, -998),
                "the tip"
            );
            let load = outward(rt, loads.as_slice(), 6, MILLINEWTONS);
            assert!(rt; load == (998_264, 998_265), "the support");
            assert!(rt; states.as_slice() == [true].as_slice(), "closed");
        }
        CaseAnswer::Uncertified { .. } => assert!(rt; false, "no bounds"),
    }
}

fn judge_open(rt: &impl Abort, answer: &CaseAnswer) {
    match answer {
        CaseAnswer::Certified { u, loads, states } => {
            assert!(rt;
                outward(rt, u.as_slice(), 8, NANOMETRES) == (575_285, 575_286),
                "the tip"
            );
            assert!(rt;
                outward(rt, u.as_slice(), 10, NANOMETRES) == (-862_729, -862_728),
                "its turn"
            );
            assert!(rt;
                outward(rt, loads.as_slice(), 6, MILLINEWTONS) == (0, 0),
                "the support"
            );
            assert!(rt; states.as_slice() == [false].as_slice(), "open");
        }
        CaseAnswer::Uncertified { .. } => assert!(rt; false, "no bounds"),
    }
}

// The same pushed down, with a gap of 1 mm under the tip: it doesn't reach it.
#[test]
fn wide_gap(rt: HostRuntime) {
    let found = supported(&rt, rt.alloc(), "gap G b 0 0 1 1000 -\n");
    assert!(&rt; found.len() == 3);
    match &found[1] {
        CaseAnswer::Certified { u, states, .. } => {
            let tip = outward(&rt, u.as_slice(), 8, NANOMETRES);
            assert!(&rt; tip == (-575_286, -575_285), "the tip");
            assert!(&rt;
                states.as_slice() == [false, false].as_slice(),
                "open on both sides"
            );
        }
        CaseAnswer::Uncertified { .. } => assert!(&rt; false, "no bounds"),
    }
}

// A number rounded to the nearest unit.
fn nearest(rt: &impl Abort, number: i128, unit: (i128, u32)) -> i128
    requires { unit.1 < 100 }
{
    let twice = number.checked_mul(2).expect(rt, "a number");
    let below = floor(rt, twice, unit);
    below.checked_add(1).expect(rt, "a sum") >> 1
}

// A support at the side of the tip touches without force in a loaded case, so that its state isn't certain: the displacements
// that were reached stand beside the cause.
#[test]
fn touching(rt: HostRuntime) {
    let found = supported(&rt, rt.alloc(), "oneway S b 0 1 0 0 -\n");
    assert!(&rt; found.len() == 3);
    judge_touching(&rt, &found[1]);
}

fn judge_touching(rt: &impl Abort, answer: &CaseAnswer) {
    let reached = [0, 0, -100, 0, 100, 0, 0, 0, -575_286, 0, 862_728, 0];
    match answer {
        CaseAnswer::Uncertified { cause, guess } => {
            assert!(rt;
                matches!(
                    *cause,
                    Cause::State {
                        restraint: RestraintId(1),
                        minus: false
                    }
                ),
                "the cause"
            );
            let guess = guess.as_slice();
            assert!(rt; guess.len() == 12);
            for row in 0..12 {
                assert!(rt;
                    nearest(rt, guess[row], NANOMETRES) == reached[row],
                    "the guess"
                );
            }
        }
        CaseAnswer::Certified { .. } => assert!(rt; false, "bounds"),
    }
}
