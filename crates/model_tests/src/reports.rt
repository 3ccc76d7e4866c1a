//! Whole reports, as they are worked out by hand from the mechanics of a pipe of one metre.
ghost use Rattle.std.specs.Prelude.{◌≡◌, length, IsTrue, All};
ghost use Rattle.model_types.specs.Fits.{AreModest, FitsModel, IsCauseIn, IsGuess, IsGuessFor, IsModest};
ghost use Rattle.model_types.specs.MemberCounts.{restraints_member_count, restraints_state_count};

use crate::makers::model;
use model_types::{Bounds, CaseAnswer, Cause, ElementId, Model, NodeId, RestraintId, Sequence};
use report::bytes;
use std::alloc::Global;
use std::process::Abort;
use std::slice;

const NOTHING: Bounds = Bounds { lo: 0, hi: 0 };

// A pipe p of one metre, with an anchor A at its first node a.
const TO_B: &str = "node a 0 0 0\nnode b 1000000 0 0\nstraight p a b s\nanchor A a - -\n";

const TO_D: &str = "node a 0 0 0\nnode d 1000000 0 0\nstraight p a d s\nanchor A a - -\n";

fn is_modest(z: i128) -> bool
    ensures { IsTrue result → IsModest z }
{
    -(1 << 90) < z && z < 1 << 90
}

fn are_modest(bounds: &[Bounds]) -> bool
    ensures { IsTrue result → AreModest bounds.now }
{
    for b in bounds {
        if !is_modest(b.lo) || !is_modest(b.hi) {
            return false;
        }
    }
    true
}

fn are_all_modest(u: &[i128]) -> bool
    ensures { IsTrue result → All IsModest u.now }
{
    for z in u {
        if !is_modest(*z) {
            return false;
        }
    }
    true
}

fn is_candidate(m: &Model, u: &[i128]) -> bool
    ensures { IsTrue result → IsGuess m.now u.now }
{
    u.len() % 6 == 0 && u.len() / 6 == m.nodes().len() && are_all_modest(u)
}

fn is_beside(m: &Model, cause: &Cause, guess: &[i128]) -> bool
    ensures { IsTrue result → IsGuessFor m.now cause.now guess.now }
{
    match cause {
        Cause::State { .. } => is_candidate(m, guess),
        _ => guess.is_empty(),
    }
}

// How many loads and how many contact states the restraints of a model have.
fn counts(rt: &impl Abort, m: &Model) -> (usize, usize)
    ensures loads { result.0 ≡ restraints_member_count m.now.restraints }
    ensures states { result.1 ≡ restraints_state_count m.now.restraints }
{
    let (mut loads, mut states) = (0usize, 0usize);
    for restraint in m.restraints() {
        loads = loads
            .checked_add(restraint.kind.member_count())
            .expect(rt, "few loads");
        states = states
            .checked_add(restraint.kind.state_count())
            .expect(rt, "few states");
    }
    (loads, states)
}

fn is_cause_in(m: &Model, cause: &Cause) -> bool
    ensures { IsTrue result → IsCauseIn m.now cause.now }
{
    match *cause {
        Cause::WidthElement(element) => (element.0 as usize) < m.elements().len(),
        Cause::WidthFactor(node) => (node.0 as usize) < m.nodes().len(),
        Cause::WidthMatrix { node, freedom }
        | Cause::Pivot { node, freedom }
        | Cause::Margin { node, freedom }
        | Cause::WidthLoad { node, freedom } => {
            (node.0 as usize) < m.nodes().len() && freedom < 6
        }
        Cause::WidthSolve { .. } | Cause::Turns | Cause::WidthResidual => true,
        Cause::State { restraint, .. } => (restraint.0 as usize) < m.restraints().len(),
    }
}

fn certified(
    rt: &impl Abort,
    alloc: Global,
    m: &Model,
    u: &[Bounds],
    loads: &[Bounds],
    states: &[bool],
) -> CaseAnswer
    ensures { FitsModel m.now result }
{
    assert!(rt; u.len() % 6 == 0 && u.len() / 6 == m.nodes().len());
    let (load_count, state_count) = counts(rt, m);
    assert!(rt; loads.len() == load_count && states.len() == state_count);
    assert!(rt; are_modest(u));
    assert!(rt; are_modest(loads));
    CaseAnswer::Certified {
        u: Sequence::new(Vec::from_slice(alloc, u).expect(rt, "memory")),
        loads: Sequence::new(Vec::from_slice(alloc, loads).expect(rt, "memory")),
        states: Sequence::new(Vec::from_slice(alloc, states).expect(rt, "memory")),
    }
}

fn uncertified(
    rt: &impl Abort,
    alloc: Global,
    m: &Model,
    cause: Cause,
    guess: &[i128],
) -> CaseAnswer
    ensures { FitsModel m.now result }
{
    assert!(rt; is_cause_in(m, &cause));
    assert!(rt; is_beside(m, &cause, guess));
    let guess = Sequence::new(Vec::from_slice(alloc, guess).expect(rt, "memory"));
    CaseAnswer::Uncertified { cause, guess }
}

// The report of a model with one case.
fn expect_report(rt: &impl Abort, alloc: Global, m: &Model, answer: CaseAnswer, report: &str)
    requires { FitsModel m.now answer }
{
    assert!(rt; m.cases().len() == 1 && m.checks().is_empty());
    let written = bytes(alloc, m, slice::from_ref(&answer), &[]).expect(rt, "memory");
    assert!(rt; written.as_slice() == report.as_bytes());
}

// The report of a pipe to b with one case, and its answer.
fn expect_certified(
    rt: &impl Abort,
    alloc: Global,
    case: &str,
    u: &[Bounds],
    loads: &[Bounds],
    report: &str,
) {
    let m = model(rt, alloc, &[TO_B, case]);
    let answer = certified(rt, alloc, &m, u, loads, &[]);
    expect_report(rt, alloc, &m, answer, report);
}

const AT_REST: &str = "\
pipeflex report 1
model 2 1 1 1 0
case rest certified
node a 0 0 0 0 0 0 0 0 0 0 0 0
node b 0 0 0 0 0 0 0 0 0 0 0 0
restraint A 0 0 0 0 0 0 0 0 0 0 0 0
end
";

#[test]
fn a_case_at_rest(rt: HostRuntime) {
    let case = "case rest 0 0 0 0 0 0\n";
    expect_certified(
        &rt,
        rt.alloc(),
        case,
        &[NOTHING; 12],
        &[NOTHING; 6],
        AT_REST,
    );
}

const UNDER_A_LOAD: &str = "\
pipeflex report 1
model 2 1 1 1 0
case tip certified
node a -1 1 -1 1 -101 -99 -1 1 99 101 -1 1
node b -1 1 -1 1 -575286 -575285 -1 1 862728 862729 -1 1
restraint A -1 1 -1 1 -1000001 -999999 -1 1 999999 1000001 -1 1
end
";

// Three units of 2^-56 on both sides of a number.
fn about(z: i128) -> Bounds
    requires { IsModest z }
{
    Bounds {
        lo: z - 3,
        hi: z + 3,
    }
}

// A load of 1,000 N at the tip, whose reactions are 1,000 N and 1,000 N m. The tip sinks by the sum of 1 / 3EI and of what
// the anchor gives, and turns by 1 / 2EI and the anchor's turn.
#[test]
fn a_case_under_a_load(rt: HostRuntime) {
    let some = about(0);
    let u = [
        some,
        some,
        about(-7_205_759_404),
        some,
        about(7_205_759_404),
        some,
        some,
        some,
        about(-41_453_697_077_778),
        some,
        about(62_166_134_097_860),
        some,
    ];
    let newtons: i128 = 1_000 << 40;
    let loads = [
        some,
        some,
        Bounds {
            lo: -newtons - 3,
            hi: 3 - newtons,
        },
        some,
        Bounds {
            lo: newtons - 3,
            hi: newtons + 3,
        },
        some,
    ];
    let case = "case tip 0 0 0 0 0 0\n";
    expect_certified(&rt, rt.alloc(), case, &u, &loads, UNDER_A_LOAD);
}

// A one-way support S, a gap G and a gap T of 0, all at b.
const WITH_CONTACTS: &str =
    "oneway S b 0 0 1 0 -\ngap G b 0 1 0 5 -\ngap T b 1 0 0 0 -\ncase rest 0 0 0 0 0 0\n";

// The report of these contacts: by the states of S and of both sides of G, and the bounds of their loads and of T's.
fn expect_contacts(
    rt: &impl Abort,
    alloc: Global,
    loads: [Bounds; 4],
    states: [bool; 3],
    lines: &str,
) {
    let m = model(rt, alloc, &[TO_B, WITH_CONTACTS]);
    let report = format!(in alloc;
        "pipeflex report 1\nmodel 2 1 4 1 0\ncase rest certified\nnode a 0 0 0 0 0 0 0 0 0 0 0 0\nnode b 0 0 0 0 0 0 0 0 0 0 0 0\nrestraint A 0 0 0 0 0 0 0 0 0 0 0 0\n{lines}end\n"
    ).expect(rt, "memory");
    let [s, plus, minus, t] = loads;
    let all = [
        NOTHING, NOTHING, NOTHING, NOTHING, NOTHING, NOTHING, s, plus, minus, t,
    ];
    let answer = certified(rt, alloc, &m, &[NOTHING; 12], &all, &states);
    expect_report(rt, alloc, &m, answer, report.as_str());
}

const ONE_TO_TWO: Bounds = Bounds {
    lo: 1 << 40,
    hi: 2 << 40,
};

// A state stands before each load of a one-way support and of a gap, the side of its direction first; a gap of 0 has none.
#[test]
fn contacts_that_are_closed(rt: HostRuntime) {
    expect_contacts(
        &rt,
        rt.alloc(),
        [ONE_TO_TWO, NOTHING, about(1 << 40), about(0)],
        [true, false, true],
        "restraint S closed 1000 2000\nrestraint G open 0 0 closed 999 1001\nrestraint T -1 1\n",
    );
}

#[test]
fn contacts_that_are_open(rt: HostRuntime) {
    expect_contacts(
        &rt,
        rt.alloc(),
        [NOTHING, ONE_TO_TWO, NOTHING, ONE_TO_TWO],
        [false, true, false],
        "restraint S open 0 0\nrestraint G closed 1000 2000 open 0 0\nrestraint T 1000 2000\n",
    );
}

// The candidate of the same load, in 2^-56 m and rad.
const CANDIDATE: [i128; 12] = [
    0,
    0,
    -7_205_759_404,
    0,
    7_205_759_404,
    0,
    0,
    0,
    -41_453_725_043_703,
    0,
    62_166_103_989_153,
    0,
];

#[test]
fn a_contact_state_that_fails(rt: HostRuntime) {
    let m = model(
        &rt,
        rt.alloc(),
        &[TO_B, "linear S b 0 1 0 -\ncase tip 0 0 0 0 0 0\n"],
    );
    let report =
        "pipeflex report 1\nmodel 2 1 2 1 0\ncase tip uncertified state S plus\nguess a 0 0 -100 0 100 0\nguess b 0 0 -575286 0 862728 0\nend\n";
    let cause = Cause::State {
        restraint: RestraintId(1),
        minus: false,
    };
    let answer = uncertified(&rt, rt.alloc(), &m, cause, &CANDIDATE);
    expect_report(&rt, rt.alloc(), &m, answer, report);
}

// The report of a case without bounds or a candidate, for a cause in these words.
fn expect_cause(rt: &impl Abort, alloc: Global, m: &Model, cause: Cause, words: &str) {
    let report = format!(in alloc;
        "pipeflex report 1\nmodel 2 1 2 1 0\ncase rest uncertified {words}\nend\n"
    ).expect(rt, "memory");
    let answer = uncertified(rt, alloc, m, cause, &[]);
    expect_report(rt, alloc, m, answer, report.as_str());
}

#[test]
fn causes(rt: HostRuntime) {
    let m = model(
        &rt,
        rt.alloc(),
        &[TO_D, "linear S d 0 1 0 -\ncase rest 0 0 0 0 0 0\n"],
    );
    let (a, d) = (NodeId(0), NodeId(1));
    for (cause, words) in [
        (Cause::WidthElement(ElementId(0)), "width element p"),
        (
            Cause::WidthMatrix {
                node: a,
                freedom: 0,
            },
            "width matrix a ux",
        ),
        (
            Cause::Pivot {
                node: d,
                freedom: 0,
            },
            "pivot d ux",
        ),
        (Cause::WidthFactor(d), "width factor d"),
        (
            Cause::Margin {
                node: d,
                freedom: 5,
            },
            "margin d rz",
        ),
        (
            Cause::WidthLoad {
                node: d,
                freedom: 2,
            },
            "width load d uz",
        ),
        (Cause::WidthSolve { turn: 17 }, "width solve 17"),
        (Cause::Turns, "turns 200"),
        (Cause::WidthResidual, "width residual"),
    ] {
        expect_cause(&rt, rt.alloc(), &m, cause, words);
    }
}
