//! The members of restraints along and about a direction, and which of them have states, by hand.
use crate::makers::model;
use member_set::Member;
use std::alloc::Global;
use std::process::Abort;
use structure::build;

// A straight on an anchor: 14 members before those of a further restraint of its other end.
const PIPE: &str = "node a 0 0 0
node b 1000000 0 0
straight p a b s
anchor A a - -
";

// A restraint, its stiffness in 2^-20 N/m, its first six shape numbers in 2^-56, rounded down and up, and whether it is open or
// closed.
struct Row {
    line: &'static str,
    kappa: i128,
    shape: [(i128, i128); 6],
    contact: bool,
}

const NONE: (i128, i128) = (0, 0);

// 1 and -1.
const ONE: (i128, i128) = (72_057_594_037_927_936, 72_057_594_037_927_936);

const MINUS_ONE: (i128, i128) = (-72_057_594_037_927_936, -72_057_594_037_927_936);

// 3/5, 4/5, and the root of 1/3.
const THREE_FIFTHS: (i128, i128) = (43_234_556_422_756_761, 43_234_556_422_756_762);

const FOUR_FIFTHS: (i128, i128) = (57_646_075_230_342_348, 57_646_075_230_342_349);

const DIAGONAL: (i128, i128) = (41_602_471_314_954_466, 41_602_471_314_954_467);

const ROWS: [Row; 8] = [
    Row {
        line: "linear G b 0 0 -5 -\n",
        kappa: 1_048_576_000_000_000,
        shape: [NONE, NONE, MINUS_ONE, NONE, NONE, NONE],
        contact: false,
    },
    Row {
        line: "linear G b 3 4 0 7\n",
        kappa: 7_340_032,
        shape: [THREE_FIFTHS, FOUR_FIFTHS, NONE, NONE, NONE, NONE],
        contact: false,
    },
    Row {
        line: "linear G b 1000000 1000000 1000000 2000000000000\n",
        kappa: 2_097_152_000_000_000_000,
        shape: [DIAGONAL, DIAGONAL, DIAGONAL, NONE, NONE, NONE],
        contact: false,
    },
    Row {
        line: "twist G b 0 1 0 -\n",
        kappa: 1_048_576_000_000_000,
        shape: [NONE, NONE, NONE, NONE, ONE, NONE],
        contact: false,
    },
    Row {
        line: "twist G b 4 0 3 1\n",
        kappa: 1_048_576,
        shape: [NONE, NONE, NONE, FOUR_FIFTHS, NONE, THREE_FIFTHS],
        contact: false,
    },
    Row {
        line: "oneway G b 0 0 -1 1000 -\n",
        kappa: 1_048_576_000_000_000,
        shape: [NONE, NONE, MINUS_ONE, NONE, NONE, NONE],
        contact: true,
    },
    Row {
        line: "gap G b 3 4 0 0 7\n",
        kappa: 7_340_032,
        shape: [THREE_FIFTHS, FOUR_FIFTHS, NONE, NONE, NONE, NONE],
        contact: false,
    },
    Row {
        line: "hanger G b 20000 500000\n",
        kappa: 20_971_520_000,
        shape: [NONE, NONE, ONE, NONE, NONE, NONE],
        contact: false,
    },
];

// A gap on both sides of a direction.
const SIDES: &str = "gap G b 3 4 0 1000 7\n";

// -3/5 and -4/5.
const MINUS_THREE_FIFTHS: (i128, i128) = (-43_234_556_422_756_762, -43_234_556_422_756_761);

const MINUS_FOUR_FIFTHS: (i128, i128) = (-57_646_075_230_342_349, -57_646_075_230_342_348);

#[test]
fn directions(rt: HostRuntime) {
    for row in &ROWS {
        direction(&rt, rt.alloc(), row);
    }
}

fn direction(rt: &impl Abort, alloc: Global, row: &Row) {
    let m = model(rt, alloc, &[PIPE, row.line]);
    let built = build(alloc, &m).expect(rt, "a structure");
    let members = built.members.as_slice();
    assert!(rt; members.len() == 15);
    holds(rt, &members[14], row.kappa, &row.shape);
    let contacts: &[u32] = if row.contact { &[14] } else { &[] };
    assert!(rt; built.unilateral.as_slice() == contacts);
}

#[test]
fn both_sides(rt: HostRuntime) {
    let m = model(&rt, rt.alloc(), &[PIPE, SIDES]);
    let built = build(rt.alloc(), &m).expect(&rt, "a structure");
    let members = built.members.as_slice();
    assert!(rt; members.len() == 16);
    let first = [THREE_FIFTHS, FOUR_FIFTHS, NONE, NONE, NONE, NONE];
    holds(&rt, &members[14], 7_340_032, &first);
    let second = [
        MINUS_THREE_FIFTHS,
        MINUS_FOUR_FIFTHS,
        NONE,
        NONE,
        NONE,
        NONE,
    ];
    holds(&rt, &members[15], 7_340_032, &second);
    assert!(rt; built.unilateral.as_slice() == [14, 15].as_slice());
}

// The member holds the second node alone, with that stiffness and those shape numbers.
fn holds(rt: &impl Abort, member: &Member, kappa: i128, shape: &[(i128, i128); 6]) {
    assert!(rt; member.n1 == 1 && member.n2 == 1);
    assert!(rt; member.kappa.lo == kappa && member.kappa.hi == kappa);
    for place in 0..6 {
        let (lo, hi) = shape[place];
        let found = &member.w[place];
        assert!(rt; found.lo == lo && found.hi == hi);
    }
}
