//! A quarter bend, held at FROM and loaded at TO by unit forces and moments in its plane and across it, and the polygon of 64
//! straights in its place: how far the end gives, by what each member carries.
//!
//! The bend runs from the origin along x, then turns to y. With the angle p from its beginning, the moment in the plane is
//! -R cos p of a force along x and R (1 - sin p) of one along y; of a force along z the torque is R (1 - sin p) and the bending
//! R cos p. Integrated by hand from 0 to pi / 2:
//!
//! x x: k R^3 / EI pi / 4 + R / EA pi / 4               z z: k R^3 / EI pi / 4 + R^3 / GJ (3 pi / 4 - 2)
//! y y: k R^3 / EI (3 pi / 4 - 2) + R / EA pi / 4       z rx: R^2 / 2 (k / EI + 1 / GJ)
//! x y: -k R^3 / 2 EI + R / 2 EA                        z ry: -k R^2 / EI pi / 4 + R^2 / GJ (1 - pi / 4)
//! x rz: -k R^2 / EI                                    rx rx, ry ry: R pi / 4 (k / EI + 1 / GJ)
//! y rz: k R^2 / EI (pi / 2 - 1)                        rx ry: R / 2 (1 / GJ - k / EI)
//! rz rz: k R pi / 2 EI
use crate::bends::{
    LONG_WAY as LONG, SHORT_WAY as SHORT, flexible_quarter, long_quarter, quarter_members,
    stiff_quarter,
};
use crate::makers::model;
use crate::polygon::POLYGON;
use flex_interval::{Iv, IvFault, add, div, mul, point, ratio};
use member_pairs::{cross, difference, negative, stretched};
use member_set::Member;
use model_types::Node;
use std::process::Abort;
use structure::build;

// A force and a moment, in units of 2^-56.
#[derive(Clone, Copy)]
struct Load {
    force: [Iv; 3],
    moment: [Iv; 3],
}

// What of two loads the members leave, and the work of one on the displacements of the other, in units of 2^-92 N m.
#[derive(Clone, Copy)]
struct Left {
    first: Load,
    second: Load,
    work: Iv,
}

fn dot(a: &[Iv; 3], b: &[Iv; 3]) -> Result<Iv, IvFault> {
    let [a_x, a_y, a_z] = *a;
    let [b_x, b_y, b_z] = *b;
    let sum = add(mul(a_x, b_x, 56)?, mul(a_y, b_y, 56)?)?;
    add(sum, mul(a_z, b_z, 56)?)
}

fn translation(member: &Member) -> [Iv; 3] {
    let w = member.w;
    [w[6], w[7], w[8]]
}

fn rotation(member: &Member) -> [Iv; 3] {
    let w = member.w;
    [w[9], w[10], w[11]]
}

fn work_of(member: &Member, first: Iv, second: Iv) -> Result<Iv, IvFault> {
    div(mul(first, second, 56)?, member.kappa, 56)
}

// A member carries what acts along its translation at TO, and the moment of that is no longer left.
fn without_force(member: &Member, load: &Load) -> Result<(Iv, Load), IvFault> {
    let carried = dot(&translation(member), &load.force)?;
    let arm = stretched(carried, &rotation(member))?;
    let rest = Load {
        force: load.force,
        moment: difference(&load.moment, &arm)?,
    };
    Ok((carried, rest))
}

fn carry_force(member: &Member, left: &Left) -> Result<Left, IvFault> {
    let (first, first_rest) = without_force(member, &left.first)?;
    let (second, second_rest) = without_force(member, &left.second)?;
    Ok(Left {
        first: first_rest,
        second: second_rest,
        work: add(left.work, work_of(member, first, second)?)?,
    })
}

// Then a member without translation carries what is left about its rotation at TO.
fn carry_moment(member: &Member, left: &Left) -> Result<Left, IvFault> {
    let [x, y, z] = translation(member);
    if x != NOTHING || y != NOTHING || z != NOTHING {
        return Ok(*left);
    }
    let first = dot(&rotation(member), &left.first.moment)?;
    let second = dot(&rotation(member), &left.second.moment)?;
    Ok(Left {
        work: add(left.work, work_of(member, first, second)?)?,
        ..*left
    })
}

// The work of two loads at TO of an element.
fn work_at_end(members: &[Member], first: &Load, second: &Load) -> Result<Iv, IvFault> {
    let mut left = Left {
        first: *first,
        second: *second,
        work: NOTHING,
    };
    for member in members {
        left = carry_force(member, &left)?;
    }
    turned(members, &left)
}

fn turned(members: &[Member], left: &Left) -> Result<Iv, IvFault> {
    let mut left = *left;
    for member in members {
        left = carry_moment(member, &left)?;
    }
    Ok(left.work)
}

const NOTHING: Iv = Iv { lo: 0, hi: 0 };

// A force of 1 N along an axis, or a moment of 1 N m about one.
fn unit(freedom: usize) -> Load {
    let one = point(1 << 56);
    let part = |place| if place == freedom { one } else { NOTHING };
    Load {
        force: [part(0), part(1), part(2)],
        moment: [part(3), part(4), part(5)],
    }
}

// In units of 10^-15 m or rad.
fn is_about(rt: &impl Abort, work: Iv, wanted: i64, error: u64) {
    let found = ratio(work, 1_000_000_000_000_000, 1 << 92).expect(rt, "a number");
    assert!(rt; i128::from(wanted) - i128::from(error) <= found.lo);
    assert!(rt; found.hi <= i128::from(wanted) + i128::from(error));
}

// How far the end gives along a freedom under a unit load along another: of a radius of 229 mm with k = 1 and with k = 6.582563,
// and of a radius of 1.5 m with k = 1.
struct Row {
    first: usize,
    second: usize,
    stiff: i64,
    flexible: i64,
    long: i64,
}

const ROWS: [Row; 12] = [
    Row {
        first: 0,
        second: 0,
        stiff: 4_274_885,
        flexible: 26_745_350,
        long: 1_132_852_535,
    },
    Row {
        first: 1,
        second: 1,
        stiff: 2_075_243,
        flexible: 12_266_069,
        long: 514_666_374,
    },
    Row {
        first: 0,
        second: 1,
        stiff: -2_403_461,
        flexible: -16_708_604,
        long: -719_113_254,
    },
    Row {
        first: 0,
        second: 5,
        stiff: -22_379_637,
        flexible: -147_315_382,
        long: -960_206_385,
    },
    Row {
        first: 1,
        second: 5,
        stiff: 12_774_215,
        flexible: 84_087_079,
        long: 548_082_277,
    },
    Row {
        first: 5,
        second: 5,
        stiff: 153_510_268,
        flexible: 1_010_491_096,
        long: 1_005_525_775,
    },
    Row {
        first: 2,
        second: 2,
        stiff: 6_398_233,
        flexible: 28_868_698,
        long: 1_798_155_933,
    },
    Row {
        first: 2,
        second: 3,
        stiff: 25_736_582,
        flexible: 88_204_455,
        long: 1_104_237_342,
    },
    Row {
        first: 2,
        second: 4,
        stiff: -11_333_401,
        flexible: -109_457_706,
        long: -486_263_661,
    },
    Row {
        first: 3,
        second: 3,
        stiff: 176_536_808,
        flexible: 605_027_222,
        long: 1_156_354_641,
    },
    Row {
        first: 3,
        second: 4,
        stiff: 14_659_151,
        flexible: -258_126_319,
        long: 96_020_638,
    },
    Row {
        first: 4,
        second: 4,
        stiff: 176_536_808,
        flexible: 605_027_222,
        long: 1_156_354_641,
    },
];

fn give(rt: &impl Abort, members: &[Member], row: &Row, wanted: i64) {
    let (first, second) = (unit(row.first), unit(row.second));
    let work = work_at_end(members, &first, &second).expect(rt, "the work");
    is_about(rt, work, wanted, 1);
}

#[test]
fn quarter_bends(rt: HostRuntime) {
    let stiff = quarter_members(&rt, &stiff_quarter(), &SHORT);
    let flexible = quarter_members(&rt, &flexible_quarter(), &SHORT);
    let long = quarter_members(&rt, &long_quarter(), &LONG);
    for row in &ROWS {
        give(&rt, &stiff, row, row.stiff);
        give(&rt, &flexible, row, row.flexible);
        give(&rt, &long, row, row.long);
    }
}

// ---- the polygon

// The load at `end` moved to `node`.
fn moved(load: &Load, node: &Node, end: &Node) -> Result<Load, IvFault> {
    let arm = [
        metres(node.x, end.x)?,
        metres(node.y, end.y)?,
        metres(node.z, end.z)?,
    ];
    let moment = cross(&arm, &load.force)?;
    let opposite = negative(&moment);
    Ok(Load {
        force: load.force,
        moment: difference(&load.moment, &opposite)?,
    })
}

// In units of 2^-56 m.
fn metres(from: i64, to: i64) -> Result<Iv, IvFault> {
    ratio(point(i128::from(to) - i128::from(from)), 1 << 56, 1_000_000)
}

// The work of two loads at the end of the chain on its straight with these members, that ends at `node`.
fn work_on(
    members: &[Member],
    node: &Node,
    end: &Node,
    first: &Load,
    second: &Load,
) -> Result<Iv, IvFault> {
    work_at_end(
        members,
        &moved(first, node, end)?,
        &moved(second, node, end)?,
    )
}

// Of all 64 straights, eight members each.
fn work_on_chain(
    rt: &impl Abort,
    members: &[Member],
    nodes: &[Node],
    row: &Row,
) -> Result<Iv, IvFault> {
    assert!(rt; members.len() == 512 && nodes.len() == 65);
    let (first, second) = (unit(row.first), unit(row.second));
    let mut work = NOTHING;
    for number in 0..64 {
        let own = &members[8 * number..8 * number + 8];
        let more = work_on(own, &nodes[number + 1], &nodes[64], &first, &second)?;
        work = add(work, more)?;
    }
    Ok(work)
}

// Its nodes lie on the arc, so it runs inside it, by up to a 13,000th of R. The bend without k gives the same to a 5,000th.
#[test]
fn sixty_four_straights(rt: HostRuntime) {
    let model = model(&rt, rt.alloc(), &[POLYGON]);
    let built = build(rt.alloc(), &model).expect(&rt, "a structure");
    for row in &ROWS {
        let work = work_on_chain(&rt, built.members.as_slice(), model.nodes(), row);
        let work = work.expect(&rt, "the work");
        is_about(&rt, work, row.long, row.long.unsigned_abs() / 5_000);
    }
}
