//! One node that six members of one stiffness hold, each in one freedom; the first can be one-way.
ghost use Rattle.std.specs.Prelude.{◌≡◌, ◌+◌, ◌^◌, ◌<◌, ◌≤◌, All, length, unsigned_abs, IfOk, OnOk, IsTrue};
ghost use Rattle.member_set.specs.Members.{IsBuilt, IsModerate, row_count, IsStiff, AreStiff};
ghost use Rattle.matrix_tests.specs.Anchors.{IsAnchor};

use crate::makers::{counted, one_node};
use certificate::{EncloseFault, Enclosure, enclose};
use flex_interval::{Iv, point};
use member_set::{Built, Law, Member};
use std::alloc::{AllocError, Global};
use std::process::Abort;
use std::test::Fail;

pub(crate) const LINEAR: Law = Law::Linear {
    offset: Iv { lo: 0, hi: 0 },
};

const TOUCHING: Law = Law::Oneway {
    gap: Iv { lo: 0, hi: 0 },
};

// A member that holds the node in one freedom.
pub(crate) fn anchor(freedom: usize, kappa: Iv) -> Member
    requires { freedom < 6 }
    ensures first { result.n1 ≡ 0 }
    ensures second { result.n2 ≡ 0 }
    ensures stiffness { result.kappa ≡ kappa }
{
    let mut w = [point(0); 12];
    w[freedom] = point(1 << 56);
    Member {
        n1: 0,
        n2: 0,
        kappa,
        w,
    }
}

// Adds a member of one stiffness in each freedom.
pub(crate) fn push_anchors(members: &mut Vec<Member>, kappa: Iv) -> Result<(), AllocError>
    requires stiff { IsStiff kappa }
    requires anchors { All IsAnchor members.old.items }
    ensures six { OnOk result (length members.new.items ≡ length members.old.items + 6) }
    ensures anchors { OnOk result (All IsAnchor members.new.items) }
{
    for freedom in 0..6usize {
        members.push(anchor(freedom, kappa))?;
    }
    Ok(())
}

pub(crate) fn anchors(alloc: Global, kappa: Iv) -> Result<Vec<Member>, AllocError>
    requires stiff { IsStiff kappa }
    ensures six { IfOk result (λ v. length v.items ≡ 6) }
    ensures anchors { IfOk result (λ v. All IsAnchor v.items) }
{
    let mut members = Vec::new(alloc);
    push_anchors(&mut members, kappa)?;
    Ok(members)
}

// The node that these members hold; the first of them, so many, have a state.
pub(crate) fn held_node(
    alloc: Global,
    members: Vec<Member>,
    states: u32,
) -> Result<Built, AllocError>
    requires anchors { All IsAnchor members.items }
    requires some_members { length members.items ≤ 7 }
    requires few { states ≤ length members.items }
    ensures built { IfOk result (λ b. IsBuilt b) }
    ensures stiff { IfOk result (λ b. AreStiff b) }
    ensures members { IfOk result (λ b. length b.members ≡ length members.items) }
    ensures rows { IfOk result (λ b. row_count b ≡ 6) }
{
    let numbers = counted(alloc, 0, members.len() as u32)?;
    one_node(alloc, members, numbers, counted(alloc, 0, states)?)
}

// How many states a member with this law has.
fn states_of(law: &Law) -> u32
    ensures { result ≤ 1 }
{
    match law {
        Law::Linear { .. } => 0,
        Law::Oneway { .. } => 1,
    }
}

// Displacements are at most 2^60 in size.
pub(crate) fn check_moderate(rt: &impl Abort, u: &[i128])
    ensures { IsModerate u.now }
{
    for z in u {
        assert!(rt; is_moderate(*z));
    }
}

fn is_moderate(z: i128) -> bool
    ensures { IsTrue result → unsigned_abs z ≤ 2 ^ 60 }
{
    z.unsigned_abs() <= 1 << 60
}

// The bounds around displacements of the node.
fn enclosed(
    rt: &impl Abort,
    alloc: Global,
    first: Law,
    kappa: Iv,
    loads: &[Iv],
    u: &[i128],
    lambda: i128,
) -> Result<Enclosure, EncloseFault> {
    assert!(rt; kappa.lo >= 1 && kappa.hi < 1 << 61 && lambda >= 1);
    assert!(rt; loads.len() == 6 && u.len() == 6);
    check_moderate(rt, u);
    let structure = held_node(alloc, anchors(alloc, kappa)?, states_of(&first))?;
    let laws = [first, LINEAR, LINEAR, LINEAR, LINEAR, LINEAR];
    enclose(alloc, &structure, &laws, loads, u, lambda)
}

// The intervals have these ends.
pub(crate) fn check_ends(rt: &impl Abort, intervals: &[Iv], ends: &[(i128, i128)]) {
    assert!(rt; intervals.len() == ends.len());
    for k in 0..ends.len() {
        assert!(rt; has_ends(intervals[k], ends[k]), "at {k}");
    }
}

fn has_ends(e: Iv, ends: (i128, i128)) -> bool {
    e.lo == ends.0 && e.hi == ends.1
}

const LOADS: [Iv; 6] = [
    Iv {
        lo: 15_728_642,
        hi: 15_728_642,
    },
    Iv { lo: -12, hi: -12 },
    Iv {
        lo: -3_145_731,
        hi: -3_145_731,
    },
    Iv { lo: 84, hi: 84 },
    Iv { lo: 0, hi: 0 },
    Iv { lo: 1, hi: 1 },
];

// With 3 N/m, or one unit less, the forces are 15 and -3 millions of 2^-40 N, to five units and to one. What is left is at most
// 7, 12, 4, 84, 0 and 1 in size: 7266 as a sum of squares, between 85^2 and 86^2. Over 1000 units of stiffness that makes
// 5,909,874,999.3 units of displacement, and 86 times the root of 3145.728 is 4823.5 units of force.
#[test]
fn around_a_node(rt: HostRuntime) -> Result<(), Fail> {
    let kappa = Iv {
        lo: 3_145_727,
        hi: 3_145_728,
    };
    let u = [5 << 36, 0, -(1 << 36), 0, 0, 7];
    let answer = enclosed(&rt, rt.alloc(), LINEAR, kappa, &LOADS, &u, 1000)?;
    check_ends(
        &rt,
        answer.u.as_slice(),
        &[
            (337_687_508_680, 349_507_258_680),
            (-5_909_875_000, 5_909_875_000),
            (-74_629_351_736, -62_809_601_736),
            (-5_909_875_000, 5_909_875_000),
            (-5_909_875_000, 5_909_875_000),
            (-5_909_874_993, 5_909_875_007),
        ],
    );
    check_ends(
        &rt,
        answer.force.as_slice(),
        &[
            (15_723_811, 15_733_464),
            (-4824, 4824),
            (-3_150_552, -3_140_903),
            (-4824, 4824),
            (-4824, 4824),
            (-4824, 4825),
        ],
    );
    assert!(rt; answer.closed.as_slice().is_empty());
    Ok(())
}

// At each limit, and one below it: the forces, the sum of squares, the radius of the displacements, that of the forces. The
// first freedom alone has a load and a displacement.
#[test]
fn limits(rt: HostRuntime) {
    let soft = point(3 << 20);
    let stiff = point(1 << 60);
    for (kappa, load, u, lambda, wide) in [
        (stiff, point((1 << 66) - (1 << 24)), (1 << 42) - 1, 1, false),
        (stiff, point(1 << 66), 1 << 42, 1, true),
        (soft, point((1 << 63) - 1), 0, 1 << 40, false),
        (soft, point(1 << 63), 0, 1 << 40, true),
        (soft, point((1 << 24) - 1), 0, 1, false),
        (soft, point(1 << 24), 0, 1, true),
        (stiff, point((1 << 40) - 1), 0, 1 << 20, false),
        (stiff, point(1 << 40), 0, 1 << 20, true),
    ] {
        let mut loads = [point(0); 6];
        loads[0] = load;
        let u = [u, 0, 0, 0, 0, 0];
        let fault = enclosed(&rt, rt.alloc(), LINEAR, kappa, &loads, &u, lambda).err();
        let want = if wide { Some(EncloseFault::Wide) } else { None };
        assert!(rt; fault == want, "a load of {} and more", load.lo);
    }
}

// A one-way member with a gap of 2^36 units and 3 N/m: pressed by five such units, not reached, and touched without load, which
// is open. Nothing is left of the loads, so that the bounds are points.
#[test]
fn contact_states(rt: HostRuntime) -> Result<(), Fail> {
    for (load, u, closed) in [
        (15 << 20, 6 << 36, true),
        (0, 0, false),
        (0, 1 << 36, false),
    ] {
        let first = Law::Oneway {
            gap: point(1 << 36),
        };
        let mut loads = [point(0); 6];
        loads[0] = Iv { lo: load, hi: load };
        let u = [u, 0, 0, 0, 0, 0];
        let answer = enclosed(&rt, rt.alloc(), first, point(3 << 20), &loads, &u, 1)?;
        assert!(rt; answer.closed.as_slice() == [closed].as_slice());
        check_ends(
            &rt,
            answer.force.as_slice(),
            &[(load, load), (0, 0), (0, 0), (0, 0), (0, 0), (0, 0)],
        );
    }
    Ok(())
}

// A load of 2^10 that the second member's displacement leaves makes a radius of 2^24 of the displacements, and of 512 of the
// forces. The first member, without a gap, is pressed by 2^24 units, which makes 256: it is closed, and its force not below 0.
// By one unit less it lies on neither side.
#[test]
fn radii_of_states(rt: HostRuntime) -> Result<(), Fail> {
    let kappa = point(1 << 20);
    let mut loads = [point(0); 6];
    loads[0] = point(256);
    loads[1] = point(1 << 10);
    let u = [1 << 24, 0, 0, 0, 0, 0];
    let answer = enclosed(&rt, rt.alloc(), TOUCHING, kappa, &loads, &u, 1 << 22)?;
    assert!(rt; answer.closed.as_slice() == [true].as_slice());
    let other = (-512, 512);
    check_ends(
        &rt,
        answer.force.as_slice(),
        &[(0, 768), other, other, other, other, other],
    );
    let less = [(1 << 24) - 1, 0, 0, 0, 0, 0];
    let fault = enclosed(&rt, rt.alloc(), TOUCHING, kappa, &loads, &less, 1 << 22).err();
    assert!(rt; fault == Some(EncloseFault::State { number: 0 }));
    Ok(())
}
