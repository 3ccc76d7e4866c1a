//! A pipe of three straights between two anchors, and a straight and a quarter bend: their members and stations by hand; and the
//! first of two straights that are too stiff.
use crate::makers::model;
use flex_interval::Iv;
use member_set::{Built, Member, Station};
use model_types::ElementId;
use std::alloc::Global;
use std::process::Abort;
use structure::{BuildFault, build};

// Three straights between nodes, with anchors at both ends; the second has its own stiffness in translation.
const PIPE: &str = "straight p a b s
straight q b c s
straight r d c s
anchor A a - -
anchor B d 5 -
";

fn built(rt: &impl Abort, alloc: Global, nodes: &str) -> Result<Built, BuildFault> {
    let m = model(rt, alloc, &[nodes, PIPE]);
    build(alloc, &m)
}

fn is_point(rt: &impl Abort, found: &Iv, number: i128) {
    assert!(rt; found.lo == number && found.hi == number);
}

// The member of that number has both its nodes at `node`, that stiffness, and 2^56 on that freedom alone.
fn holds(
    rt: &impl Abort,
    members: &[Member],
    number: usize,
    node: u32,
    kappa: i128,
    freedom: usize,
) {
    assert!(rt; number < members.len());
    let member = &members[number];
    assert!(rt; member.n1 == node && member.n2 == node);
    is_point(rt, &member.kappa, kappa);
    for place in 0..12 {
        let shape = if place == freedom { 1 << 56 } else { 0 };
        is_point(rt, &member.w[place], shape);
    }
}

// The members that touch a node have these numbers.
fn touch(rt: &impl Abort, built: &Built, node: usize, numbers: &[u32]) {
    let at = built.at.as_slice();
    assert!(rt; node < at.len() && at[node].as_slice() == numbers);
}

#[test]
fn three_straights(rt: HostRuntime) {
    let nodes = "node a 0 0 0\nnode b 1000000 0 0\nnode c 2000000 0 0\nnode d 3000000 0 0\n";
    let built = built(&rt, rt.alloc(), nodes).expect(&rt, "a structure");
    counts(&rt, &built);
    stations(&rt, built.stations.as_slice());
    touches(&rt, &built);
    anchors(&rt, built.members.as_slice());
}

fn counts(rt: &impl Abort, built: &Built) {
    assert!(rt; built.members.as_slice().len() == 36 && built.at.as_slice().len() == 4);
    assert!(rt; built.unilateral.as_slice().is_empty());
}

// For each element the end `from`, then `to`, with the unit vector along x; the third runs the other way.
fn stations(rt: &impl Abort, stations: &[Station]) {
    assert!(rt; stations.len() == 6);
    for place in 0..6 {
        let station = &stations[place];
        let number = place as u32 / 2;
        assert!(rt; station.element == number && station.end == (place % 2 == 1));
        assert!(rt; station.first == 8 * number && station.count == 8);
        assert!(rt; station.normal.is_none());
        let along = if number == 2 { -1 } else { 1 };
        is_point(rt, &station.tangent[0], along * (1 << 56));
        is_point(rt, &station.tangent[1], 0);
        is_point(rt, &station.tangent[2], 0);
    }
}

fn touches(rt: &impl Abort, built: &Built) {
    touch(
        rt,
        built,
        0,
        &[0, 1, 2, 3, 4, 5, 6, 7, 24, 25, 26, 27, 28, 29],
    );
    touch(
        rt,
        built,
        1,
        &[0, 1, 2, 3, 4, 5, 6, 7, 8, 9, 10, 11, 12, 13, 14, 15],
    );
    touch(
        rt,
        built,
        2,
        &[8, 9, 10, 11, 12, 13, 14, 15, 16, 17, 18, 19, 20, 21, 22, 23],
    );
    touch(
        rt,
        built,
        3,
        &[16, 17, 18, 19, 20, 21, 22, 23, 30, 31, 32, 33, 34, 35],
    );
}

fn anchors(rt: &impl Abort, members: &[Member]) {
    for (number, node, kappa, freedom) in [
        (24, 0, 10_485_760_000_000_000, 0),
        (29, 0, 10_485_760_000_000_000, 5),
        (32, 3, 5_242_880, 2),
        (33, 3, 10_485_760_000_000_000, 3),
    ] {
        holds(rt, members, number, node, kappa, freedom);
    }
}

// A straight of a micrometre is too stiff.
#[test]
fn two_of_a_micrometre(rt: HostRuntime) {
    let nodes = "node a 0 0 0\nnode b 1000000 0 0\nnode c 1000001 0 0\nnode d 1000002 0 0\n";
    let found = built(&rt, rt.alloc(), nodes);
    assert!(rt; matches!(found, Err(BuildFault::Wide(ElementId(1)))));
}

// A straight along x and behind it a bend of 1 m round to y.
const ELBOW: &str = "node a 0 0 0
node b 1000000 0 0
node c 2000000 1000000 0
straight p a b s
bend q b c s 1000000 90000 2000000 0 0
anchor A a - -
";

// The interval holds a number, and is at most 100 units of 2^-56 wide.
fn is_near(rt: &impl Abort, found: &Iv, number: i128) {
    assert!(rt; found.lo <= number && number <= found.hi);
    let width = found.hi.checked_sub(found.lo).expect(rt, "a width");
    assert!(rt; width <= 100);
}

#[test]
fn quarter_bend(rt: HostRuntime) {
    let m = model(&rt, rt.alloc(), &[ELBOW]);
    let built = build(rt.alloc(), &m).expect(&rt, "a structure");
    assert!(&rt; built.members.as_slice().len() == 20);
    bend_stations(&rt, built.stations.as_slice());
    bend_members(&rt, built.members.as_slice());
}

// The bend leaves its first node along x and comes to its second along y, and turns about -z, the chord's way crossed with the
// way to the corner; the straight has no normal.
fn bend_stations(rt: &impl Abort, stations: &[Station]) {
    assert!(rt; stations.len() == 4);
    assert!(rt; stations[1].first == 0 && stations[1].count == 8 && stations[1].normal.is_none());
    bend_station(rt, &stations[2], false, 1 << 56, 0);
    bend_station(rt, &stations[3], true, 0, 1 << 56);
}

// An end of the bend, with its way along x and y.
fn bend_station(rt: &impl Abort, station: &Station, end: bool, x: i128, y: i128) {
    assert!(rt; station.element == 1 && station.end == end);
    assert!(rt; station.first == 8 && station.count == 6);
    is_near(rt, &station.tangent[0], x);
    is_near(rt, &station.tangent[1], y);
    is_point(rt, &station.tangent[2], 0);
    let [nx, ny, nz] = station.normal.expect(rt, "a normal");
    is_point(rt, &nx, 0);
    is_point(rt, &ny, 0);
    is_point(rt, &nz, -(1 << 56));
}

// The first six members behind the eight of the straight are the bend's: the rotation in its plane turns TO about the normal and
// FROM against it, the next two act along (1, -1) and (1, 1) over the root of 2.
fn bend_members(rt: &impl Abort, members: &[Member]) {
    assert!(rt; members.len() == 20);
    for number in 8..14 {
        assert!(rt; members[number].n1 == 1 && members[number].n2 == 2);
    }
    plane_rotation(rt, &members[8]);
    in_plane(rt, &members[9], -HALF_ROOT);
    in_plane(rt, &members[10], HALF_ROOT);
}

// A member that turns its second node about the normal, and its first against it.
fn plane_rotation(rt: &impl Abort, member: &Member) {
    for place in 0..12 {
        let shape = if place == 5 {
            1 << 56
        } else if place == 11 {
            -(1 << 56)
        } else {
            0
        };
        is_point(rt, &member.w[place], shape);
    }
}

// The root of 1/2 in 2^-56.
const HALF_ROOT: i128 = 50_952_413_380_206_181;

// The second node's part of a member that acts in the plane, with its way along y.
fn in_plane(rt: &impl Abort, member: &Member, y: i128) {
    is_near(rt, &member.w[6], HALF_ROOT);
    is_near(rt, &member.w[7], y);
    is_point(rt, &member.w[8], 0);
}
