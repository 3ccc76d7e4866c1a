//! Frames whose displacements and loads are known in closed form. The values were worked out outside the program, to 60 digits, by
//! the formulas that stand beside each frame: E = 200,000 MPa, the tube of 100 mm by 10 mm has I = pi (0.1^4 - 0.08^4) / 64 m^4
//! and A = pi (0.1^2 - 0.08^2) / 4 m^2, G J = E I / 1.3, and each anchor of 10^10 N/m and N m/rad gives way too.
use crate::makers::answers_of;
use model_types::{Bounds, CaseAnswer};
use std::alloc::Global;
use std::process::Abort;

// A number of a frame: its place among the bounds, and what is left of it where it is rounded down to 2^-56 m or rad, or to 2^-40 N
// or N m.
pub(crate) type Known = (usize, i128);

// No pair is wider: 60 nm and nrad, or 4 mN and mN m.
const WIDEST: i128 = 1 << 32;

// The first case of a frame without contacts is certified, and its bounds enclose these numbers closely.
pub(crate) fn check(
    rt: &impl Abort,
    alloc: Global,
    frame: &str,
    displacements: &[Known],
    loads: &[Known],
) {
    check_contacts(rt, alloc, frame, displacements, loads, &[]);
}

// The same of a frame with contacts, and these are closed.
pub(crate) fn check_contacts(
    rt: &impl Abort,
    alloc: Global,
    frame: &str,
    displacements: &[Known],
    loads: &[Known],
    closed: &[bool],
) {
    match answers_of(rt, alloc, &[frame]).first() {
        Some(
            CaseAnswer::Certified {
                u,
                loads: on,
                states,
            },
        ) => {
            enclose(rt, u.as_slice(), displacements);
            enclose(rt, on.as_slice(), loads);
            assert!(rt; states.as_slice() == closed, "the contacts");
        }
        _ => assert!(rt; false, "no bounds"),
    }
}

// Bounds enclose numbers closely.
fn enclose(rt: &impl Abort, bounds: &[Bounds], known: &[Known]) {
    for number in 0..known.len() {
        let (place, least) = known[number];
        assert!(rt; place < bounds.len(), "a place");
        encloses(rt, &bounds[place], least);
    }
}

// A number that is rounded down to `least` lies within, and not much else; one that is known exactly is that number.
fn encloses(rt: &impl Abort, bounds: &Bounds, least: i128) {
    assert!(rt; bounds.lo <= least, "the lower end");
    assert!(rt;
        least < bounds.hi || bounds.lo == bounds.hi,
        "the upper end"
    );
    let width = bounds.hi.checked_sub(bounds.lo).expect(rt, "a width");
    assert!(rt; width < WIDEST, "a narrow pair");
}

// A cantilever of L = 3 m whose end can't turn, with F = 1,000 N down at it. With the anchor's k and the K of 10^9 N m/rad that
// holds the end, the end's moment is M = F (L^2 / 2 E I + L / k) / (L / E I + 1 / k + 1 / K), near F L / 2, and the end sinks by
// F (L^3 / 3 E I + L^2 / k + 1 / k) - M (L^2 / 2 E I + L / k) = 3.884403 mm, near F L^3 / 12 E I.
#[test]
fn guided_cantilever(rt: HostRuntime) {
    check(
        &rt,
        rt.alloc(),
        "node a 0 0 0
node b 3000000 0 0
straight p a b s
anchor A a - -
twist G b 0 1 0 -
case tip 0 0 0 0 0 0
force tip b 0 0 -1000000 0 0 0
",
        &[(8, -279_900_700_460_069)],
        &[(6, 1_648_980_716_180_819)],
    );
}

// A cantilever of L = 4 m on a prop of K = 10^9 N/m at its end, with P = 5,000 N down at c = 2 m. Where f(x, y) is what the
// cantilever sinks at x under a unit load at y, f(c, c) = c^3 / 3 E I + c^2 / k + 1 / k, f(c, L) = c^2 (3 L - c) / 6 E I + c L / k + 1 / k and
// f(L, L) = L^3 / 3 E I + L^2 / k + 1 / k, the prop bears R = P f(c, L) / (f(L, L) + 1 / K) = 1,562.508 N, near 5 P / 16, and the
// pipe sinks at c by P f(c, c) - R f(c, L) = 5.033005 mm, near 7 P L^3 / 768 E I.
#[test]
fn propped_cantilever(rt: HostRuntime) {
    check(
        &rt,
        rt.alloc(),
        "node a 0 0 0
node c 2000000 0 0
node b 4000000 0 0
straight p a c s
straight q c b s
anchor A a - -
linear R b 0 0 1 -
case mid 0 0 0 0 0 0
force mid c 0 0 -5000000 0 0 0
",
        &[(8, -362_666_228_416_532)],
        &[(6, -1_717_995_319_729_606)],
    );
}

// A portal of columns of h = 3 m and a beam of l = 4 m, built in at both feet, with F = 10,000 N sideways at each knee. The middle of the
// beam bends, stretches and sinks by nothing; so with b = l / 2 the shear there is
// V = F (h^2 b / 2 E I + h b / k) / (b^3 / 3 E I + b^2 h / E I + h / E A + b^2 / k + 1 / k) = 6,135.193 N, the knees sway by
// F (h^3 / 3 E I + h^2 / k + 1 / k) - V (b h^2 / 2 E I + b h / k) = 60.016378 mm, the first rises by V (h / E A + 1 / k) = 33.162 micrometres, and the
// feet bear V and F h - V b = 17,729.614 N m.
#[test]
fn portal(rt: HostRuntime) {
    check(
        &rt,
        rt.alloc(),
        "node a 0 0 0
node c 0 0 3000000
node d 4000000 0 3000000
node b 4000000 0 0
straight p a c s
straight q c d s
straight r d b s
anchor A a - -
anchor B b - -
case wind 0 0 0 0 0 0
force wind c 10000000 0 0 0 0 0
force wind d 10000000 0 0 0 0 0
",
        &[(6, 4_324_635_775_840_115), (8, 2_389_554_497_904)],
        &[(2, 6_745_716_289_921_665), (4, 19_493_916_253_436_669)],
    );
}

// A square expansion loop, 3 m out and 2 m wide between two runs of 4 m, built in at one end with k' = 10^9 N m/rad; the other end is guided
// by K = 10^9 N m/rad and is pushed in by F = 2,000 N, which is the force of an end movement of 75.7 mm. The loop's middle is one of mirror symmetry, so nothing
// acts across the line; with y the distance from it, the integrals over the line S = 16 m, Y = 15 m^2 and Q = 36 m^3 of 1, y and y^2, and
// 10 m along it, the ends bear M = F Y / E I / (S / E I + 1 / k' + 1 / K) = 1,874.864 N m, and the movement is
// F (Q / E I + 10 / E A + 1 / k) - M Y / E I.
#[test]
fn expansion_loop(rt: HostRuntime) {
    check(
        &rt,
        rt.alloc(),
        "node a 0 0 0
node p 4000000 0 0
node q 4000000 3000000 0
node r 6000000 3000000 0
node t 6000000 0 0
node b 10000000 0 0
straight e1 a p s
straight e2 p q s
straight e3 q r s
straight e4 r t s
straight e5 t b s
anchor A a - 1000000000
twist G b 0 0 1 -
linear R b 0 1 0 -
case hot 0 0 0 0 0 0
force hot b -2000000 0 0 0 0 0
",
        &[(30, -5_457_262_198_406_325)],
        &[(6, -2_061_434_944_973_979), (7, 0)],
    );
}

// Three legs at right angles, of 2 m along x, 1.5 m along y and 1 m along z from the anchor, with F = 3,000 N along y at the end. With the legs'
// lengths a, b and c the end moves by -F b (a^2 / 2 E I + a / k) along x, by
// F (c^3 / 3 E I + b / E A + c^2 b / E I + c^2 a / G J + a^3 / 3 E I + 1 / k + c^2 / k + a^2 / k) along y, and by
// -F c (b^2 / 2 E I + b a / G J + b / k) along z: -15.528, 36.758 and -26.009 mm.
#[test]
fn space_bend(rt: HostRuntime) {
    check(
        &rt,
        rt.alloc(),
        "node a 0 0 0
node c 2000000 0 0
node d 2000000 1500000 0
node b 2000000 1500000 1000000
straight p a c s
straight q c d s
straight r d b s
anchor A a - -
case pull 0 0 0 0 0 0
force pull b 0 3000000 0 0 0 0
",
        &[
            (18, -1_118_925_561_926_861),
            (19, 2_648_673_467_001_458),
            (20, -1_874_124_115_321_796),
        ],
        &[],
    );
}

// Two runs of l = 2 m at a right angle, joined by a bend of R = 150 mm and built in at both ends, with F = 10,000 N across each run at its end at
// the bend. The bend is k = 1.65 * 0.045^2 / 0.01 R = 2.2275 times as flexible as a straight. The line through its middle and its centre is one
// of symmetry, and the loads are mirrored with the other sign: the middle bears a shear alone, 2^(1/2) H along that line, and doesn't move along it. So
// H = F (R l^2 / 2 E I + l^3 / 3 E I + 1 / K + l (R + l) / K) / 2 f = 8,946.667 N, where
// f = (k R^3 / E I + R / E A) (pi / 8 - 1 / 4) + ((R + l)^3 - R^3) / 6 E I + l / 2 E A + 1 / K + (R + l)^2 / 2 K and K is the anchor's. The first run's end
// moves by H (l / E A + 1 / K) along it and by F (l^3 / 3 E I + 1 / K + l^2 / K) - H (R l^2 / 2 E I + l^3 / 3 E I + 1 / K + l (R + l) / K) across
// it: 32.537 and 215.727 micrometres. The anchor bears H, F - H and F l - H (R + l) = 764.668 N m.
#[test]
fn elbow(rt: HostRuntime) {
    check(
        &rt,
        rt.alloc(),
        "node a 0 0 0
node b 2000000 0 0
node c 2150000 150000 0
node d 2150000 2150000 0
straight p a b s
bend q b c s 150000 90000 2150000 0 0
straight r c d s
anchor A a - -
anchor B d - -
case across 0 0 0 0 0 0
force across b 0 10000000 0 0 0 0
force across c 10000000 0 0 0 0 0
",
        &[(6, 2_344_539_717_316), (7, 15_544_782_661_398)],
        &[
            (0, 9_836_963_273_878_579),
            (1, 1_158_153_003_881_420),
            (5, 840_761_516_681_053),
        ],
    );
}
