//! What acts in a case: weight, temperature, pressure, movements, hangers and contacts, each on a frame whose answer is known in closed
//! form. The values were worked out outside the program, to 60 digits, by the formulas that stand beside each frame; tube, E I, E A,
//! and an anchor's k are those of the other frames, K = 10^9 N/m is that of a support, and g = 9.80665 m/s^2.
use crate::frames::{check, check_contacts};
use std::process::Abort;

// A cantilever of 4 m that rests at c, 2 m from the anchor, with F = 1,000 N up at its end: it lifts off by F f(c, L) = 11.502612 mm, and the end
// rises by F f(L, L), where f(x, y) is what the cantilever sinks at x under a unit load at y.
#[test]
fn a_support_that_lifts(rt: HostRuntime) {
    check_contacts(
        &rt,
        rt.alloc(),
        "node a 0 0 0
node c 2000000 0 0
node b 4000000 0 0
straight p a c s
straight q c b s
anchor A a - -
oneway R c 0 0 -1 0 -
case lift 0 0 0 0 0 0
force lift b 0 0 1000000 0 0 0
",
        &[(8, 828_850_563_014_060), (14, 2_652_236_773_684_029)],
        &[(6, 0)],
        &[false],
    );
}

// The same with F down: the support bears R = F f(c, L) / (f(c, c) + 1 / K) = 2,499.380729 N, and the end sinks by F f(L, L) - R f(c, L) = 8.057772 mm.
#[test]
fn a_support_that_holds(rt: HostRuntime) {
    check_contacts(
        &rt,
        rt.alloc(),
        "node a 0 0 0
node c 2000000 0 0
node b 4000000 0 0
straight p a c s
straight q c b s
anchor A a - -
oneway R c 0 0 -1 0 -
case press 0 0 0 0 0 0
force press b 0 0 -1000000 0 0 0
",
        &[(14, -580_623_649_330_324)],
        &[(6, 2_748_098_173_689_275)],
        &[true],
    );
}

// A cantilever of L = 3 m with a gap of g = 2 mm to either side at its end closes it under F = g / f(L, L) = 128.797 N. Under 100 N down it
// sinks by 1.552891 mm and touches nothing.
#[test]
fn a_gap_that_stays_open(rt: HostRuntime) {
    check_contacts(
        &rt,
        rt.alloc(),
        "node a 0 0 0
node b 3000000 0 0
straight p a b s
anchor A a - -
gap R b 0 0 1 2000 -
case light 0 0 0 0 0 0
force light b 0 0 -100000 0 0 0
",
        &[(8, -111_893_276_768_627)],
        &[(6, 0), (7, 0)],
        &[false, false],
    );
}

// Under 1,000 N down the lower side bears R = (F f(L, L) - g) / (f(L, L) + 1 / K) = 871.146896 N, and the end sinks by g + R / K.
#[test]
fn a_gap_that_closes(rt: HostRuntime) {
    check_contacts(
        &rt,
        rt.alloc(),
        "node a 0 0 0
node b 3000000 0 0
straight p a b s
anchor A a - -
gap R b 0 0 1 2000 -
case heavy 0 0 0 0 0 0
force heavy b 0 0 -1000000 0 0 0
",
        &[(8, -144_177_960_825_201)],
        &[(6, 0), (7, 957_836_141_120_854)],
        &[false, true],
    );
}

// A pipe of L = 4 m, 100 K hotter, between anchors of k' = 10^6 N/m, expands by alpha 100 K L = 4.8 mm and is pressed by
// N = 4.8 mm / (L / E A + 2 / k') = 2,391.541652 N; so each anchor gives way by N / k'.
#[test]
fn a_hot_pipe_between_anchors(rt: HostRuntime) {
    check(
        &rt,
        rt.alloc(),
        "node a 0 0 0
node b 4000000 0 0
straight p a b s
anchor A a 1000000 -
anchor B b 1000000 -
case hot 0 0 0 0 100000 0
",
        &[(0, -172_328_737_459_838), (6, 172_328_737_459_837)],
        &[(0, -2_629_527_854_306_607), (6, 2_629_527_854_306_606)],
    );
}

// The same where the temperature is that of the section and the case has another.
#[test]
fn a_section_has_its_own_temperature(rt: HostRuntime) {
    check(
        &rt,
        rt.alloc(),
        "node a 0 0 0
node b 4000000 0 0
straight p a b s
anchor A a 1000000 -
anchor B b 1000000 -
case hot 0 0 0 0 -300000 0
temp hot s 100000
",
        &[(0, -172_328_737_459_838), (6, 172_328_737_459_837)],
        &[(0, -2_629_527_854_306_607), (6, 2_629_527_854_306_606)],
    );
}

// The same under 10 MPa in place of heat: with closed ends it grows by L p d^2 (1 - 2 nu) / (E (D^2 - d^2)) = 142.222 micrometres, so that
// N = 70.860493 N.
#[test]
fn a_pipe_under_pressure(rt: HostRuntime) {
    check(
        &rt,
        rt.alloc(),
        "node a 0 0 0
node b 4000000 0 0
straight p a b s
anchor A a 1000000 -
anchor B b 1000000 -
case full 0 0 0 0 0 10000000
",
        &[(0, -5_106_036_665_477), (6, 5_106_036_665_476)],
        &[(0, -77_911_936_423_900), (6, 77_911_936_423_899)],
    );
}

// A pipe of L = 3 m between anchors of k' = 10^9 N/m, of which B settles by s = 5 mm. Its middle bears a shear alone, so each half is a cantilever, and
// V = s / 2 ((L/2)^3 / 3 E I + (L/2)^2 / k + 1 / k') = 1,287.240551 N with moments of V L / 2 at the ends, near 12 E I s / L^3 = 1,288.053 N; the node at
// B sinks by s - V / k'.
#[test]
fn a_settling_anchor(rt: HostRuntime) {
    check(
        &rt,
        rt.alloc(),
        "node a 0 0 0
node b 3000000 0 0
straight p a b s
anchor A a 1000000000 -
anchor B b 1000000000 -
case settled 0 0 0 0 0 0
move settled B 0 0 -5000
",
        &[(8, -360_195_214_732_566)],
        &[
            (2, -1_415_335_953_891_479),
            (4, 2_123_003_930_837_217),
            (8, 1_415_335_953_891_478),
            (10, 2_123_003_930_837_217),
        ],
    );
}

// A cantilever of L = 4 m under its weight of w = A rho g = 217.662050 N/m on a hanger of c = 20,000 N/m with a load of H = 500 N at its end. The end moves by
// u = (H f(L, L) - w (L^4 / 8 E I + L^3 / 2 k + L / k)) / (1 + c f(L, L)) = 3.678309 mm up, the spring bears c u, and the anchor w L - H + c u.
#[test]
fn a_hanger_that_carries(rt: HostRuntime) {
    check(
        &rt,
        rt.alloc(),
        "node a 0 0 0
node b 4000000 0 0
straight p a b s
anchor A a - -
hanger H b 20000 500000
case w 0 0 -1000 1 0 0
",
        &[(8, 265_050_070_977_053)],
        &[(2, -488_418_866_647_123), (6, 80_886_862_480_790)],
    );
}

// A sloping pipe of 5 m, 3 m along x and 4 m up, with contents and insulation of 150 N/m: the anchor bears its weight
// (A rho g + 150 N/m) 5 m = 1,838.310248 N, and about y 1.5 m times that.
#[test]
fn a_sloping_pipe_with_contents(rt: HostRuntime) {
    check(
        &rt,
        rt.alloc(),
        "section full st 100000 10000 0 150000
node a 0 0 0
node b 3000000 0 4000000
straight p a b full
anchor A a - -
case w 0 0 -1000 0 0 0
",
        &[],
        &[(2, -2_021_243_493_399_916), (4, 3_031_865_240_099_873)],
    );
}
