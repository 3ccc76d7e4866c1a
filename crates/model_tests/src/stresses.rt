//! Stresses of stations with their allowables and verdicts, and factors of cycles. Each expected value was worked out by hand from
//! the standard's formulas (ASME B31.3-2016, 302.3.5, 302.3.6, 319.4.4, 320.2), with numbers for which the roots are whole.
ghost use Rattle.std.specs.Prelude.{◌^◌, pos, ◌≤ℤ◌, ◌<ℤ◌, IfSome};
ghost use Rattle.code_stress.specs.Direct.{HasInside, IsPressure};
ghost use Rattle.code_stress.specs.Station.{StationInForm};

use code_stress::{
    StationData, expansion_allowable, occasional_allowable, station_stress, sustained_allowable,
};
use flex_interval::{Iv, IvFault, point};
use section_data::SectionIv;
use sif_factors::cycle_factor;
use std::process::Abort;
use stress_terms::{Verdict, verdict_on};

// The units of forces and moments, of an index in quarters, and of a stress in MPa and in tenths of a kPa.
const UNIT: i128 = 1 << 40;

const QUARTER: i128 = 1 << 28;

const MEGAPASCAL: i128 = 65_536_000_000;

const TENTH: i128 = 6_553_600;

// A pipe of 170 mm by 10 mm along the x axis, for which an area of 2,000 mm^2 and a modulus of 100,000 mm^3 are taken: 1 kN is
// 0.5 MPa, and 1 kN m is 10 MPa.
fn section() -> SectionIv
    ensures inside { HasInside result }
    ensures area { pos 0 <ℤ result.area.lo }
    ensures modulus { pos 0 <ℤ result.modulus.lo }
{
    SectionIv {
        x: 6_400_000_000,
        y: 51_400_000_000,
        area: point(2_000_000_000 << 16),
        modulus: point(100_000_000_000_000 << 16),
        weight: point(0),
    }
}

fn index(rt: &impl Abort, quarters: i64) -> Iv
    ensures { pos (2 ^ 30) ≤ℤ result.lo }
{
    assert!(rt; 4 <= quarters);
    point(i128::from(quarters) * QUARTER)
}

fn in_range(rt: &impl Abort, pressure: Option<i64>) -> Option<i64>
    ensures { IfSome result IsPressure }
{
    match pressure {
        Some(p) => assert!(rt; 0 <= p && p <= 100_000_000),
        None => (),
    }
    pressure
}

fn load(n: i64) -> Iv {
    point(i128::from(n) * UNIT)
}

// Along the x axis; the plane of a bend is that of the x and y axes, so that a moment about z is in plane and one about y out of it.
fn station(rt: &impl Abort, bend: bool, ii: i64, io: i64) -> StationData
    ensures { StationInForm result }
{
    let nothing = point(0);
    let one = point(1 << 56);
    StationData {
        tangent: [one, nothing, nothing],
        normal: if bend {
            Some([nothing, nothing, one])
        } else {
            None
        },
        section: section(),
        bending: point(100_000_000_000_000 << 16),
        ii: index(rt, ii),
        io: index(rt, io),
    }
}

// Forces in N, moments in N m, the indices in quarters, a pressure in Pa, and the stress in MPa:
// a straight, 20 kN, torsion and bending of 3 kN m each (1.8 and 2.4): sqrt((10 + 30)^2 + 30^2);
// the same in compression;
// a bend in plane, 2 x 20 MPa, and out of plane, 1.5 x 20 MPa, with torsion of 30 and 40 MPa: sqrt(40^2 + 30^2);
// both, sqrt(50^2 + 120^2);
// sustained, 0.75 x 2 x 30 and 0.75 x 2 x 40 MPa give 75 MPa, 15 kN and 6.4 MPa x 150^2 / (170^2 - 150^2) give 7.5 + 22.5: sqrt(105^2 + 100^2);
// indices of 1 stay 1: sqrt(50^2 + 120^2);
// a straight with pressure: sqrt((22.5 + 7.5)^2 + 40^2).
#[test]
fn stations(rt: HostRuntime) {
    let rows: [(i64, [i64; 3], bool, i64, i64, Option<i64>, i128); 8] = [
        (20_000, [3000, 1800, 2400], false, 4, 4, None, 50),
        (-20_000, [-3000, 1800, -2400], false, 4, 4, None, 50),
        (0, [3000, 0, 2000], true, 8, 6, None, 50),
        (0, [4000, 2000, 0], true, 8, 6, None, 50),
        (0, [12_000, 2000, 2000], true, 8, 6, None, 130),
        (
            15_000,
            [10_000, 4000, 3000],
            true,
            8,
            8,
            Some(6_400_000),
            145,
        ),
        (0, [12_000, 4000, 3000], true, 4, 4, Some(0), 130),
        (0, [4000, 0, 750], false, 4, 4, Some(6_400_000), 50),
    ];
    for (force, moment, bend, ii, io, pressure, stress) in rows {
        let [m_x, m_y, m_z] = moment;
        let nothing = point(0);
        let f = [
            load(force),
            nothing,
            nothing,
            load(m_x),
            load(m_y),
            load(m_z),
        ];
        let s = station(&rt, bend, ii, io);
        let e = station_stress(f, &s, in_range(&rt, pressure)).expect(&rt, "a stress");
        assert!(rt; 0 < stress && stress < 1000);
        let wanted = stress * MEGAPASCAL;
        assert_eq!(rt; (e.lo, e.hi), (wanted, wanted), "{force} {stress}");
    }
}

// A force whose product leaves the limit.
#[test]
fn wide(rt: HostRuntime) {
    let nothing = point(0);
    let f = [load(i64::MAX), nothing, nothing, nothing, nothing, nothing];
    let s = station(&rt, false, 4, 4);
    assert!(rt; matches!(station_stress(f, &s, None), Err(IvFault::Wide)));
}

// SH of 137.9 MPa; 133 percent of it; 1.25 x 137.9 + 0.25 x 130 MPa; with a sustained stress of 50 MPa 1.25 (137.9 + 130) - 50; one
// of 130 MPa, which isn't below SH, changes nothing; and half of the greater range. In tenths of a kPa.
#[test]
fn allowables(rt: HostRuntime) {
    let known = Some(point(50 * MEGAPASCAL));
    let high = Some(point(130 * MEGAPASCAL));
    let whole = point(1 << 20);
    let half = point(1 << 19);
    let rows: [(Iv, i128); 6] = [
        (sustained_allowable(137_900), 1_379_000),
        (occasional_allowable(137_900, 133), 1_834_070),
        (
            expansion_allowable(whole, 137_900, 130_000, None).expect(&rt, "an allowable"),
            2_048_750,
        ),
        (
            expansion_allowable(whole, 137_900, 130_000, known).expect(&rt, "an allowable"),
            2_848_750,
        ),
        (
            expansion_allowable(whole, 137_900, 130_000, high).expect(&rt, "an allowable"),
            2_048_750,
        ),
        (
            expansion_allowable(half, 137_900, 130_000, known).expect(&rt, "an allowable"),
            1_424_375,
        ),
    ];
    for (e, tenths) in rows {
        assert!(rt; 0 < tenths && tenths < 10_000_000);
        let wanted = tenths * TENTH;
        assert_eq!(rt; (e.lo, e.hi), (wanted, wanted));
    }
}

// Wholly at most, wholly over, and across; a stress that touches its allowable passes.
#[test]
fn verdicts(rt: HostRuntime) {
    let three = point(3);
    let across = Iv { lo: 2, hi: 4 };
    let rows: [(Iv, Iv, Verdict); 5] = [
        (across, point(4), Verdict::Pass),
        (across, point(1), Verdict::Fail),
        (across, three, Verdict::Undecided),
        (three, across, Verdict::Undecided),
        (three, three, Verdict::Pass),
    ];
    for (stress, allowable, wanted) in rows {
        assert_eq!(rt; verdict_on(stress, allowable), wanted);
    }
}

// 6 / 7000^0.2 is 1.02125, over a cap of 1 and below one of 1.2; 6 / 10^1.2 is 0.3785744; of 6^5 and 32 times as many cycles the
// factors are 1 and a half; of one cycle it is 6. In units of 2^-20.
#[test]
fn cycles(rt: HostRuntime) {
    let rows: [(u64, u32, (i128, i128)); 6] = [
        (7000, 1000, (1 << 20, 1 << 20)),
        (7000, 1200, (1_070_857, 1_070_858)),
        (1_000_000, 1000, (396_964, 396_965)),
        (7776, 1200, (1 << 20, 1 << 20)),
        (248_832, 1000, (1 << 19, 1 << 19)),
        (1, 1200, (1_258_291, 1_258_292)),
    ];
    for (cycles, cap, wanted) in rows {
        assert!(rt; 0 < cycles);
        let f = cycle_factor(cycles, cap);
        assert_eq!(rt; (f.lo, f.hi), wanted, "{cycles} {cap}");
    }
}
