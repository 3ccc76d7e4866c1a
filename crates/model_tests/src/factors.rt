//! Factors of bends and tees. The ends were computed outside this program, by the formulas over whole numbers.
ghost use Rattle.std.specs.Prelude.{◌≡◌};
ghost use Rattle.model_types.specs.Ranges.{TeeInForm};
ghost use Rattle.sif_factors.specs.Characteristic.{HasBore};

use flex_interval::Iv;
use model_types::{MaterialId, Name, Section, TeeKind};
use sif_factors::{bend_factors, tee_factors};
use std::process::Abort;

fn pipe(rt: &impl Abort, d: i64, t: i64) -> Section
    ensures bore { HasBore result }
    ensures d { result.d ≡ d }
{
    assert!(rt; 1000 <= d && d <= 2_000_000);
    assert!(rt; 100 <= t && t <= 200_000 && 2 * t < d);
    Section {
        name: Name::new(b"s").expect(rt, "a name"),
        material: MaterialId(0),
        d,
        t,
        allowance: 0,
        extra: 0,
    }
}

fn in_form(rt: &impl Abort, kind: TeeKind) -> TeeKind
    ensures { TeeInForm result }
{
    match kind {
        TeeKind::Unreinforced => (),
        TeeKind::Pad(thickness) => assert!(rt; 1 <= thickness && thickness <= 200_000),
        TeeKind::Coefficient(c) => assert!(rt; 100 <= c && c <= 100_000),
    }
    kind
}

fn pair(e: Iv) -> (i128, i128) {
    (e.lo, e.hi)
}

#[test]
fn bends(rt: HostRuntime) {
    let rows: [(i64, i64, i64, (i128, i128), (i128, i128), (i128, i128)); 4] = [
        (
            168_300,
            7110,
            229_000,
            (474_323_691_783_544_937, 474_323_691_783_544_938),
            (2_430_803_148, 2_430_803_149),
            (2_025_669_290, 2_025_669_291),
        ),
        (
            100_000,
            20_000,
            60_000,
            (158_526_706_883_441_459, 158_526_706_883_441_460),
            (1_170_671_027, 1_170_671_028),
            (1 << 30, 1 << 30),
        ),
        (
            2_000_000,
            100,
            1_000_000,
            (1_188_831_409_568_024_116_970, 1_188_831_409_568_024_116_971),
            (448_518_222_482, 448_518_222_483),
            (373_765_185_401, 373_765_185_402),
        ),
        (
            1000,
            100,
            15_000_000,
            (1 << 56, 1 << 56),
            (1 << 30, 1 << 30),
            (1 << 30, 1 << 30),
        ),
    ];
    for (d, t, r, k, ii, io) in rows {
        let s = pipe(&rt, d, t);
        assert!(rt; 1000 <= r && r <= 15_000_000 && d <= 2 * r);
        let f = bend_factors(&s, r);
        assert_eq!(rt;
            (pair(f.k), pair(f.ii), pair(f.io)),
            (k, ii, io),
            "at {d} {t} {r}"
        );
    }
}

// Of two pads the one up to 1.5 times the wall counts itself, and the one past it as four walls.
#[test]
fn tees(rt: HostRuntime) {
    let rows: [(i64, i64, TeeKind, (i128, i128), (i128, i128)); 6] = [
        (
            168_300,
            7110,
            TeeKind::Unreinforced,
            (3_925_752_769, 3_925_752_771),
            (4_876_423_085, 4_876_423_086),
        ),
        (
            168_300,
            7110,
            TeeKind::Pad(15_000),
            (1_719_842_794, 1_719_842_795),
            (1_935_209_784, 1_935_209_785),
        ),
        (
            168_300,
            7110,
            TeeKind::Pad(10_665),
            (1_707_562_807, 1_707_562_809),
            (1_918_836_469, 1_918_836_470),
        ),
        (
            168_300,
            7110,
            TeeKind::Pad(10_666),
            (1_719_842_794, 1_719_842_795),
            (1_935_209_784, 1_935_209_785),
        ),
        (
            168_300,
            7110,
            TeeKind::Coefficient(4400),
            (1_630_489_032, 1_630_489_033),
            (1_816_071_435, 1_816_071_436),
        ),
        (
            2_000_000,
            100,
            TeeKind::Coefficient(100),
            (1_561_698_363_412, 1_561_698_363_414),
            (2_081_906_570_609, 2_081_906_570_610),
        ),
    ];
    for (d, t, kind, ii, io) in rows {
        let header = pipe(&rt, d, t);
        let f = tee_factors(&header, in_form(&rt, kind));
        assert_eq!(rt;
            (pair(f.k), pair(f.ii), pair(f.io)),
            ((1 << 56, 1 << 56), ii, io),
            "at {d} {t}"
        );
    }
}
