//! The members of quarter bends and of a half circle. The numbers were computed outside the program, in exact whole numbers by
//! the same rules; a bar's flexibility integrated section by section along the arc agrees with them to seven digits.
ghost use Rattle.bend_element.specs.Arcs.{IsArc};
ghost use Rattle.std.specs.Prelude.{pos, ◌<ℤ◌};
ghost use Rattle.member_pairs.specs.Span.{square_of};
ghost use Rattle.member_pairs.specs.Vectors.{IsWay};
ghost use Rattle.bend_element.specs.Normal.{IsCornerWay, normal_parts, normal_to};

use bend_element::{Arc, bend_members, plane_normal, unit_normal};
use flex_interval::Iv;
use member_pairs::{Tube, Way};
use member_set::Member;
use model_types::{Element, NodeId, SectionId, Shape};
use std::process::Abort;
use text_words::Name;

const ONE: i128 = 1 << 56;

const NOTHING: Iv = Iv { lo: 0, hi: 0 };

// Stiffnesses, and the rotations of the member of the force across the plane, at FROM and at TO.
struct Wanted {
    kappas: [Iv; 6],
    rotations: [Iv; 6],
}

// A pipe of 168.3 mm by 7.11 mm, with E of 200,000 MPa and a Poisson's ratio of 0.3.
fn members_of(rt: &impl Abort, arc: &Arc, way: &Way, normal: &[Iv; 3]) -> [Member; 6]
    requires arc { IsArc arc.now }
    requires way { IsWay way.now }
{
    let tube = Tube {
        modulus: 200_000,
        poisson_ratio: 300,
        square_difference: 4_584_243_600,
        square_sum: 52_065_536_400,
    };
    let bend = Element {
        name: Name::new(b"b").expect(rt, "a name"),
        from: NodeId(3),
        to: NodeId(5),
        section: SectionId(0),
        shape: Shape::Straight,
    };
    bend_members(&bend, &tube, arc, way, normal).expect(rt, "a bend")
}

fn check(rt: &impl Abort, arc: &Arc, way: &Way, normal: &[Iv; 3], wanted: &Wanted)
    requires arc { IsArc arc.now }
    requires way { IsWay way.now }
{
    judge(rt, &members_of(rt, arc, way, normal), wanted);
}

fn judge(rt: &impl Abort, members: &[Member], wanted: &Wanted) {
    assert!(rt; members.len() == 6);
    for number in 0..6 {
        let member = &members[number];
        assert!(rt; member.n1 == 3 && member.n2 == 5);
        is_same(rt, &member.kappa, &wanted.kappas[number]);
    }
    let last = &members[5];
    for part in 0..3 {
        is_same(rt, &last.w[3 + part], &wanted.rotations[part]);
        is_same(rt, &last.w[9 + part], &wanted.rotations[3 + part]);
    }
}

fn is_same(rt: &impl Abort, found: &Iv, wanted: &Iv) {
    assert!(rt; found.lo == wanted.lo && found.hi == wanted.hi);
}

// A radius of 229 mm in the plane of x and y, with this flexibility factor.
fn quarter(k: Iv) -> Arc
    ensures { IsArc result }
{
    Arc {
        radius: 229_000,
        a: Iv {
            lo: 56_593_902_016_227_522,
            hi: 56_593_902_016_227_523,
        },
        sin: Iv {
            lo: 50_952_413_380_206_180,
            hi: 50_952_413_380_206_181,
        },
        cos: Iv {
            lo: 50_952_413_380_206_180,
            hi: 50_952_413_380_206_181,
        },
        k,
    }
}

// The unit vector across the plane of these ways.
fn crosses(rt: &impl Abort, way: &Way, corner: &Way, wanted: &[Iv; 3])
    requires way { IsWay way.now }
    requires corner { IsCornerWay corner.now }
    requires not_zero { pos 0 <ℤ square_of (normal_parts (normal_to way.now corner.now)) }
{
    let unit = unit_normal(&plane_normal(way, corner)).expect(rt, "a unit vector");
    same_parts(rt, &unit, wanted);
}

fn same_parts(rt: &impl Abort, found: &[Iv], wanted: &[Iv]) {
    assert!(rt; found.len() == 3 && wanted.len() == 3);
    for number in 0..3 {
        is_same(rt, &found[number], &wanted[number]);
    }
}

#[test]
fn unit_normals(rt: HostRuntime) {
    let way = Way {
        x: 229_000,
        y: 229_000,
        z: 0,
    };
    let corner = Way {
        x: 229_000,
        y: 0,
        z: 0,
    };
    let down = Iv { lo: -ONE, hi: -ONE };
    crosses(&rt, &way, &corner, &[NOTHING, NOTHING, down]);
    let short = Way { x: 3, y: 4, z: 0 };
    let corner = Way { x: 1, y: 1, z: 0 };
    crosses(&rt, &short, &corner, &[NOTHING, NOTHING, down]);
    let oblique = Way {
        x: 1_000,
        y: -2_000,
        z: 3_000,
    };
    let corner = Way {
        x: -4_000,
        y: 500,
        z: 700,
    };
    crosses(&rt, &oblique, &corner, &OBLIQUE);
    let long = Way {
        x: 17_320_508,
        y: 17_320_508,
        z: -17_320_508,
    };
    let corner = Way {
        x: 100_000_000,
        y: -100_000_000,
        z: 99_999_999,
    };
    crosses(&rt, &long, &corner, &LONG);
}

const OBLIQUE: [Iv; 3] = [
    Iv {
        lo: -13_901_817_479_501_050,
        hi: -13_901_817_479_501_049,
    },
    Iv {
        lo: -60_880_373_099_883_908,
        hi: -60_880_373_099_883_907,
    },
    Iv {
        lo: -35_952_976_240_088_922,
        hi: -35_952_976_240_088_921,
    },
];

// The longest ways.
const LONG: [Iv; 3] = [
    Iv {
        lo: -254_762_068,
        hi: -254_762_067,
    },
    Iv {
        lo: -50_952_413_252_825_147,
        hi: -50_952_413_252_825_146,
    },
    Iv {
        lo: -50_952_413_507_587_214,
        hi: -50_952_413_507_587_213,
    },
];

// The factor k is 1.
pub(crate) fn stiff_quarter() -> Arc
    ensures { IsArc result }
{
    quarter(Iv { lo: ONE, hi: ONE })
}

// The factor k is 6.582563.
pub(crate) fn flexible_quarter() -> Arc
    ensures { IsArc result }
{
    quarter(Iv {
        lo: 474_323_691_783_544_937,
        hi: 474_323_691_783_544_938,
    })
}

// The factor k is 1, of a radius of 1.5 m.
pub(crate) fn long_quarter() -> Arc
    ensures { IsArc result }
{
    Arc {
        radius: 1_500_000,
        ..stiff_quarter()
    }
}

// Along x, then y.
pub(crate) fn quarter_members(rt: &impl Abort, arc: &Arc, way: &Way) -> [Member; 6]
    requires arc { IsArc arc.now }
    requires way { IsWay way.now }
{
    members_of(rt, arc, way, &[NOTHING, NOTHING, Iv { lo: -ONE, hi: -ONE }])
}

pub(crate) const SHORT_WAY: Way = Way {
    x: 229_000,
    y: 229_000,
    z: 0,
};

pub(crate) const LONG_WAY: Way = Way {
    x: 1_500_000,
    y: 1_500_000,
    z: 0,
};

#[test]
fn bends(rt: HostRuntime) {
    judge(
        &rt,
        &quarter_members(&rt, &stiff_quarter(), &SHORT_WAY),
        &STIFF_QUARTER,
    );
    judge(
        &rt,
        &quarter_members(&rt, &flexible_quarter(), &SHORT_WAY),
        &QUARTER,
    );
}

#[test]
fn half_circle(rt: HostRuntime) {
    let way = Way {
        x: 0,
        y: 0,
        z: 1_000_000,
    };
    let across = Iv { lo: ONE, hi: ONE };
    let arc = Arc {
        radius: 500_000,
        a: Iv {
            lo: 113_187_804_032_455_044,
            hi: 113_187_804_032_455_045,
        },
        sin: Iv { lo: ONE, hi: ONE },
        cos: NOTHING,
        k: Iv {
            lo: 217_240_250_836_863_581,
            hi: 217_240_250_836_863_582,
        },
    };
    check(&rt, &arc, &way, &[NOTHING, across, NOTHING], &HALF_CIRCLE);
}

// The factor k is 1.
const STIFF_QUARTER: Wanted = Wanted {
    kappas: [
        Iv {
            lo: 6_830_657_075_166,
            hi: 6_830_657_075_168,
        },
        Iv {
            lo: 675_016_251_059_838,
            hi: 675_016_251_059_903,
        },
        Iv {
            lo: 2_225_858_510_022_280,
            hi: 2_225_858_510_022_514,
        },
        Iv {
            lo: 6_477_583_225_137,
            hi: 6_477_583_225_139,
        },
        Iv {
            lo: 5_484_300_002_028,
            hi: 5_484_300_002_030,
        },
        Iv {
            lo: 650_800_767_891_658,
            hi: 650_800_767_891_721,
        },
    ],
    rotations: [
        Iv {
            lo: 5_536_471_815_430_591,
            hi: 5_536_471_815_430_596,
        },
        Iv {
            lo: -10_964_717_219_254_907,
            hi: -10_964_717_219_254_902,
        },
        Iv { lo: 0, hi: 0 },
        Iv {
            lo: 10_964_717_219_254_902,
            hi: 10_964_717_219_254_907,
        },
        Iv {
            lo: -5_536_471_815_430_596,
            hi: -5_536_471_815_430_591,
        },
        Iv { lo: 0, hi: 0 },
    ],
};

// The factor k is 6.582563.
const QUARTER: Wanted = Wanted {
    kappas: [
        Iv {
            lo: 1_037_689_499_935,
            hi: 1_037_689_499_937,
        },
        Iv {
            lo: 107_892_269_676_078,
            hi: 107_892_269_676_089,
        },
        Iv {
            lo: 1_280_390_905_149_576,
            hi: 1_280_390_905_149_711,
        },
        Iv {
            lo: 1_214_819_785_725,
            hi: 1_214_819_785_726,
        },
        Iv {
            lo: 3_022_696_077_381,
            hi: 3_022_696_077_382,
        },
        Iv {
            lo: 187_737_538_162_367,
            hi: 187_737_538_162_386,
        },
    ],
    rotations: [
        Iv {
            lo: 10_457_936_893_851_628,
            hi: 10_457_936_893_851_633,
        },
        Iv {
            lo: -6_043_252_140_833_870,
            hi: -6_043_252_140_833_865,
        },
        Iv { lo: 0, hi: 0 },
        Iv {
            lo: 6_043_252_140_833_865,
            hi: 6_043_252_140_833_870,
        },
        Iv {
            lo: -10_457_936_893_851_633,
            hi: -10_457_936_893_851_628,
        },
        Iv { lo: 0, hi: 0 },
    ],
};

// The factor k is 3.014814.
const HALF_CIRCLE: Wanted = Wanted {
    kappas: [
        Iv {
            lo: 518_844_749_967,
            hi: 518_844_749_969,
        },
        Iv {
            lo: 4_132_914_246_390,
            hi: 4_132_914_246_392,
        },
        Iv {
            lo: 21_423_487_608_635,
            hi: 21_423_487_608_641,
        },
        Iv {
            lo: 725_046_517_580,
            hi: 725_046_517_582,
        },
        Iv {
            lo: 725_046_517_580,
            hi: 725_046_517_582,
        },
        Iv {
            lo: 6_368_190_802_761,
            hi: 6_368_190_802_764,
        },
    ],
    rotations: [
        Iv {
            lo: 36_028_797_018_963_968,
            hi: 36_028_797_018_963_968,
        },
        Iv { lo: 0, hi: 0 },
        Iv {
            lo: -13_821_053_330_358_575,
            hi: -13_821_053_330_358_574,
        },
        Iv {
            lo: 36_028_797_018_963_968,
            hi: 36_028_797_018_963_968,
        },
        Iv { lo: 0, hi: 0 },
        Iv {
            lo: 13_821_053_330_358_574,
            hi: 13_821_053_330_358_575,
        },
    ],
};
