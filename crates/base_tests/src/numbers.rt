use flex_num::{ceil_div, floor_div, icbrt, icbrt_up, isqrt, isqrt_up, mul, nearest_div};

// Values at the ends of `i128` and at ties, worked out outside this program.
#[test]
fn quotients(rt: HostRuntime) {
    let rows: [(i128, i128, i128, i128, i128); 9] = [
        (7, 2, 3, 4, 4),
        (-7, 2, -4, -3, -3),
        (8, 3, 2, 3, 3),
        (-6, 3, -2, -2, -2),
        (
            i128::MAX,
            2,
            85_070_591_730_234_615_865_843_651_857_942_052_863,
            85_070_591_730_234_615_865_843_651_857_942_052_864,
            85_070_591_730_234_615_865_843_651_857_942_052_864,
        ),
        (
            i128::MIN,
            3,
            -56_713_727_820_156_410_577_229_101_238_628_035_243,
            -56_713_727_820_156_410_577_229_101_238_628_035_242,
            -56_713_727_820_156_410_577_229_101_238_628_035_243,
        ),
        (i128::MAX, i128::MAX, 1, 1, 1),
        (i128::MIN, i128::MAX, -2, -1, -1),
        (i128::MIN, 1, i128::MIN, i128::MIN, i128::MIN),
    ];
    for (n, d, floor, ceiling, nearest) in rows {
        if 0 < d {
            let answer = (floor_div(n, d), ceil_div(n, d), nearest_div(n, d));
            assert_eq!(rt; answer, (floor, ceiling, nearest), "at {n} / {d}");
        }
    }
}

#[test]
fn roots(rt: HostRuntime) {
    let rows: [(i128, i128, i128); 7] = [
        (0, 0, 0),
        (1, 1, 1),
        (3, 1, 2),
        (4, 2, 2),
        (1 << 111, 50_952_413_380_206_180, 50_952_413_380_206_181),
        (1 << 126, 1 << 63, 1 << 63),
        (
            i128::MAX,
            13_043_817_825_332_782_212,
            13_043_817_825_332_782_213,
        ),
    ];
    for (n, down, up) in rows {
        if 0 <= n {
            assert_eq!(rt; (isqrt(n), isqrt_up(n)), (down, up), "at {n}");
        }
    }
}

#[test]
fn cube_roots(rt: HostRuntime) {
    let rows: [(i128, i128, i128); 12] = [
        (0, 0, 0),
        (1, 1, 1),
        (7, 1, 2),
        (8, 2, 2),
        (9, 2, 3),
        (26, 2, 3),
        (27, 3, 3),
        (
            100_000_000_000_000_000_000_000_000_000_000_000_000,
            4_641_588_833_612,
            4_641_588_833_613,
        ),
        ((1 << 126) - 1, 4_398_046_511_103, 1 << 42),
        (1 << 126, 1 << 42, 1 << 42),
        ((1 << 126) + 1, 1 << 42, 4_398_046_511_105),
        (i128::MAX, 5_541_191_377_756, 5_541_191_377_757),
    ];
    for (n, down, up) in rows {
        if 0 <= n {
            assert_eq!(rt; (icbrt(n), icbrt_up(n)), (down, up), "at {n}");
        }
    }
}

#[test]
fn products(rt: HostRuntime) {
    let rows: [(i128, i128, Option<i128>); 5] = [
        (-3, 7, Some(-21)),
        (1 << 63, 1 << 63, Some(1 << 126)),
        (1 << 64, 1 << 63, None),
        (-(1 << 64), 1 << 63, Some(i128::MIN)),
        (i128::MIN, -1, None),
    ];
    for (a, b, product) in rows {
        assert_eq!(rt; mul(a, b), product, "at {a} * {b}");
    }
}
