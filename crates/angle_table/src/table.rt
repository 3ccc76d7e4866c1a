ghost use Rattle.std.specs.Prelude.{IsTrue};
ghost use Rattle.angle_table.specs.HalfAngle.{is_bend_angle, HalfEnds};
ghost use Rattle.angle_table.specs.TrueCosine.{EnclosesHalf};

use crate::angle::Half;
use flex_interval::Iv;

/// Half of an angle that a bend may have, its sine and its cosine. The angle is 22.5, 30, 45, 60, 90 or 180 degrees, in thousandths.
pub fn half(angle: u32) -> Half
    requires { IsTrue (is_bend_angle angle) }
    ensures value { HalfEnds angle result }
    ensures encloses { EnclosesHalf angle result }
{
    if angle == 22_500 {
        eleven_and_a_quarter()
    } else if angle == 30_000 {
        fifteen()
    } else if angle == 45_000 {
        twenty_two_and_a_half()
    } else if angle == 60_000 {
        thirty()
    } else if angle == 90_000 {
        forty_five()
    } else {
        ninety()
    }
}

/// The half of 22.5 degrees.
fn eleven_and_a_quarter() -> Half
    ensures value { HalfEnds 22500 result }
    ensures encloses { EnclosesHalf 22500 result }
{
    Half {
        a: Iv {
            lo: 14_148_475_504_056_880,
            hi: 14_148_475_504_056_881,
        },
        sin: Iv {
            lo: 14_057_739_224_566_804,
            hi: 14_057_739_224_566_808,
        },
        cos: Iv {
            lo: 70_673_027_573_671_297,
            hi: 70_673_027_573_671_298,
        },
    }
}

/// The half of 30 degrees.
fn fifteen() -> Half
    ensures value { HalfEnds 30000 result }
    ensures encloses { EnclosesHalf 30000 result }
{
    Half {
        a: Iv {
            lo: 18_864_634_005_409_174,
            hi: 18_864_634_005_409_175,
        },
        sin: Iv {
            lo: 18_649_877_681_281_601,
            hi: 18_649_877_681_281_604,
        },
        cos: Iv {
            lo: 69_602_291_061_487_781,
            hi: 69_602_291_061_487_783,
        },
    }
}

/// The half of 45 degrees.
fn twenty_two_and_a_half() -> Half
    ensures value { HalfEnds 45000 result }
    ensures encloses { EnclosesHalf 45000 result }
{
    Half {
        a: Iv {
            lo: 28_296_951_008_113_761,
            hi: 28_296_951_008_113_762,
        },
        sin: Iv {
            lo: 27_575_247_414_404_490,
            hi: 27_575_247_414_404_492,
        },
        cos: Iv {
            lo: 66_572_536_293_648_945,
            hi: 66_572_536_293_648_946,
        },
    }
}

/// The half of 60 degrees.
fn thirty() -> Half
    ensures value { HalfEnds 60000 result }
    ensures encloses { EnclosesHalf 60000 result }
{
    Half {
        a: Iv {
            lo: 37_729_268_010_818_348,
            hi: 37_729_268_010_818_349,
        },
        sin: Iv {
            lo: 36_028_797_018_963_968,
            hi: 36_028_797_018_963_968,
        },
        cos: Iv {
            lo: 62_403_706_972_431_699,
            hi: 62_403_706_972_431_700,
        },
    }
}

/// The half of 90 degrees.
fn forty_five() -> Half
    ensures value { HalfEnds 90000 result }
    ensures encloses { EnclosesHalf 90000 result }
{
    Half {
        a: Iv {
            lo: 56_593_902_016_227_522,
            hi: 56_593_902_016_227_523,
        },
        sin: Iv {
            lo: 50_952_413_380_206_180,
            hi: 50_952_413_380_206_181,
        },
        cos: Iv {
            lo: 50_952_413_380_206_180,
            hi: 50_952_413_380_206_181,
        },
    }
}

/// The half of 180 degrees.
fn ninety() -> Half
    ensures value { HalfEnds 180000 result }
    ensures encloses { EnclosesHalf 180000 result }
{
    Half {
        a: Iv {
            lo: 113_187_804_032_455_044,
            hi: 113_187_804_032_455_045,
        },
        sin: Iv {
            lo: 72_057_594_037_927_936,
            hi: 72_057_594_037_927_936,
        },
        cos: Iv { lo: 0, hi: 0 },
    }
}
