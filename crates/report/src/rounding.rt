ghost use Rattle.std.specs.Prelude.{◌≡◌, ◌*ℤ◌};
ghost use Rattle.int_laws.specs.Division.{ceil_of, floor_of, nearest_of};
ghost use Rattle.model_types.specs.Fits.{IsModest};
ghost use Rattle.report.specs.Rounding.{IsScale, PrintedHolds, PrintedStressesHold};

use flex_num::{ceil_div, floor_div, nearest_div};
use stress_terms::wider_stresses_hold;

/// Nanometres and nanoradians in a metre and a radian.
pub(crate) const NANO: i128 = 1_000_000_000;

/// Millinewtons in a newton.
pub(crate) const MILLI: i128 = 1_000;

/// Units of displacement, 2^-56 m and rad, in a metre and a radian.
pub(crate) const DISPLACEMENT_UNITS: i128 = 1 << 56;

/// Units of load, 2^-40 N and N m, in a newton and a newton metre.
pub(crate) const LOAD_UNITS: i128 = 1 << 40;

/// Millionths in one.
pub(crate) const MILLION: i128 = 1_000_000;

/// Units of a flexibility factor, 2^-56, in one.
pub(crate) const FLEXIBILITY_UNITS: i128 = 1 << 56;

/// Units of stress, 2^-16 Pa, in a kilopascal.
pub(crate) const KILOPASCAL: i128 = 65_536_000;

/// Units of a stress intensification factor, 2^-30, in one.
pub(crate) const INDEX_UNITS: i128 = 1 << 30;

/// `z * n / m` rounded down.
pub(crate) fn rounded_down(z: i128, n: i128, m: i128) -> i128
    requires modest { IsModest z }
    requires scale { IsScale n m }
    ensures { result ≡ floor_of (z *ℤ n) m }
{
    floor_div(z * n, m)
}

/// `z * n / m` rounded up.
pub(crate) fn rounded_up(z: i128, n: i128, m: i128) -> i128
    requires modest { IsModest z }
    requires scale { IsScale n m }
    ensures { result ≡ ceil_of (z *ℤ n) m }
{
    ceil_div(z * n, m)
}

/// `z * n / m` rounded to the nearest.
pub(crate) fn rounded(z: i128, n: i128, m: i128) -> i128
    requires modest { IsModest z }
    requires scale { IsScale n m }
    ensures { result ≡ nearest_of (z *ℤ n) m }
{
    nearest_div(z * n, m)
}

/// What rounding outwards keeps: a number within its bounds is, in the unit of the report, within the printed pair.
pub fn printed_pairs_hold()
    ensures { PrintedHolds }
{}

/// What bounds tell of a stress and of an allowable, the pair in kPa that is printed of them tells too.
pub fn printed_stresses_hold()
    ensures { PrintedStressesHold }
{
    wider_stresses_hold();
}
