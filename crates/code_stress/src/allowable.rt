ghost use Rattle.std.specs.Prelude.{◌≡◌, pos, ◌*ℤ◌, ◌≤ℤ◌, IfOk, Some};
ghost use Rattle.flex_interval.specs.Fraction.{Fraction, Within, whole, scaled, times};
ghost use Rattle.flex_interval.specs.Operations.{point_of};
ghost use Rattle.code_stress.specs.Allowable.{IsAllowable, IsPercent, kilopascals, is_below, occasional_whole, basic_whole, full_whole, basic_range, full_range, stress_range, range_of, IsSustained, expansion_allowable_of};

use flex_interval::{Iv, IvFault, mul, point, sub};

/// The unit of stresses, 2^-16 Pa: so many in a kilopascal.
const KILOPASCAL: i128 = 65_536_000;

/// The allowable of a sustained stress: SH, in kPa (ASME B31.3-2016, 302.3.5(c)).
pub fn sustained_allowable(sh: i64) -> Iv
    requires { IsAllowable sh }
    ensures value { result ≡ point_of (kilopascals sh) }
    ensures within { Within result (whole (kilopascals sh)) }
{
    point(KILOPASCAL * i128::from(sh))
}

/// The allowable of an occasional stress: so many percent of SH, in kPa (302.3.6).
pub fn occasional_allowable(sh: i64, percent: i64) -> Iv
    requires stress { IsAllowable sh }
    requires percent { IsPercent percent }
    ensures value { result ≡ point_of (occasional_whole sh percent) }
    ensures within { Within result (scaled (whole (kilopascals sh)) percent (pos 100)) }
{
    point(occasional_whole(sh, percent))
}

/// The same as a whole number.
fn occasional_whole(sh: i64, percent: i64) -> i128
    requires stress { IsAllowable sh }
    requires percent { IsPercent percent }
    ensures value { result ≡ occasional_whole sh percent }
    ensures low { pos 0 ≤ℤ result }
    ensures high { result ≤ℤ pos 400000000000000 }
{
    655_360 * percentage(sh, percent)
}

fn percentage(sh: i64, percent: i64) -> i128
    requires stress { IsAllowable sh }
    requires percent { IsPercent percent }
    ensures value { result ≡ sh *ℤ percent }
    ensures low { pos 0 ≤ℤ result }
    ensures high { result ≤ℤ pos 400000000 }
{
    i128::from(sh) * i128::from(percent)
}

/// The allowable of a displacement stress range, `f (1.25 SC + 0.25 SH)`, with f in units of 2^-20 and SC and SH in kPa (302.3.5(d)).
/// Where the sustained stress SL of the station is given and below SH, it is `f (1.25 (SC + SH) - SL)`. `Wide` where a product leaves the limit.
#[tactic(auto, unfolding(crate::specs::Allowable::expansion_allowable_of))]
pub fn expansion_allowable(f: Iv, sc: i64, sh: i64, sustained: Option<Iv>) -> Result<Iv, IvFault>
    requires cold { IsAllowable sc }
    requires hot { IsAllowable sh }
    ensures value { result ≡ expansion_allowable_of f sc sh sustained }
    ensures within { IfOk result (λ e. (x s : Fraction) → Within f x → IsSustained sustained s → Within e (times x (stress_range sustained s sc sh) 20)) }
{
    let range = range(sc, sh, sustained)?;
    mul(f, range, 20)
}

/// What f is taken of.
fn range(sc: i64, sh: i64, sustained: Option<Iv>) -> Result<Iv, IvFault>
    requires cold { IsAllowable sc }
    requires hot { IsAllowable sh }
    ensures value { result ≡ range_of sustained sc sh }
    ensures within { IfOk result (λ e. (s : Fraction) → IsSustained sustained s → Within e (stress_range sustained s sc sh)) }
{
    match sustained {
        Some(sl) => known_range(sc, sh, sl),
        None => Ok(basic(sc, sh)),
    }
}

/// What f is taken of where the sustained stress is given.
fn known_range(sc: i64, sh: i64, sl: Iv) -> Result<Iv, IvFault>
    requires cold { IsAllowable sc }
    requires hot { IsAllowable sh }
    ensures value { result ≡ range_of (Some sl) sc sh }
    ensures within { IfOk result (λ e. (s : Fraction) → Within sl s → Within e (stress_range (Some sl) s sc sh)) }
{
    if is_below(sl, sh) {
        sub(full(sc, sh), sl)
    } else {
        Ok(basic(sc, sh))
    }
}

/// Whether a stress is below SH.
fn is_below(sl: Iv, sh: i64) -> bool
    requires { IsAllowable sh }
    ensures { result ≡ is_below sl sh }
{
    sl.hi < KILOPASCAL * i128::from(sh)
}

/// `1.25 SC + 0.25 SH`.
fn basic(sc: i64, sh: i64) -> Iv
    requires cold { IsAllowable sc }
    requires hot { IsAllowable sh }
    ensures value { result ≡ point_of (basic_whole sc sh) }
    ensures within { Within result (basic_range sc sh) }
{
    point(basic_whole(sc, sh))
}

/// The same as a whole number.
fn basic_whole(sc: i64, sh: i64) -> i128
    requires cold { IsAllowable sc }
    requires hot { IsAllowable sh }
    ensures value { result ≡ basic_whole sc sh }
    ensures low { pos 0 ≤ℤ result }
    ensures high { result ≤ℤ pos 400000000000000 }
{
    16_384_000 * (5 * i128::from(sc) + i128::from(sh))
}

/// `1.25 (SC + SH)`.
fn full(sc: i64, sh: i64) -> Iv
    requires cold { IsAllowable sc }
    requires hot { IsAllowable sh }
    ensures value { result ≡ point_of (full_whole sc sh) }
    ensures within { Within result (full_range sc sh) }
{
    point(full_whole(sc, sh))
}

/// The same as a whole number.
fn full_whole(sc: i64, sh: i64) -> i128
    requires cold { IsAllowable sc }
    requires hot { IsAllowable sh }
    ensures value { result ≡ full_whole sc sh }
    ensures low { pos 0 ≤ℤ result }
    ensures high { result ≤ℤ pos 400000000000000 }
{
    81_920_000 * (i128::from(sc) + i128::from(sh))
}
