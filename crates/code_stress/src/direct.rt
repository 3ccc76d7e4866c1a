ghost use Rattle.std.specs.Prelude.{◌≡◌, Ok, ◌*◌, ◌^◌, pos, ◌*ℤ◌, ◌≤ℤ◌, ◌<ℤ◌, IfOk, IfSome};
ghost use Rattle.flex_interval.specs.Fraction.{Fraction, Within};
ghost use Rattle.code_stress.specs.Direct.{HasInside, IsPressure, inside_square, pressure_stress_of, pressure_stress, with_pressure_of, with_pressure};

use flex_interval::{Iv, IvFault, point, share};
use flex_num::floor_div;
use section_data::SectionIv;
use stress_terms::sum;

/// An axial stress, with that of the pressure in Pa where there is one.
pub fn with_pressure(stress: Iv, section: &SectionIv, pressure: Option<i64>) -> Result<Iv, IvFault>
    requires stress { pos 0 ≤ℤ stress.lo }
    requires section { HasInside section.now }
    requires pressure { IfSome pressure IsPressure }
    ensures value { result ≡ with_pressure_of stress section.now pressure }
    ensures within { IfOk result (λ e. (x : Fraction) → Within stress x → Within e (with_pressure x section.now pressure)) }
    ensures from_zero { IfOk result (λ e. pos 0 ≤ℤ e.lo) }
{
    match pressure {
        Some(p) => sum(stress, pressure_stress(section, p)),
        None => Ok(stress),
    }
}

/// The longitudinal stress of a pressure in Pa, `P d^2 / (D^2 - d^2)`, in units of 2^-16 Pa.
#[tactic(auto, unfolding(crate::specs::Direct::pressure_stress_of))]
fn pressure_stress(section: &SectionIv, pressure: i64) -> Iv
    requires section { HasInside section.now }
    requires pressure { IsPressure pressure }
    ensures value { pressure_stress_of section.now pressure ≡ Ok result }
    ensures within { Within result (pressure_stress section.now pressure) }
    ensures from_zero { pos 0 ≤ℤ result.lo }
{
    share(point(thrust(section, pressure)), 1 << 16, section.x)
}

/// `P d^2`.
fn thrust(section: &SectionIv, pressure: i64) -> i128
    requires section { HasInside section.now }
    requires pressure { IsPressure pressure }
    ensures value { result ≡ pressure *ℤ inside_square section.now }
    ensures low { pos 0 ≤ℤ result }
    ensures high { result ≤ℤ pos (4 * 10 ^ 20) }
{
    i128::from(pressure) * inside_square(section)
}

/// `d^2`, in square micrometres.
fn inside_square(section: &SectionIv) -> i128
    requires { HasInside section.now }
    ensures value { result ≡ inside_square section.now }
    ensures low { pos 0 ≤ℤ result }
    ensures high { result ≤ℤ pos (4 * 10 ^ 12) }
{
    floor_div(section.y - section.x, 2)
}
