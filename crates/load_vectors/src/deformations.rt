//! The length by which an element would grow if it were free.
ghost use Rattle.std.specs.Prelude.{◌≡◌, ◌*◌, ◌^◌, ◌≤◌, Ok, false, pos, ℤ, ◌-ℤ◌, ◌*ℤ◌, ◌≤ℤ◌, ◌<ℤ◌, unsigned_abs};
ghost use Rattle.load_vectors.specs.Totals.{IsOfLoads};
ghost use Rattle.flex_interval.specs.Fraction.{Fraction, Within};
ghost use Rattle.model_types.specs.Ranges.{IsIn, MaterialInForm};
ghost use Rattle.section_data.specs.Tube.{IsTube, IsHollow, difference_of_squares, inside_diameter};
ghost use Rattle.member_pairs.specs.Lengths.{IsLengthWithin};
ghost use Rattle.member_pairs.specs.Vectors.{IsWay, parts_of};
ghost use Rattle.load_vectors.specs.Deformations.{inside_square, lateral_factor, modulus_factor, thermal_elongation_of, pressure_elongation_of, deformation_of, exact_thermal_elongation, exact_pressure_elongation, exact_deformation};

use crate::multiples::multiple;
use crate::weights::chord_length;
use flex_interval::{Iv, add, share};
use member_pairs::Way;
use model_types::ranges::{EXPANSION, MODULUS, POISSON_RATIO, PRESSURE, TEMPERATURE_CHANGE};
use model_types::{Material, Section};
use section_data::section;

/// The initial deformation of an element along this way, in units of 2^-56 m, by a change of temperature of `dt` millikelvin and a
/// pressure of `p` Pa in a pipe with closed ends.
#[tactic(auto, unfolding(crate::specs::Deformations::deformation_of))]
pub fn deformation(s: &Section, m: &Material, way: &Way, dt: i64, p: i64) -> Iv
    requires tube { IsTube s.now }
    requires material { MaterialInForm m.now }
    requires way { IsWay way.now }
    requires heat { IsIn TEMPERATURE_CHANGE dt }
    requires pressure { IsIn PRESSURE p }
    ensures value { deformation_of s.now m.now way.now dt p ≡ Ok result }
    ensures within { (l : Fraction) → IsLengthWithin (parts_of way.now) l → Within result (exact_deformation s.now m.now l dt p) }
{
    let length = chord_length(way);
    let heat = thermal_elongation(length, m, dt);
    let pressure = pressure_elongation(length, s, m, p);
    add(heat, pressure).unwrap()
}

/// The elongation of so long a pipe by a change of temperature.
#[tactic(auto, unfolding(crate::specs::Deformations::thermal_elongation_of, crate::specs::Deformations::exact_thermal_elongation))]
fn thermal_elongation(length: Iv, m: &Material, dt: i64) -> Iv
    requires lo { pos 0 ≤ℤ length.lo }
    requires hi { length.hi ≤ℤ pos (2 ^ 62) }
    requires material { MaterialInForm m.now }
    requires heat { IsIn TEMPERATURE_CHANGE dt }
    ensures value { thermal_elongation_of length m.now dt ≡ Ok result }
    ensures within { (l : Fraction) → Within length l → Within result (exact_thermal_elongation l m.now dt) }
    ensures size { IsOfLoads 1 result }
{
    multiple(length, expansion(m.alpha, dt), 1_000_000_000_000)
}

/// Expansion times change of temperature, in 10^-12.
fn expansion(alpha: i64, dt: i64) -> i128
    requires alpha { IsIn EXPANSION alpha }
    requires heat { IsIn TEMPERATURE_CHANGE dt }
    ensures value { result ≡ alpha *ℤ dt }
    ensures size { unsigned_abs result ≤ 2 ^ 40 }
{
    i128::from(alpha) * i128::from(dt)
}

/// The elongation of so long a pipe with closed ends by a pressure.
#[tactic(auto, unfolding(crate::specs::Deformations::pressure_elongation_of, crate::specs::Deformations::exact_pressure_elongation))]
fn pressure_elongation(length: Iv, s: &Section, m: &Material, p: i64) -> Iv
    requires lo { pos 0 ≤ℤ length.lo }
    requires hi { length.hi ≤ℤ pos (2 ^ 62) }
    requires tube { IsTube s.now }
    requires material { MaterialInForm m.now }
    requires pressure { IsIn PRESSURE p }
    ensures value { pressure_elongation_of length s.now m.now p ≡ Ok result }
    ensures within { (l : Fraction) → Within length l → Within result (exact_pressure_elongation l s.now m.now p) }
    ensures lo { pos 0 ≤ℤ result.lo }
    ensures hi { result.hi ≤ℤ pos (2 ^ 120) }
{
    let bore = share(length, inside_square(s), wall_square(s, m));
    share(bore, lateral_factor(m.nu, p), modulus_factor(m.e))
}

/// d^2, in square micrometres.
fn inside_square(s: &Section) -> i128
    requires { IsTube s.now }
    ensures value { result ≡ inside_square s.now }
    ensures low { pos 0 ≤ℤ result }
    ensures high { result ≤ℤ pos (2 ^ 42) }
    ensures thin { result ≤ℤ (pos 10000 *ℤ difference_of_squares s.now false) }
{
    square(inside_diameter(s))
}

/// d, in micrometres.
fn inside_diameter(s: &Section) -> i64
    requires { IsTube s.now }
    ensures value { result ≡ inside_diameter s.now false }
    ensures hollow { IsHollow s.now.d result }
{
    s.d - 2 * s.t
}

fn square(length: i64) -> i128
    ensures { result ≡ length *ℤ length }
{
    i128::from(length) * i128::from(length)
}

/// D^2 - d^2, in square micrometres.
fn wall_square(s: &Section, m: &Material) -> i128
    requires tube { IsTube s.now }
    requires material { MaterialInForm m.now }
    ensures value { result ≡ difference_of_squares s.now false }
    ensures positive { pos 0 <ℤ result }
{
    section(s, m, false).x
}

/// p (1 - 2 nu), with nu in thousandths.
fn lateral_factor(nu: i64, p: i64) -> i128
    requires nu { IsIn POISSON_RATIO nu }
    requires pressure { IsIn PRESSURE p }
    ensures value { result ≡ p *ℤ (pos 1000 -ℤ (pos 2 *ℤ nu)) }
    ensures low { pos 0 ≤ℤ result }
    ensures high { result ≤ℤ pos (10 ^ 11) }
{
    i128::from(p) * i128::from(1000 - 2 * nu)
}

/// E in 10^-3 Pa.
fn modulus_factor(e: i64) -> i128
    requires { IsIn MODULUS e }
    ensures value { result ≡ pos (10 ^ 9) *ℤ e }
    ensures positive { pos 0 <ℤ result }
{
    1_000_000_000 * i128::from(e)
}
