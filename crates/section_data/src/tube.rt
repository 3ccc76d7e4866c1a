ghost use Rattle.std.specs.Prelude.{◌≡◌, ◌^◌, ◌*◌, Ok, false, ℤ, pos, ◌-ℤ◌, ◌+ℤ◌, ◌*ℤ◌, ◌≤ℤ◌, ◌<ℤ◌};
ghost use Rattle.flex_interval.specs.Fraction.{Fraction, Within, scaled, whole};
ghost use Rattle.flex_interval.specs.Operations.{ratio_of, point_of};
ghost use Rattle.angle_table.specs.Pi.{pi_ends};
ghost use Rattle.model_types.specs.Ranges.{MaterialInForm};
ghost use Rattle.section_data.specs.Tube.{IsTube, IsHollow, inside_diameter as inside_of, wall_of, difference_of_squares, exact_area, exact_weight_of, weight_factor, weight_of};

use angle_table::pi;
use flex_interval::{Iv, point, share, small_sum};
use model_types::{Material, Section};

/// The inside diameter, in micrometres.
pub fn inside_diameter(s: &Section, reduced: bool) -> i64
    requires { IsTube s.now }
    ensures value { result ≡ inside_of s.now reduced }
    ensures hollow { IsHollow s.now.d result }
{
    s.d - 2 * wall(s, reduced)
}

/// The wall: the full one, or less the allowance.
fn wall(s: &Section, reduced: bool) -> i64
    requires { IsTube s.now }
    ensures value { result ≡ wall_of s.now reduced }
    ensures low { pos 1 ≤ℤ result }
    ensures high { (pos 2 *ℤ result) <ℤ s.now.d }
{
    if reduced { s.t - s.allowance } else { s.t }
}

/// D^2 - d^2.
pub fn square_difference(outside: i64, inside: i64) -> i128
    requires { IsHollow outside inside }
    ensures value { result ≡ (outside *ℤ outside) -ℤ (inside *ℤ inside) }
    ensures low { pos 0 <ℤ result }
    ensures high { result ≤ℤ pos (4 * 10 ^ 12) }
{
    square(outside) - square(inside)
}

/// D^2 + d^2.
pub fn square_sum(outside: i64, inside: i64) -> i128
    requires { IsHollow outside inside }
    ensures value { result ≡ (outside *ℤ outside) +ℤ (inside *ℤ inside) }
    ensures low { (outside *ℤ outside) ≤ℤ result }
    ensures high { result ≤ℤ pos (8 * 10 ^ 12) }
{
    square(outside) + square(inside)
}

fn square(length: i64) -> i128
    requires low { pos 0 ≤ℤ length }
    requires high { length ≤ℤ pos 2000000 }
    ensures value { result ≡ length *ℤ length }
    ensures low { pos 0 ≤ℤ result }
    ensures high { result ≤ℤ pos (4 * 10 ^ 12) }
{
    let length = i128::from(length);
    length * length
}

/// The area of the wall.
#[tactic(auto, unfolding(crate::specs::Tube::exact_area))]
pub fn area(difference: i128) -> Iv
    requires low { pos 0 <ℤ difference }
    requires high { difference ≤ℤ pos (4 * 10 ^ 12) }
    ensures value { ratio_of pi_ends difference (pos (2 ^ 42)) ≡ Ok result }
    ensures within { (pi : Fraction) → Within pi_ends pi → Within result (exact_area pi difference) }
    ensures lo { pos 8 ≤ℤ result.lo }
    ensures hi { result.hi ≤ℤ pos (2 ^ 58) }
{
    share(pi(), difference, 1 << 42)
}

/// The section modulus, from the area.
pub fn modulus(area: Iv, sum: i128, outside: i64) -> Iv
    requires lo { pos 8 ≤ℤ area.lo }
    requires hi { area.hi ≤ℤ pos (2 ^ 58) }
    requires sum_low { (outside *ℤ outside) ≤ℤ sum }
    requires sum_high { sum ≤ℤ pos (8 * 10 ^ 12) }
    requires outside_low { pos 1 ≤ℤ outside }
    requires outside_high { outside ≤ℤ pos 2000000 }
    ensures value { ratio_of area sum (pos 8 *ℤ outside) ≡ Ok result }
    ensures within { (x : Fraction) → Within area x → Within result (scaled x sum (pos 8 *ℤ outside)) }
    ensures lo { pos 0 <ℤ result.lo }
{
    prove!(area.lo <= area.hi);
    share(area, sum, eightfold(outside))
}

fn eightfold(outside: i64) -> i128
    requires low { pos 1 ≤ℤ outside }
    requires high { outside ≤ℤ pos 2000000 }
    ensures value { result ≡ pos 8 *ℤ outside }
    ensures positive { pos 0 <ℤ result }
{
    8 * i128::from(outside)
}

/// The area of the full wall.
pub fn full_area(s: &Section) -> Iv
    requires { IsTube s.now }
    ensures value { ratio_of pi_ends (difference_of_squares s.now false) (pos (2 ^ 42)) ≡ Ok result }
    ensures within { (pi : Fraction) → Within pi_ends pi → Within result (exact_area pi (difference_of_squares s.now false)) }
    ensures lo { pos 0 ≤ℤ result.lo }
    ensures hi { result.hi ≤ℤ pos (2 ^ 58) }
{
    area(square_difference(s.d, inside_diameter(s, false)))
}

/// The weight per length of the pipe, of contents and of insulation, from the area of the full wall.
#[tactic(auto, unfolding(crate::specs::Tube::weight_of, crate::specs::Tube::exact_weight_of))]
pub fn weight(area: Iv, s: &Section, m: &Material) -> Iv
    requires lo { pos 0 ≤ℤ area.lo }
    requires hi { area.hi ≤ℤ pos (2 ^ 58) }
    requires tube { IsTube s.now }
    requires material { MaterialInForm m.now }
    ensures value { weight_of area s.now m.now ≡ Ok result }
    ensures within { (x : Fraction) → Within area x → Within result (exact_weight_of x s.now m.now) }
{
    let pipe = pipe_weight(area, m);
    let rest = extra_weight(s);
    small_sum(pipe, rest)
}

/// The weight of the pipe alone.
fn pipe_weight(area: Iv, m: &Material) -> Iv
    requires lo { pos 0 ≤ℤ area.lo }
    requires hi { area.hi ≤ℤ pos (2 ^ 58) }
    requires material { MaterialInForm m.now }
    ensures value { ratio_of area (weight_factor m.now) (pos (10 ^ 17)) ≡ Ok result }
    ensures within { (x : Fraction) → Within area x → Within result (scaled x (weight_factor m.now) (pos (10 ^ 17))) }
    ensures lo { pos 0 ≤ℤ result.lo }
    ensures hi { result.hi ≤ℤ pos (2 ^ 61) }
{
    share(area, weight_factor(m), 100_000_000_000_000_000)
}

fn weight_factor(m: &Material) -> i128
    requires { MaterialInForm m.now }
    ensures value { result ≡ weight_factor m.now }
    ensures low { pos 0 ≤ℤ result }
    ensures high { result ≤ℤ pos (2 ^ 59) }
{
    i128::from(m.rho) * (980_665 << 24)
}

/// The weight of contents and insulation.
fn extra_weight(s: &Section) -> Iv
    requires { IsTube s.now }
    ensures value { ratio_of (point_of s.now.extra) (pos (2 ^ 40)) (pos 1000) ≡ Ok result }
    ensures within { Within result (scaled (whole s.now.extra) (pos (2 ^ 40)) (pos 1000)) }
    ensures lo { pos 0 ≤ℤ result.lo }
    ensures hi { result.hi ≤ℤ pos (2 ^ 57) }
{
    share(point(i128::from(s.extra)), 1 << 40, 1000)
}
