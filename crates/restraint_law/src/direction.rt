ghost use Rattle.std.specs.Prelude.{◌≡◌, Ok, ◌+◌, ◌*◌, ◌≤◌, ◌^◌, ℤ, pos, ◌*ℤ◌, ◌≤ℤ◌, ◌<ℤ◌, unsigned_abs};
ghost use Rattle.flex_interval.specs.Fraction.{Fraction, Within, whole, over};
ghost use Rattle.flex_interval.specs.Operations.{point_of, sqrt_of, quotients};
ghost use Rattle.flex_interval.specs.Roots.{EnclosesRoot};
ghost use Rattle.model_types.specs.Ranges.{IsIn};
ghost use Rattle.model_types.specs.declared.ranges.TheConstants.{DIRECTION_PART};
ghost use Rattle.member_pairs.specs.Span.{square_of};
ghost use Rattle.member_pairs.specs.Vectors.{EnclosesVector};
ghost use Rattle.restraint_law.specs.Directions.{IsRestraintDirection, parts, length_shift, length_of, unit_vector, IsLength, exact_unit};

use flex_interval::{Iv, best_root, div, point};

/// The direction of a restraint, of which only the ratio of its parts counts.
#[derive(Clone, Copy)]
pub struct Direction {
    pub x: i64,
    pub y: i64,
    pub z: i64,
}

/// The length of a direction, times 2^shift.
#[derive(Clone, Copy)]
pub struct ScaledLength {
    pub shift: u32,
    pub scaled: Iv,
}

/// The unit vector along a direction, in units of 2^-56.
#[tactic(auto, unfolding(crate::specs::Directions::unit_vector))]
pub fn unit_vector(d: &Direction) -> [Iv; 3]
    requires { IsRestraintDirection d.now }
    ensures value { result ≡ unit_vector (parts d.now) }
    ensures within { (l : Fraction) → Within (length_of (parts d.now)) l → EnclosesVector result (exact_unit (parts d.now) l) }

    // The exact length lies within its enclosure.
    ensures encloses { EnclosesRoot 2 (point_of (square_of (parts d.now))) (2 * length_shift (parts d.now)) (length_of (parts d.now)) }
    ensures length { (l : Fraction) → IsLength (parts d.now) l → Within (length_of (parts d.now)) l }
{
    let length = scaled_length(d);
    [
        unit_part(d.x, &length),
        unit_part(d.y, &length),
        unit_part(d.z, &length),
    ]
}

/// The length of a direction.
fn scaled_length(d: &Direction) -> ScaledLength
    requires { IsRestraintDirection d.now }
    ensures shift { result.shift ≡ length_shift (parts d.now) }
    ensures most { result.shift ≤ 60 }
    ensures value { sqrt_of (point_of (square_of (parts d.now))) (2 * result.shift) ≡ Ok result.scaled }
    ensures some { pos 0 <ℤ square_of (parts d.now) }
    ensures small { (square_of (parts d.now) *ℤ pos (2 ^ (2 * result.shift))) <ℤ pos (2 ^ 124) }
    ensures encloses { EnclosesRoot 2 (point_of (square_of (parts d.now))) (2 * result.shift) result.scaled }
    ensures exact { (l : Fraction) → IsLength (parts d.now) l → Within result.scaled l }
{
    let (shift, scaled) = best_root(square(d));
    ScaledLength {
        shift: shift / 2,
        scaled,
    }
}

/// The square of its length.
fn square(d: &Direction) -> i128
    requires { IsRestraintDirection d.now }
    ensures value { result ≡ square_of (parts d.now) }
    ensures positive { pos 0 <ℤ result }
    ensures small { result ≤ℤ pos 3000000000000 }
{
    product(d.x) + product(d.y) + product(d.z)
}

fn product(part: i64) -> i128
    requires { IsIn DIRECTION_PART part }
    ensures value { result ≡ part *ℤ part }
    ensures low { pos 0 ≤ℤ result }
    ensures high { result ≤ℤ pos 1000000000000 }
{
    let part = i128::from(part);
    part * part
}

/// A part of the unit vector.
fn unit_part(part: i64, length: &ScaledLength) -> Iv
    requires part { IsIn DIRECTION_PART part }
    requires shift { length.now.shift ≤ 60 }
    requires positive { pos 0 <ℤ length.now.scaled.lo }
    requires small { unsigned_abs (part *ℤ pos (2 ^ (56 + length.now.shift))) ≤ 2 ^ 125 }
    ensures value { result ≡ quotients (point_of (part *ℤ pos (2 ^ (56 + length.now.shift)))) length.now.scaled }
    ensures within { (l : Fraction) → Within length.now.scaled l → Within result (over (whole part) l (56 + length.now.shift)) }
{
    div(exactly(part), length.scaled, 56 + length.shift).unwrap()
}

fn exactly(part: i64) -> Iv
    requires { IsIn DIRECTION_PART part }
    ensures value { result ≡ point_of part }
    ensures within { Within result (whole part) }
{
    point(i128::from(part))
}
