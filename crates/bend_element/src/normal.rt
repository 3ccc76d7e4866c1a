ghost use Rattle.std.specs.Prelude.{◌≡◌, Ok, ◌+◌, ◌*◌, ◌≤◌, pos, ◌-ℤ◌, ◌*ℤ◌, ◌≤ℤ◌, ◌<ℤ◌, IfOk, IsOk};
ghost use Rattle.flex_interval.specs.Fraction.{Fraction, Within, whole, over};
ghost use Rattle.flex_interval.specs.Operations.{point_of, sqrt_of};
ghost use Rattle.model_types.specs.Ranges.{IsIn, of_size};
ghost use Rattle.member_pairs.specs.Span.{square_of};
ghost use Rattle.member_pairs.specs.Vectors.{IsWay, EnclosesVector};
ghost use Rattle.bend_element.specs.Normal.{IsCornerWay, IsNormal, normal_to, normal_parts, normal_shift, unit_part_of, unit_parts_of, unit_normal_of, IsNormalLengthWithin, IsNormalLength, unit_normal as exact_unit};

use flex_interval::{Iv, IvFault, best_root, div, point};
use member_pairs::Way;

/// A vector across the plane of a bend or a tee, in square micrometres.
#[derive(Clone, Copy)]
pub struct Normal {
    pub x: i64,
    pub y: i64,
    pub z: i64,
}

/// The length of such a vector, times 2^shift.
#[derive(Clone, Copy)]
pub struct NormalLength {
    pub shift: u32,
    pub scaled: Iv,
}

/// Two ways crossed: in a bend the way to its second node with the way to its corner, where the tangents at its ends meet, both
/// from the first node; in a tee the way along its branch with that along its header.
pub fn plane_normal(way: &Way, corner: &Way) -> Normal
    requires way { IsWay way.now }
    requires corner { IsCornerWay corner.now }
    requires not_zero { pos 0 <ℤ square_of (normal_parts (normal_to way.now corner.now)) }
    ensures value { result ≡ normal_to way.now corner.now }
    ensures normal { IsNormal result }
{
    Normal {
        x: minor(way.y, corner.z, way.z, corner.y),
        y: minor(way.z, corner.x, way.x, corner.z),
        z: minor(way.x, corner.y, way.y, corner.x),
    }
}

/// `a b - c d`.
fn minor(a: i64, b: i64, c: i64, d: i64) -> i64
    requires a { IsIn (of_size 30000000) a }
    requires b { IsIn (of_size 100000000) b }
    requires c { IsIn (of_size 30000000) c }
    requires d { IsIn (of_size 100000000) d }
    ensures value { result ≡ (a *ℤ b) -ℤ (c *ℤ d) }
    ensures size { IsIn (of_size 6000000000000000) result }
{
    a * b - c * d
}

/// The unit vector along a vector across a plane, in units of 2^-56; it is always there.
#[tactic(auto, unfolding(crate::specs::Normal::unit_normal_of))]
pub fn unit_normal(normal: &Normal) -> Result<[Iv; 3], IvFault>
    requires { IsNormal normal.now }
    ensures value { result ≡ unit_normal_of normal.now }
    ensures within { IfOk result (λ u. (l : Fraction) → IsNormalLengthWithin (normal_parts normal.now) l → EnclosesVector u (exact_unit (normal_parts normal.now) (normal_shift (normal_parts normal.now)) l)) }

    // The exact length is such a length.
    ensures length { (l : Fraction) → IsNormalLength (normal_parts normal.now) l → IsNormalLengthWithin (normal_parts normal.now) l }
    ensures found { IsOk result }
{
    let length = normal_length(normal);
    unit_parts(normal, &length)
}

/// The length of a vector across a bend's plane.
fn normal_length(normal: &Normal) -> NormalLength
    requires { IsNormal normal.now }
    ensures shift { result.shift ≡ normal_shift (normal_parts normal.now) }
    ensures most { result.shift ≤ 60 }
    ensures value { sqrt_of (point_of (square_of (normal_parts normal.now))) (2 * result.shift) ≡ Ok result.scaled }
    ensures exact { (l : Fraction) → IsNormalLength (normal_parts normal.now) l → Within result.scaled l }
{
    let (shift, scaled) = best_root(square(normal));
    NormalLength {
        shift: shift / 2,
        scaled,
    }
}

/// The square of its length.
fn square(normal: &Normal) -> i128
    requires { IsNormal normal.now }
    ensures value { result ≡ square_of (normal_parts normal.now) }
    ensures small { result ≤ℤ pos 108000000000000000000000000000000 }
{
    product(normal.x) + product(normal.y) + product(normal.z)
}

fn product(part: i64) -> i128
    requires { IsIn (of_size 6000000000000000) part }
    ensures value { result ≡ part *ℤ part }
    ensures low { pos 0 ≤ℤ result }
    ensures high { result ≤ℤ pos 36000000000000000000000000000000 }
{
    let part = i128::from(part);
    part * part
}

#[tactic(auto, unfolding(crate::specs::Normal::unit_parts_of))]
fn unit_parts(normal: &Normal, length: &NormalLength) -> Result<[Iv; 3], IvFault>
    requires normal { IsNormal normal.now }
    requires shift { length.now.shift ≤ 60 }
    ensures value { result ≡ unit_parts_of normal.now length.now.shift length.now.scaled }
    ensures within { IfOk result (λ u. (l : Fraction) → Within length.now.scaled l → EnclosesVector u (exact_unit (normal_parts normal.now) length.now.shift l)) }
{
    let x = unit_part(normal.x, length)?;
    let y = unit_part(normal.y, length)?;
    let z = unit_part(normal.z, length)?;
    Ok([x, y, z])
}

/// A part of the unit vector.
#[tactic(auto, unfolding(crate::specs::Normal::unit_part_of))]
fn unit_part(part: i64, length: &NormalLength) -> Result<Iv, IvFault>
    requires part { IsIn (of_size 6000000000000000) part }
    requires shift { length.now.shift ≤ 60 }
    ensures value { result ≡ unit_part_of part length.now.shift length.now.scaled }
    ensures within { IfOk result (λ e. (l : Fraction) → Within length.now.scaled l → Within e (over (whole part) l (56 + length.now.shift))) }
{
    div(exactly(part), length.scaled, 56 + length.shift)
}

fn exactly(part: i64) -> Iv
    requires { IsIn (of_size 6000000000000000) part }
    ensures value { result ≡ point_of part }
    ensures within { Within result (whole part) }
{
    point(i128::from(part))
}
