//! What the weight of an element puts on its two ends.
ghost use Rattle.std.specs.Prelude.{◌≡◌, ◌*◌, ◌^◌, ◌≤◌, Ok, pos, ℤ, ◌-ℤ◌, ◌*ℤ◌, ◌≤ℤ◌, unsigned_abs};
ghost use Rattle.angle_table.specs.Pi.{pi_ends};
ghost use Rattle.flex_interval.specs.Fraction.{Fraction, Within, scaled};
ghost use Rattle.model_types.specs.Ranges.{IsIn, of_size, CaseInForm, MaterialInForm, ShapeInForm};
ghost use Rattle.section_data.specs.Tube.{IsTube};
ghost use Rattle.member_pairs.specs.Lengths.{length_of, IsLengthWithin};
ghost use Rattle.member_pairs.specs.Vectors.{IsWay, Exact, parts_of, EnclosesVector};
ghost use Rattle.load_vectors.specs.Weights.{whole_vector, metres_of, chord_length_of, arc_length_of, axis_length_of, element_weight_of, shares_of, end_force_of, straight_moment_of, turned_of, end_moment_of, end_load_of, exact_metres, exact_axis_length, exact_element_weight, exact_shares, exact_end_force, exact_turned, exact_end_moment, lever_of, EnclosesEndLoad};
ghost use Rattle.load_vectors.specs.Totals.{IsVectorOfLoads};

use crate::multiples::multiple;
use angle_table::half;
use flex_interval::{Iv, share, small_product};
use member_pairs::{Way, length, negative, zero};
use model_types::ranges::{ACCELERATION, BEND_RADIUS};
use model_types::{Case, Material, Section, Shape};
use section_data::section;

/// The load on one end of an element.
#[derive(Clone, Copy)]
pub struct EndLoad {
    /// Its force along x, y and z, in units of 2^-40 N.
    pub force: [Iv; 3],
    /// Its moment about x, y and z, in units of 2^-40 N m.
    pub moment: [Iv; 3],
}

/// The load of so much weight of an element on its first node in a case, or where `at_to` on its second.
#[tactic(auto, unfolding(crate::specs::Weights::end_load_of))]
pub(crate) fn end_load_by(shape: &Shape, weight: Iv, way: &Way, case: &Case, at_to: bool) -> EndLoad
    requires lo { pos 0 ≤ℤ weight.lo }
    requires hi { weight.hi ≤ℤ pos (2 ^ 68) }
    requires way { IsWay way.now }
    requires case { CaseInForm case.now }
    ensures value { end_load_of shape.now weight way.now case.now at_to ≡ Ok result }
    ensures within { (w : Fraction) → Within weight w → EnclosesEndLoad result shape.now way.now case.now at_to w }
    ensures force_size { IsVectorOfLoads result.force }
    ensures moment_size { IsVectorOfLoads result.moment }
{
    EndLoad {
        force: end_force(weight, case),
        moment: end_moment(shape, weight, way, case, at_to),
    }
}

/// The weight of an element at standard gravity, in units of 2^-40 N.
#[tactic(auto, unfolding(crate::specs::Weights::element_weight_of))]
pub(crate) fn element_weight(s: &Section, m: &Material, shape: &Shape, way: &Way) -> Iv
    requires tube { IsTube s.now }
    requires material { MaterialInForm m.now }
    requires shape { ShapeInForm shape.now }
    requires way { IsWay way.now }
    ensures value { element_weight_of s.now m.now shape.now way.now ≡ Ok result }
    ensures within { (pi l : Fraction) → Within pi_ends pi → IsLengthWithin (parts_of way.now) l →
        Within result (exact_element_weight s.now m.now shape.now pi l) }
    ensures lo { pos 0 ≤ℤ result.lo }
    ensures hi { result.hi ≤ℤ pos (2 ^ 68) }
{
    let values = section(s, m, false);
    small_product(values.weight, axis_length(shape, way), 56)
}

/// The length of an element along its axis, in units of 2^-56 m.
fn axis_length(shape: &Shape, way: &Way) -> Iv
    requires shape { ShapeInForm shape.now }
    requires way { IsWay way.now }
    ensures value { axis_length_of shape.now way.now ≡ Ok result }
    ensures within { (pi l : Fraction) → Within pi_ends pi → IsLengthWithin (parts_of way.now) l →
        Within result (exact_axis_length shape.now pi l) }
    ensures lo { pos 0 ≤ℤ result.lo }
    ensures hi { result.hi ≤ℤ pos (2 ^ 62) }
{
    match *shape {
        Shape::Straight => chord_length(way),
        Shape::Bend { r, angle, .. } => arc_length(r, half(angle).a),
    }
}

/// The length of the chord, in units of 2^-56 m.
#[tactic(auto, unfolding(crate::specs::Weights::chord_length_of))]
pub(crate) fn chord_length(way: &Way) -> Iv
    requires { IsWay way.now }
    ensures value { chord_length_of way.now ≡ Ok result }
    ensures within { (l : Fraction) → IsLengthWithin (parts_of way.now) l → Within result (exact_metres l) }
    ensures lo { pos 0 ≤ℤ result.lo }
    ensures hi { result.hi ≤ℤ pos (2 ^ 62) }
{
    metres(way_length(way))
}

/// The length of a way, in units of 2^-36 micrometre.
fn way_length(way: &Way) -> Iv
    requires { IsWay way.now }
    ensures value { length_of (parts_of way.now) ≡ Ok result }
    ensures within { (l : Fraction) → IsLengthWithin (parts_of way.now) l → Within result l }
    ensures lo { pos 0 ≤ℤ result.lo }
    ensures hi { result.hi ≤ℤ pos (2 ^ 61) }
{
    length(way).unwrap()
}

/// A length of 2^-36 micrometre in units of 2^-56 m.
#[tactic(auto, unfolding(crate::specs::Weights::metres_of, crate::specs::Weights::exact_metres))]
fn metres(length: Iv) -> Iv
    requires lo { pos 0 ≤ℤ length.lo }
    requires hi { length.hi ≤ℤ pos (2 ^ 61) }
    ensures value { metres_of length ≡ Ok result }
    ensures within { (l : Fraction) → Within length l → Within result (exact_metres l) }
    ensures lo { pos 0 ≤ℤ result.lo }
    ensures hi { result.hi ≤ℤ pos (2 ^ 62) }
{
    share(length, 1 << 20, 1_000_000)
}

/// The length of an arc of that radius in micrometres and half angle, in units of 2^-56 m.
#[tactic(auto, unfolding(crate::specs::Weights::arc_length_of))]
fn arc_length(radius: i64, half: Iv) -> Iv
    requires radius { IsIn BEND_RADIUS radius }
    requires lo { pos 0 ≤ℤ half.lo }
    requires hi { half.hi ≤ℤ pos (2 ^ 57) }
    ensures value { arc_length_of radius half ≡ Ok result }
    ensures within { (a : Fraction) → Within half a → Within result (scaled a (pos 2 *ℤ radius) (pos (10 ^ 6))) }
    ensures lo { pos 0 ≤ℤ result.lo }
    ensures hi { result.hi ≤ℤ pos (2 ^ 62) }
{
    share(half, doubled(radius), 1_000_000)
}

fn doubled(radius: i64) -> i128
    requires { IsIn BEND_RADIUS radius }
    ensures value { result ≡ pos 2 *ℤ radius }
    ensures low { pos 0 ≤ℤ result }
    ensures high { result ≤ℤ pos 30000000 }
{
    2 * i128::from(radius)
}

/// Half of the weight, which each end carries.
fn end_force(weight: Iv, case: &Case) -> [Iv; 3]
    requires lo { pos 0 ≤ℤ weight.lo }
    requires hi { weight.hi ≤ℤ pos (2 ^ 68) }
    requires case { CaseInForm case.now }
    ensures value { end_force_of weight case.now ≡ Ok result }
    ensures within { (w : Fraction) → Within weight w → EnclosesVector result (exact_end_force w case.now) }
    ensures size { IsVectorOfLoads result }
{
    shares(
        weight,
        i128::from(case.gx),
        i128::from(case.gy),
        i128::from(case.gz),
        2000,
    )
}

/// The end moment: none at a bend.
fn end_moment(shape: &Shape, weight: Iv, way: &Way, case: &Case, at_to: bool) -> [Iv; 3]
    requires lo { pos 0 ≤ℤ weight.lo }
    requires hi { weight.hi ≤ℤ pos (2 ^ 68) }
    requires way { IsWay way.now }
    requires case { CaseInForm case.now }
    ensures value { end_moment_of shape.now weight way.now case.now at_to ≡ Ok result }
    ensures within { (w : Fraction) → Within weight w → EnclosesVector result (exact_end_moment shape.now w way.now case.now at_to) }
    ensures size { IsVectorOfLoads result }
{
    match *shape {
        Shape::Straight => turned(&straight_moment(weight, way, case), at_to),
        Shape::Bend { .. } => zero(),
    }
}

/// The moment at the first node of a straight, or its opposite at the second.
fn turned(moment: &[Iv; 3], at_to: bool) -> [Iv; 3]
    requires { IsVectorOfLoads moment.now }
    ensures value { result ≡ turned_of at_to moment.now }
    ensures within { (x : Exact) → EnclosesVector moment.now x → EnclosesVector result (exact_turned at_to x) }
    ensures size { IsVectorOfLoads result }
{
    if at_to { negative(moment) } else { *moment }
}

/// The moment of a straight's weight at its first node.
fn straight_moment(weight: Iv, way: &Way, case: &Case) -> [Iv; 3]
    requires lo { pos 0 ≤ℤ weight.lo }
    requires hi { weight.hi ≤ℤ pos (2 ^ 68) }
    requires way { IsWay way.now }
    requires case { CaseInForm case.now }
    ensures value { straight_moment_of weight way.now case.now ≡ Ok result }
    ensures within { (w : Fraction) → Within weight w → EnclosesVector result (exact_shares w (lever_of way.now case.now) (pos (12 * 10 ^ 9))) }
    ensures size { IsVectorOfLoads result }
{
    let x = lever(way.y, case.gz, way.z, case.gy);
    let y = lever(way.z, case.gx, way.x, case.gz);
    let z = lever(way.x, case.gy, way.y, case.gx);
    shares(
        weight,
        i128::from(x),
        i128::from(y),
        i128::from(z),
        12_000_000_000,
    )
}

/// A part of the cross product of a way and an acceleration.
fn lever(first: i64, g: i64, second: i64, h: i64) -> i64
    requires first { IsIn (of_size 30000000) first }
    requires g { IsIn ACCELERATION g }
    requires second { IsIn (of_size 30000000) second }
    requires h { IsIn ACCELERATION h }
    ensures value { result ≡ (first *ℤ g) -ℤ (second *ℤ h) }
    ensures size { unsigned_abs result ≤ 600000000000 }
{
    first * g - second * h
}

/// `a` times each part of a vector of whole numbers, divided by `m`.
#[tactic(auto, unfolding(crate::specs::Weights::shares_of))]
fn shares(a: Iv, x: i128, y: i128, z: i128, m: i128) -> [Iv; 3]
    requires lo { pos 0 ≤ℤ a.lo }
    requires hi { a.hi ≤ℤ pos (2 ^ 68) }
    requires x { unsigned_abs x ≤ 2 ^ 40 }
    requires y { unsigned_abs y ≤ 2 ^ 40 }
    requires z { unsigned_abs z ≤ 2 ^ 40 }
    requires divisor { pos 256 ≤ℤ m }
    ensures value { shares_of a (whole_vector x y z) m ≡ Ok result }
    ensures within { (w : Fraction) → Within a w → EnclosesVector result (exact_shares w (whole_vector x y z) m) }
    ensures size { IsVectorOfLoads result }
{
    [multiple(a, x, m), multiple(a, y, m), multiple(a, z, m)]
}
