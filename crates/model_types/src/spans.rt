//! Where an element may run: the tests of its nodes, its section and its shape.
ghost use Rattle.std.specs.Prelude.{◌≡◌, ◌≤◌, ◌*◌, ◌^◌, pos, ◌-ℤ◌, ◌*ℤ◌, ◌≤ℤ◌, unwrap_or, slice_get, ◌∷◌, [], false, Ok, int_lt, All};
ghost use Rattle.std.specs.Ordering.{int_eq};
ghost use Rattle.flex_interval.specs.Operations.{ends};
ghost use Rattle.angle_table.specs.HalfAngle.{IsSine};
ghost use Rattle.model_types.specs.Bends as bend;
ghost use Rattle.model_types.specs.Ranges.{IsIn, NodeInForm, ShapeInForm};
ghost use Rattle.model_types.specs.Refusals as refused;
ghost use Rattle.model_types.specs.Rules.{square_distance as square_between, square_difference as square_from};

use crate::answers::Bounds;
use crate::ranges::{BEND_RADIUS, COORDINATE, CORNER, FARTHEST_CORNER, LONGEST};
use crate::records::{Element, Node, Section, Shape};
use angle_table::sines_are_sines;
use flex_num::{ceil_div, floor_div};

/// The difference of two places, in micrometres.
#[derive(Clone, Copy)]
pub struct Difference {
    pub x: i64,
    pub y: i64,
    pub z: i64,
}

/// The tests of an element: its nodes lie at one place, or too far apart, or they or its section don't fit its shape. For a bend
/// `sine` encloses the sine of half its angle.
pub(crate) fn element_refusal(
    nodes: &[Node],
    sections: &[Section],
    element: &Element,
    sine: Bounds,
) -> Option<u8>
    requires nodes { All NodeInForm nodes.now }
    requires shape { ShapeInForm element.now.shape }
    requires sine { refused.IsSineOf element.now.shape sine }
    ensures { result ≡ refused.first_refusal (refused.test 10 (refused.has_no_length nodes.now element.now) ∷ refused.test 11 (refused.is_too_long nodes.now element.now)
        ∷ refused.test 12 (refused.has_bad_shape nodes.now sections.now element.now) ∷ []) }
{
    let square = square_length(nodes, element);
    if square.is_some_and(|square| square == 0) {
        return Some(10);
    }
    if square.is_some_and(|square| square > LONGEST * LONGEST) {
        return Some(11);
    }
    if has_bad_shape(nodes, sections, element, sine) {
        return Some(12);
    }
    None
}

// The square of the distance between an element's nodes, in square micrometres, where they are there.
fn square_length(nodes: &[Node], element: &Element) -> Option<u128>
    requires { All NodeInForm nodes.now }
    ensures { result ≡ refused.square_length nodes.now element.now }
{
    let from = nodes.get(element.from.0 as usize)?;
    let to = nodes.get(element.to.0 as usize)?;
    Some(square_distance(from, to))
}

// The square of the distance between two nodes, in square micrometres.
fn square_distance(from: &Node, to: &Node) -> u128
    requires from_form { NodeInForm from.now }
    requires to_form { NodeInForm to.now }
    ensures { result ≡ square_between from.now to.now }
{
    square_difference(from.x, to.x)
        + square_difference(from.y, to.y)
        + square_difference(from.z, to.z)
}

// The square of the difference of two coordinates.
fn square_difference(from: i64, to: i64) -> u128
    requires from_range { IsIn COORDINATE from }
    requires to_range { IsIn COORDINATE to }
    ensures square { result ≡ square_from from to }
    ensures small { result ≤ (2 * 10 ^ 10) ^ 2 }
{
    let difference = to.abs_diff(from) as u128;
    difference * difference
}

// Whether an element's nodes and section are there and don't fit its shape.
fn has_bad_shape(nodes: &[Node], sections: &[Section], element: &Element, sine: Bounds) -> bool
    requires nodes { All NodeInForm nodes.now }
    requires shape { ShapeInForm element.now.shape }
    requires sine { refused.IsSineOf element.now.shape sine }
    ensures { result ≡ refused.has_bad_shape nodes.now sections.now element.now }
{
    let Some(from) = nodes.get(element.from.0 as usize) else {
        return false;
    };
    let Some(to) = nodes.get(element.to.0 as usize) else {
        return false;
    };
    let Some(section) = sections.get(element.section.0 as usize) else {
        return false;
    };
    is_bad_shape(from, to, section, element.shape, sine)
}

// Whether nodes and a section don't fit a shape.
fn is_bad_shape(from: &Node, to: &Node, section: &Section, shape: Shape, sine: Bounds) -> bool
    requires from { NodeInForm from.now }
    requires to { NodeInForm to.now }
    requires shape { ShapeInForm shape }
    requires sine { refused.IsSineOf shape sine }
    ensures { result ≡ refused.is_bad_shape from.now to.now section.now shape }
{
    match shape {
        Shape::Straight => false,
        Shape::Bend {
            r,
            angle: _,
            px,
            py,
            pz,
        } => {
            sines_are_sines();
            let corner = difference_to(from, px, py, pz);
            is_bad_bend(from, to, section, r, &corner, sine)
        }
    }
}

// Whether nodes and a section don't fit a bend of that radius and corner.
fn is_bad_bend(
    from: &Node,
    to: &Node,
    section: &Section,
    r: i64,
    corner: &Difference,
    sine: Bounds,
) -> bool
    requires from { NodeInForm from.now }
    requires to { NodeInForm to.now }
    requires radius { IsIn BEND_RADIUS r }
    requires sine { IsSine (ends sine.lo sine.hi) }
    ensures { result ≡ refused.is_bad_bend from.now to.now section.now r corner.now (Ok (ends sine.lo sine.hi)) }
{
    if is_under_half(r, section.d) {
        return true;
    }
    if is_far(corner) {
        return true;
    }
    if are_parallel(&difference_between(from, to), corner) {
        return true;
    }
    misfits(square_distance(from, to), r, sine)
}

// Whether a radius is under half of a diameter.
fn is_under_half(r: i64, d: i64) -> bool
    requires { IsIn BEND_RADIUS r }
    ensures { result ≡ int_lt (pos 2 *ℤ r) d }
{
    2 * r < d
}

/// The difference of two nodes.
pub(crate) fn difference_between(from: &Node, to: &Node) -> Difference
    requires from { NodeInForm from.now }
    requires to { NodeInForm to.now }
    ensures { result ≡ bend.difference_between from.now to.now }
{
    Difference {
        x: to.x - from.x,
        y: to.y - from.y,
        z: to.z - from.z,
    }
}

// The difference of a node and a place.
fn difference_to(from: &Node, x: i64, y: i64, z: i64) -> Difference
    requires from { NodeInForm from.now }
    requires x { IsIn CORNER x }
    requires y { IsIn CORNER y }
    requires z { IsIn CORNER z }
    ensures { result ≡ bend.difference_to from.now x y z }
{
    Difference {
        x: x - from.x,
        y: y - from.y,
        z: z - from.z,
    }
}

// Whether a coordinate of a bend's corner differs too much from that of its first node.
fn is_far(corner: &Difference) -> bool
    ensures { result ≡ refused.is_far corner.now }
{
    corner.x.unsigned_abs() > FARTHEST_CORNER
        || corner.y.unsigned_abs() > FARTHEST_CORNER
        || corner.z.unsigned_abs() > FARTHEST_CORNER
}

/// Whether two differences are parallel.
pub(crate) fn are_parallel(u: &Difference, v: &Difference) -> bool
    ensures { result ≡ bend.are_parallel u.now v.now }
{
    if !are_same_products(u.y, v.z, u.z, v.y) {
        return false;
    }
    if !are_same_products(u.z, v.x, u.x, v.z) {
        return false;
    }
    are_same_products(u.x, v.y, u.y, v.x)
}

// Whether `a b` is `c d`.
fn are_same_products(a: i64, b: i64, c: i64, d: i64) -> bool
    ensures { result ≡ int_eq (a *ℤ b) (c *ℤ d) }
{
    i128::from(a) * i128::from(b) == i128::from(c) * i128::from(d)
}

// Whether a chord is too short or too long for a radius and the sine of half an angle.
fn misfits(square: u128, r: i64, sine: Bounds) -> bool
    requires radius { IsIn BEND_RADIUS r }
    requires sine { IsSine (ends sine.lo sine.hi) }
    ensures { result ≡ refused.misfits square r (ends sine.lo sine.hi) }
{
    let shortest = shortest_chord(r, sine.lo);
    let longest = longest_chord(r, sine.hi);
    square < shortest * shortest || longest * longest < square
}

// The shortest chord of a bend, in micrometres.
fn shortest_chord(r: i64, sine: i128) -> u128
    requires radius { IsIn BEND_RADIUS r }
    requires least { pos 0 ≤ℤ sine }
    requires most { sine ≤ℤ pos (2 ^ 56) }
    ensures value { result ≡ bend.shortest_chord r sine }
    ensures small { result ≤ 30001000 }
{
    from_zero(floor_div(twice_by(r, sine), 1 << 56) - 1000)
}

// The longest chord of a bend, in micrometres.
fn longest_chord(r: i64, sine: i128) -> u128
    requires radius { IsIn BEND_RADIUS r }
    requires least { pos 0 ≤ℤ sine }
    requires most { sine ≤ℤ pos (2 ^ 56) }
    ensures value { result ≡ bend.longest_chord r sine }
    ensures small { result ≤ 30001000 }
{
    from_zero(ceil_div(twice_by(r, sine), 1 << 56) + 1000)
}

// `2 r` times a sine, in 2^-56 micrometre.
fn twice_by(r: i64, sine: i128) -> i128
    requires radius { IsIn BEND_RADIUS r }
    requires least { pos 0 ≤ℤ sine }
    requires most { sine ≤ℤ pos (2 ^ 56) }
    ensures value { result ≡ (pos 2 *ℤ r) *ℤ sine }
    ensures least { pos 0 ≤ℤ result }
    ensures most { result ≤ℤ pos (30000000 * 2 ^ 56) }
{
    i128::from(2 * r) * sine
}

// A number, or 0 where it is negative.
fn from_zero(z: i128) -> u128
    ensures { result ≡ bend.from_zero z }
{
    if z < 0 { 0 } else { z as u128 }
}
