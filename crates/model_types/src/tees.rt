//! Whether the elements at a tee's node make the tee.
ghost use Rattle.std.specs.Prelude.{◌≡◌, ◌≤◌, not, position, length, [], ◌∷◌, All, Some, MatchOption};
ghost use Rattle.std.specs.Option.{option_map};
ghost use Rattle.model_types.specs.Ranges.{NodeInForm};
ghost use Rattle.model_types.specs.Tees as tee_of;

use crate::records::{Element, Node, Shape, Tee};
use crate::spans::{Difference, are_parallel, difference_between};
use text_words::Name;

/// The number of the first tee that the elements at its node don't make.
pub(crate) fn first_broken(nodes: &[Node], elements: &[Element], tees: &[Tee]) -> Option<u32>
    requires nodes { All NodeInForm nodes.now }
    requires few { length tees.now ≤ 500 }
    ensures { result ≡ position (λ t. not (tee_of.is_tee nodes.now elements.now t)) tees.now }
{
    for number in 0..tees.len() {
        if !is_tee(nodes, elements, &tees[number]) {
            return Some(number as u32);
        }
    }
    None
}

// Whether the elements at a tee's node make it.
fn is_tee(nodes: &[Node], elements: &[Element], tee: &Tee) -> bool
    requires { All NodeInForm nodes.now }
    ensures { result ≡ tee_of.is_tee nodes.now elements.now tee.now }
{
    let Some(branch) = elements.get(tee.branch.0 as usize) else {
        return false;
    };
    let Some((first, second)) = two_beside(elements, tee.node.0, &branch.name) else {
        return false;
    };
    is_made_of(nodes, tee, branch, first, second)
}

// Whether a branch and two other elements make a tee.
fn is_made_of(
    nodes: &[Node],
    tee: &Tee,
    branch: &Element,
    first: &Element,
    second: &Element,
) -> bool
    requires { All NodeInForm nodes.now }
    ensures { result ≡ tee_of.make_tee nodes.now tee.now branch.now (Some (first.now, second.now)) }
{
    is_branch(tee, branch)
        && is_header(tee, first)
        && is_header(tee, second)
        && are_in_line(nodes, first, second)
        && !are_in_line(nodes, branch, first)
}

// Whether an element is a straight that ends at a tee's node.
fn is_branch(tee: &Tee, element: &Element) -> bool
    ensures { result ≡ tee_of.is_branch tee.now element.now }
{
    is_straight(element.shape) && ends_at(element, tee.node.0)
}

// Whether an element is a straight of a tee's header.
fn is_header(tee: &Tee, element: &Element) -> bool
    ensures { result ≡ tee_of.is_header tee.now element.now }
{
    is_straight(element.shape) && element.section.0 == tee.header.0
}

fn is_straight(shape: Shape) -> bool
    ensures { result ≡ tee_of.is_straight shape }
{
    match shape {
        Shape::Straight => true,
        Shape::Bend { .. } => false,
    }
}

// Whether an element ends at a node.
fn ends_at(element: &Element, node: u32) -> bool
    ensures { result ≡ tee_of.ends_at node element.now }
{
    element.from.0 == node || element.to.0 == node
}

// Whether two elements that share a node lie on one line.
fn are_in_line(nodes: &[Node], first: &Element, second: &Element) -> bool
    requires { All NodeInForm nodes.now }
    ensures { result ≡ tee_of.are_in_line (tee_of.run_of nodes.now first.now) (tee_of.run_of nodes.now second.now) }
{
    match (run_of(nodes, first), run_of(nodes, second)) {
        (Some(u), Some(v)) => are_parallel(&u, &v),
        _ => false,
    }
}

// The difference of an element's nodes, where both are there.
fn run_of(nodes: &[Node], element: &Element) -> Option<Difference>
    requires { All NodeInForm nodes.now }
    ensures { result ≡ tee_of.run_of nodes.now element.now }
{
    let from = nodes.get(element.from.0 as usize)?;
    let to = nodes.get(element.to.0 as usize)?;
    Some(difference_between(from, to))
}

// The two elements that end at a node beside one of them, where there are just two.
fn two_beside<'a>(
    elements: &'a [Element],
    node: u32,
    name: &Name,
) -> Option<(&'a Element, &'a Element)>
    ensures { option_map (λ pair. (pair.0.now, pair.1.now)) result ≡ tee_of.just_two (tee_of.beside node name.now elements.now) }
{
    let (first, behind) = next_beside(elements, node, name)?;
    let (second, last) = next_beside(behind, node, name)?;
    match next_beside(last, node, name) {
        Some(_) => None,
        None => Some((first, second)),
    }
}

// The first element that ends at a node beside one of that name, and the elements behind it.
fn next_beside<'a>(
    elements: &'a [Element],
    node: u32,
    name: &Name,
) -> Option<(&'a Element, &'a [Element])>
    ensures { MatchOption result (tee_of.beside node name.now elements.now ≡ [])
        (λ found. tee_of.beside node name.now elements.now ≡ found.0.now ∷ tee_of.beside node name.now found.1.now) }
{
    match place_beside(elements, node, name) {
        Some(at) => Some((&elements[at], &elements[at + 1..])),
        None => None,
    }
}

// The place of that element.
fn place_beside(elements: &[Element], node: u32, name: &Name) -> Option<usize>
    ensures { result ≡ position (tee_of.is_beside node name.now) elements.now }
{
    elements
        .iter()
        .position(|element| is_beside(element, node, name))
}

// Whether an element ends at a node and hasn't that name.
fn is_beside(element: &Element, node: u32, name: &Name) -> bool
    ensures { result ≡ tee_of.is_beside node name.now element.now }
{
    ends_at(element, node) && element.name != *name
}
