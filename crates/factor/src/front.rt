ghost use Rattle.std.specs.Prelude.{◌≡◌, ◌<◌, All, IfOk, length, map};
ghost use Rattle.lists.specs.Order.{place_of};

use lists::Permutation;
use std::alloc::{AllocError, Global};

// The places of some nodes in the order.
pub fn places_of(alloc: Global, order: &Permutation, nodes: &[u32]) -> Result<Vec<u32>, AllocError>
    requires { All (λ m. m < length order.now) nodes.now }
    ensures { IfOk result (λ found. found.items ≡ map (λ m. place_of m order.now) nodes.now) }
{
    nodes
        .iter()
        .map(|node| order.place_of(*node))
        .collect(alloc)
}
