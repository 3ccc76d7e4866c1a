ghost use Rattle.std.specs.Prelude.{◌≡◌, ◌∷◌, ◌<◌, ◌≤◌, length, All, IfOk};
ghost use Rattle.lists.specs.Lists.{contents};
ghost use Rattle.dense_front.specs.Space.{AreColumnsFor};
ghost use Rattle.dense_front.specs.Tree.{nodes_at};

use std::alloc::{AllocError, Global};

// The places of a front's rows: its own, then the later ones.
pub fn all_places(alloc: Global, front: u32, later: &[u32]) -> Result<Vec<u32>, AllocError>
    ensures { IfOk result (λ places. places.items ≡ front ∷ later.now) }
{
    let mut places = vec![in alloc; front]?;
    places.extend_from_slice(later)?;
    Ok(places)
}

// The nodes at these places of an order.
pub fn nodes_of(alloc: Global, order: &[u32], places: &[u32]) -> Result<Vec<u32>, AllocError>
    requires { All (λ p. p < length order.now) places.now }
    ensures { IfOk result (λ nodes. nodes.items ≡ nodes_at order.now places.now) }
{
    let mut nodes = Vec::with_capacity(alloc, places.len())?;
    for i in 0..places.len() {
        nodes.push(order[places[i] as usize])?;
    }
    Ok(nodes)
}

// Six columns of zeros, as long as those of a lower triangle of so many rows.
pub fn zero_columns(alloc: Global, rows: usize) -> Result<Vec<Vec<i64>>, AllocError>
    requires { 6 ≤ rows }
    ensures { IfOk result (λ columns. AreColumnsFor rows (contents columns.items)) }
{
    let mut columns = Vec::with_capacity(alloc, 6)?;
    for column in 0..6 {
        columns.push(vec![in alloc; 0; rows - column]?)?;
    }
    Ok(columns)
}
