ghost use Rattle.std.specs.Prelude.{◌≡◌, IfOk};
ghost use Rattle.accepted_text.specs.Accepted.{joined_nodes};

use model_types::Model;
use std::alloc::{AllocError, Global};

// The pairs of nodes that the elements of a model join.
pub fn joined_nodes(alloc: Global, model: &Model) -> Result<Vec<(u32, u32)>, AllocError>
    ensures { IfOk result (λ pairs. pairs.items ≡ joined_nodes model.now) }
{
    model
        .elements()
        .iter()
        .map(|element| (element.from.0, element.to.0))
        .collect(alloc)
}
