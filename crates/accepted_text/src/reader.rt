ghost use Rattle.std.specs.Prelude.{◌≡◌, ℕ, length, Ok, Err, IfOk};
ghost use Rattle.lists.specs.Order.{IsOrder};
ghost use Rattle.model_text.specs.Grammar.{parsed};
ghost use Rattle.accepted_text.specs.Accepted.{IsModelTree, IsAcceptedAs, IsRefusedBy};

use crate::fault::{AcceptFault, FRONT};
use crate::graph::joined_nodes;
use elim_order::{OrderFault, order};
use elim_tree::{Tree, tree};
use model_text::{node_line, read};
use model_types::{Model, NodeId};
use std::alloc::Global;

/// What a text is accepted as: its model, and the assembly tree of the model's elimination order.
#[derive(Drop)]
pub struct Accepted {
    pub model: Model,
    pub tree: Tree,
}

/// Reads a text of at most 4,194,304 bytes. It is refused by the grammar of the model text, at the line that is at fault; or,
/// after all that, by 16: at the line of the first node, in elimination order, that has over 31 neighbours left as it is
/// eliminated, or at line 1 where the assembly tree would have over 33,554,432 entries.
pub fn accept(alloc: Global, text: &[u8]) -> Result<Accepted, AcceptFault>
    ensures accepted { IfOk result (λ a. IsAcceptedAs text.now a.model a.tree) }
    ensures permutation { IfOk result (λ a. IsOrder a.tree.order × (length a.tree.order ≡ length a.model.nodes)) }
    ensures refused { (number line : ℕ) → result ≡ Err (AcceptFault.Refused number line) → IsRefusedBy text.now number line }
{
    let model = read(alloc, text)?;
    let tree = model_tree(alloc, text, &model)?;
    Ok(Accepted { model, tree })
}

// The assembly tree of the model of a text.
fn model_tree(alloc: Global, text: &[u8], model: &Model) -> Result<Tree, AcceptFault>
    requires { parsed text.now ≡ Ok model.now }
    ensures tree { IfOk result (IsModelTree model.now) }
    ensures permutation { IfOk result (λ t. IsOrder t.order × (length t.order ≡ length model.now.nodes)) }
    ensures refused { (number line : ℕ) → result ≡ Err (AcceptFault.Refused number line) → IsRefusedBy text.now number line }
{
    let nodes = model.nodes().len() as u32;
    let pairs = joined_nodes(alloc, model)?;
    match order(alloc, nodes, &pairs) {
        Ok(order) => Ok(tree(alloc, &order, &pairs)?),
        Err(OrderFault::Broad { node }) => Err(AcceptFault::Refused {
            number: FRONT,
            line: node_line(text, NodeId(node)),
        }),
        Err(OrderFault::NoMemory) => Err(AcceptFault::NoMemory),
    }
}
