ghost use Rattle.accepted_text.specs.Accepted.{TreeOrReason, OneModelTree, OneModelAndTree, OneRefusal, NeverAcceptedAndRefused};

use elim_order::{orders_are_determined, orders_exist};
use elim_tree::{trees_are_determined, trees_exist};
use model_text::lines_are_determined;

/// What shows that the definition leaves no choice: a model has one tree, and a text is accepted with one model and one tree, or
/// refused by one number at one line, and never both.
pub fn acceptance_is_determined()
    ensures one_tree { OneModelTree }
    ensures one_model { OneModelAndTree }
    ensures one_refusal { OneRefusal }
    ensures never_both { NeverAcceptedAndRefused }
{
    lines_are_determined();
    orders_are_determined();
    trees_are_determined();
}

/// What shows that the definition speaks of every model: it has an assembly tree, or a first node that is too broad, or too many
/// entries for a tree.
pub fn acceptance_exists()
    ensures { TreeOrReason }
{
    orders_exist();
    trees_exist();
}
