ghost use Rattle.elim_tree.specs.Laws.{OneTree, NeverTooMany, TreeOrTooMany, ParentsAreOfElimination, FillLiesInRows, StiffnessIsOnPattern};

use cholesky_laws::recurrence_keeps_laws;
use elim_order::orders_exist;

/// What shows that an order and the set of pairs leave no choice: there is at most one tree, and never one beside too many
/// entries.
pub fn trees_are_determined()
    ensures one_tree { OneTree }
    ensures never_too_many { NeverTooMany }
{}

/// What shows that each order has a tree, or too many entries for one.
pub fn trees_exist()
    ensures { TreeOrTooMany }
{
    orders_exist();
}

/// What a tree is for: its parents are those of the elimination, and the integer Cholesky recurrence of every matrix on the
/// pattern, as is each scaled stiffness that joins no other nodes than the pairs do, has entries only in the fronts' rows.
pub fn fill_lies_in_rows()
    ensures parents { ParentsAreOfElimination }
    ensures fill { FillLiesInRows }
    ensures stiffness { StiffnessIsOnPattern }
{
    recurrence_keeps_laws();
}
