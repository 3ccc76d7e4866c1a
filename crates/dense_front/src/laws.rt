ghost use Rattle.dense_front.specs.Tree.{TreeFrontLaws};

use cholesky_laws::{fronts_follow_the_recurrence, recurrence_keeps_laws};

/// The laws of a tree's fronts with their own entries of a matrix less a shift: they are a base for the values of fronts,
/// its parents are the tree's and its matrix the one that is loaded, and a front that is loaded awaits its first child.
pub fn tree_fronts_are_a_base()
    ensures { TreeFrontLaws }
{
    recurrence_keeps_laws();
    fronts_follow_the_recurrence();
}
