ghost use Rattle.elim_order.specs.Determined.{OneOrder, OneBroadNode, NeverBoth};
ghost use Rattle.elim_order.specs.Exist.{OrderOrBroadNode, LinksAreDecided};

/// What shows that the rule of the order leaves no choice, and looks at the set of pairs alone: there is at most one
/// order, or one first broad node, and never both.
pub fn orders_are_determined()
    ensures one_order { OneOrder }
    ensures one_broad { OneBroadNode }
    ensures never_both { NeverBoth }
{}

/// What shows that the rule of the order never leaves a graph without an answer: where each pair joins two different nodes,
/// there is an order, or a first broad node.
pub fn orders_exist()
    ensures some { OrderOrBroadNode }
    ensures decided { LinksAreDecided }
{}
