ghost use Rattle.assembly.specs.Inclusion.{MatricesHold, AssembledHold};

/// What the middles and radii of a structure's matrix hold, by their definition: the matrix of every stiffness of the
/// structure, entry by entry.
pub fn matrices_hold()
    ensures { MatricesHold }
{
    flex_interval::operations_hold();
    member_set::intervals_hold();
}

/// The same of two assembled matrices, for the members that take part under given states.
pub(crate) fn assembled_hold()
    ensures { AssembledHold }
{
    flex_interval::operations_hold();
    member_set::intervals_hold();
    member_set::states_select_members();
}
