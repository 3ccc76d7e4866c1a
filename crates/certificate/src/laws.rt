ghost use Rattle.certificate.specs.Bounds.{BoundsAreLimited, BoundsHold};
ghost use Rattle.certificate.specs.States.{StatesAreLimited, StatesHold};

/// What the bounds hold, by their definition: every equilibrium of every realisation whose stiffness is definite with lambda.
pub fn bounds_hold()
    ensures { BoundsHold }
{
    bound_laws::equilibria_are_near();
    member_set::intervals_hold();
}

/// Bounds around displacements of at most 2^60 units are below 2^67 in size, in units of 2^-56 m or rad and of 2^-40 N or N m.
pub fn bounds_are_limited()
    ensures { BoundsAreLimited }
{
    bound_laws::equilibria_are_near();
}

/// What the bounds with contact states hold, by their definition: every equilibrium of every realisation whose stiffness is
/// definite with lambda, and in it the state of each one-way member.
pub fn states_hold()
    ensures { StatesHold }
{
    bound_laws::equilibria_are_near();
    member_set::intervals_hold();
}

/// Bounds with contact states are below 2^67 in size too.
pub fn states_are_limited()
    ensures { StatesAreLimited }
{
    bound_laws::equilibria_are_near();
}
