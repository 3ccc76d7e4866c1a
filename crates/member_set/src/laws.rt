ghost use Rattle.member_set.specs.Inclusion.{ReachHolds, PastsHold, ForcesHold, ResidualsHold, NumbersAreInRange, NodesSuffice};
ghost use Rattle.member_set.specs.Interval.{FaultsStay};
ghost use Rattle.member_set.specs.States.{StaysBuilt, HasStiffnessUnder, NoStatesNoChange, LinearMembersTakePart};
ghost use Rattle.member_set.specs.Realisation.{LawsKeepStretch, LinearIsEveryMember, LowerEndsAreRealisation, RestIsEquilibrium};

/// What shows that the definition of an equilibrium is met: intervals that hold numbers have a realisation, and a structure
/// without loads and initial deformations is in equilibrium at rest, whatever its numbers within their intervals.
pub fn rest_is_equilibrium()
    ensures realised { LowerEndsAreRealisation }
    ensures balanced { RestIsEquilibrium }
{}

/// What every law keeps: the change of what counts of a reach is between nothing and the change of the reach, and all of it
/// where the law is linear. Where all laws are linear, all members make the stiffness matrix at all displacements.
pub fn laws_keep_stretch()
    ensures keep { LawsKeepStretch }
    ensures every_member { LinearIsEveryMember }
{}

/// What the intervals of reach, state, force and residual hold, by their definitions: for displacements and bounds that no call has
/// met. The members at a row's node are all that have a part in the row.
pub fn intervals_hold()
    ensures reaches { ReachHolds }
    ensures pasts { PastsHold }
    ensures forces { ForcesHold }
    ensures residuals { ResidualsHold }
    ensures in_range { NumbersAreInRange }
    ensures by_node { NodesSuffice }
{
    flex_interval::operations_hold();
}

/// What the structure under given states is: built like the structure, with the stiffness of the members that take part.
pub fn states_select_members()
    ensures built { StaysBuilt }
    ensures stiffness { HasStiffnessUnder }
    ensures no_states { NoStatesNoChange }
    ensures linear { LinearMembersTakePart }
{}

/// A sum in turn that has met a fault keeps it.
pub fn faults_stay()
    ensures { FaultsStay }
{}
