ghost use Rattle.structure.specs.Laws.{LengthsExist, MembersLeadWithin, StatesAreCounted, StatesAreInOrder, StructuresHaveStates};
ghost use Rattle.structure.specs.Numbers.{StructuresHoldNumbers};
ghost use Rattle.structure.specs.Structure.{ModelsHaveTheirMembers, StructuresAreStiff};

/// A model has as many members as the shapes of its elements and the kinds of its restraints say.
pub fn models_have_their_members()
    ensures { ModelsHaveTheirMembers }
{}

/// The members of every structure of a model are stiff, by their definition.
pub fn structures_are_stiff()
    ensures { StructuresAreStiff }
{}

/// Where the members hold the exact straights and restraints, each stiffness and shape number of a structure has an interval
/// that holds a number.
pub fn structures_hold_numbers()
    ensures { StructuresHoldNumbers }
{}

/// The members of a structure that have states are those that hold one way, whatever the initial deformations of a case are.
pub fn structures_have_states()
    ensures { StructuresHaveStates }
{}

/// Where the states of a model's restraints stand: one after the other, in the order of the restraints and of their members.
pub fn states_of_restraints()
    ensures counted { StatesAreCounted }
    ensures in_order { StatesAreInOrder }
{}

/// Each way has a length within the enclosure of its length.
pub fn lengths_exist()
    ensures { LengthsExist }
{}

/// A member of a structure touches one node alone, or leads along an element.
pub fn members_lead_within()
    ensures { MembersLeadWithin }
{}
