ghost use Rattle.case_run.specs.Soundness.{AnswerHolds, AnswersHold, ForcesAreTold, ForcesHold, OneForceEach, RealisationsExist};

/// What the answers of a model's cases hold, as a function of the model and of the order of its nodes: every equilibrium of
/// every realisation of the model's structure under the loads of a case lies within the bounds of a certified answer, and each
/// contact is in the state that the answer tells.
pub fn answers_hold()
    ensures each { AnswerHolds }
    ensures all { AnswersHold }
{
    load_vectors::laws_suit_models();
    bound_laws::passed_test_is_proof();
    assembly::matrices_hold();
    member_set::states_select_members();
    certificate::states_hold();
    structure::structures_are_stiff();
    structure::structures_have_states();
}

/// What the forces of a model's cases hold: in every equilibrium of every realisation of the model's structure under the loads
/// of a case, the force of each member lies within its interval, and each member has one. A case has them exactly where its
/// answer is certified, which tells those of the restraints.
pub fn forces_hold()
    ensures each { ForcesHold }
    ensures one_each { OneForceEach }
    ensures told { ForcesAreTold }
{
    load_vectors::laws_suit_models();
    bound_laws::passed_test_is_proof();
    assembly::matrices_hold();
    member_set::states_select_members();
    certificate::states_hold();
    structure::structures_are_stiff();
    structure::structures_have_states();
}

/// What shows that there are realisations to speak of: the lower ends of a model's structure and of the loads of a case are
/// one.
pub fn realisations_exist()
    ensures { RealisationsExist }
{
    load_vectors::laws_hold_numbers();
    member_set::rest_is_equilibrium();
    structure::lengths_exist();
    structure::structures_hold_numbers();
}
