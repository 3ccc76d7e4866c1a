//! The integer Cholesky recurrence and its first breakdown, the fronts of its elimination, and their laws.
#![tactic(auto)]

ghost use Rattle.cholesky_laws.specs.Recurrence.{RecurrenceMeetsItsEquations, RecurrenceIsDetermined};
ghost use Rattle.cholesky_laws.specs.Laws.{RecurrenceLaws};
ghost use Rattle.cholesky_laws.specs.FrontLaws.{FrontLaws};

/// The law of the recurrence, for every matrix: its factor meets the equations between whole columns, and whatever meets
/// them is that factor.
pub fn recurrence_is_determined()
    ensures meets { RecurrenceMeetsItsEquations }
    ensures alone { RecurrenceIsDetermined }
{}

/// The laws of the recurrence, for every matrix: its entries by what is left, what is left column after column, how large
/// they are, the squares over a subtree, the columns of a node by themselves, and where it has no entries.
pub fn recurrence_keeps_laws()
    ensures { RecurrenceLaws }
{}

/// The laws of the fronts of an elimination: with the updates of its children, one after another, a front holds what the
/// recurrence leaves in its rows, and its columns and update are the recurrence's, or its first breakdown in the front's
/// subtree; how large its numbers are; and where a child's rows are in it.
pub fn fronts_follow_the_recurrence()
    ensures { FrontLaws }
{}
