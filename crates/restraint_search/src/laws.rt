ghost use Rattle.std.specs.Prelude.{List, Bool};
ghost use Rattle.restraint_search.specs.Determined.{HasOneOutcome};

use crate::trial::Trial;

/// Where a trial's findings and faults are decided, a search from any states has one outcome.
pub fn search_has_one_outcome<T: Trial>(trial: &T)
    ensures { (start : List Bool) → HasOneOutcome (T.finds trial.now) (T.fails trial.now) start }
{}
