ghost use Rattle.std.specs.Prelude.{◌≡◌, ◌↔◌, ◌+◌, ◌≤◌, ℕ, List, Bool, length, IfOk, Err};
ghost use Rattle.restraint_search.specs.Outcomes.{EndsAt, RunsOut, FailsIn};

use crate::fault::{SearchFault, fault_in_turn};
use crate::flips::{flip, some_violated};
use crate::trial::{Trial, TrialFault};
use std::alloc::Global;

/// After so many turns the search gives up.
const MOST_TURNS: u32 = 200;

/// The states, found turn by turn from `start`, of which none is violated. In each of the first eight turns all violated states
/// flip, later the one of least number.
pub fn search<T: Trial>(
    alloc: Global,
    trial: &mut T,
    start: &[bool],
) -> Result<Vec<bool>, SearchFault>
    requires can_try { T.can_try trial.old }
    requires one_each { length start.now ≡ T.size trial.old }
    ensures found { IfOk result (λ closed. EndsAt (T.finds trial.old) start.now closed.items) }
    ensures one_each { IfOk result (λ closed. length closed.items ≡ T.size trial.old) }
    ensures turns { result ≡ Err SearchFault.Turns → RunsOut (T.finds trial.old) start.now }
    ensures failed { (turn : ℕ) (fault : TrialFault) → result ≡ Err (SearchFault.Trial turn fault) → FailsIn (T.finds trial.old) (T.fails trial.old) start.now turn fault }
    ensures memory { (turn : ℕ) → result ≡ Err (SearchFault.Trial turn TrialFault.NoMemory) → ⊥ }

    // The trial tells what it told before.
    ensures can_still_try { T.can_try trial.new }
    ensures same_size { T.size trial.new ≡ T.size trial.old }
    ensures same_findings { (states violated : List Bool) → T.finds trial.new states violated ↔ T.finds trial.old states violated }
    ensures same_faults { (states : List Bool) (fault : TrialFault) → T.fails trial.new states fault ↔ T.fails trial.old states fault }
{
    let mut closed = start.to_vec(alloc)?;
    for turn in 1..MOST_TURNS + 1 {
        let violated = match trial.try_states(&closed) {
            Ok(violated) => violated,
            Err(fault) => return Err(fault_in_turn(turn, fault)),
        };
        if !some_violated(&violated) {
            return Ok(closed);
        }
        flip(&mut closed, &violated, turn);
    }
    Err(SearchFault::Turns)
}
