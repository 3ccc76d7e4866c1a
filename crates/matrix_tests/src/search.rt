//! The search for contact states, over trials that answer by a rule.
ghost use Rattle.std.specs.Prelude.{◌≡◌, length, IfOk};

use restraint_search::{SearchFault, Trial, TrialFault, search};
use std::alloc::{AllocError, Global};
use std::test::Fail;

// What a trial answers.
#[derive(Clone, Copy)]
enum Rule {
    NoneViolated,
    AllViolated,
    // All in the first eight turns, later those that are open.
    OpenViolated,
    Fails { turn: usize, fault: TrialFault },
}

// A trial that answers by a rule, and keeps the states that were tried.
#[derive(Drop)]
struct Ruled {
    alloc: Global,
    rule: Rule,
    states: usize,
    tried: Vec<Vec<bool>>,
}

impl Ruled {
    fn new(alloc: Global, rule: Rule, states: usize) -> Ruled
        ensures { result.states ≡ states }
    {
        Ruled {
            alloc,
            rule,
            states,
            tried: Vec::new(alloc),
        }
    }

    // Keeps the states that are tried.
    fn keep(&mut self, closed: &[bool]) -> Result<(), AllocError>
        ensures { self.new.states ≡ self.old.states }
    {
        self.tried.push(closed.to_vec(self.alloc)?)?;
        Ok(())
    }

    // Which of the states are violated in the turn that has that number.
    fn violated(&self, turn: usize, closed: &[bool]) -> Result<Vec<bool>, AllocError>
        ensures { IfOk result (λ violated. length violated.items ≡ length closed.now) }
    {
        let mut violated = Vec::with_capacity(self.alloc, closed.len())?;
        for &state in closed {
            violated.push(match self.rule {
                Rule::NoneViolated => false,
                Rule::AllViolated | Rule::Fails { .. } => true,
                Rule::OpenViolated => turn <= 8 || !state,
            })?;
        }
        Ok(violated)
    }
}

impl Trial for Ruled {
    ghost use Rattle.std.specs.Prelude.{⊤};

    ghost can_try = { λ _. ⊤ };

    ghost size = { λ t. t.states };

    ghost finds = { λ _ _ _. ⊤ };

    ghost fails = { λ _ _ _. ⊤ };

    fn try_states(&mut self, closed: &[bool]) -> Result<Vec<bool>, TrialFault> {
        self.keep(closed)?;
        let now = self.tried.len();
        match self.rule {
            Rule::Fails { turn, fault } if turn == now => Err(fault),
            _ => Ok(self.violated(now, closed)?),
        }
    }
}

// The states that were tried in a turn.
fn tried(trial: &Ruled, turn: usize) -> Option<&[bool]> {
    Some(trial.tried.get(turn.checked_sub(1)?)?.as_slice())
}

const OPEN: bool = false;

const CLOSED: bool = true;

// All violated states flip in the first eight turns: both, and back. From the ninth on the least alone does.
#[test]
fn flips_all_in_eight_turns_and_then_the_least(rt: HostRuntime) -> Result<(), Fail> {
    let mut trial = Ruled::new(rt.alloc(), Rule::AllViolated, 2);
    let found = search(rt.alloc(), &mut trial, &[OPEN, OPEN]);
    assert!(rt; matches!(&found, Err(SearchFault::Turns)));
    assert_eq!(rt; trial.tried.len(), 200);
    for turn in [1, 3, 5, 7, 9, 11, 199] {
        assert_eq!(rt; tried(&trial, turn), Some([OPEN, OPEN].as_slice()));
    }
    for turn in [2, 4, 6, 8] {
        assert_eq!(rt; tried(&trial, turn), Some([CLOSED, CLOSED].as_slice()));
    }
    for turn in [10, 12, 200] {
        assert_eq!(rt; tried(&trial, turn), Some([CLOSED, OPEN].as_slice()));
    }
    Ok(())
}

// Three open states close one by one from the ninth turn on, and the twelfth has none violated. With none violated the first
// turn is the last.
#[test]
fn ends_where_nothing_is_violated(rt: HostRuntime) -> Result<(), Fail> {
    let rows: [(Rule, &[bool], usize, &[bool]); 3] = [
        (Rule::NoneViolated, &[CLOSED, OPEN], 1, &[CLOSED, OPEN]),
        (Rule::NoneViolated, &[], 1, &[]),
        (
            Rule::OpenViolated,
            &[OPEN, OPEN, OPEN],
            12,
            &[CLOSED, CLOSED, CLOSED],
        ),
    ];
    for (rule, start, turns, end) in rows {
        let mut trial = Ruled::new(rt.alloc(), rule, start.len());
        let found = search(rt.alloc(), &mut trial, start)?;
        assert_eq!(rt; found.as_slice(), end);
        assert_eq!(rt; trial.tried.len(), turns);
    }
    Ok(())
}

// A fault is told with its turn, but for want of memory.
#[test]
fn tells_the_turn_of_a_fault(rt: HostRuntime) -> Result<(), Fail> {
    for turn in [1, 3, 9, 200] {
        let fault = TrialFault::Pivot { node: 7, dof: 2 };
        let mut trial = Ruled::new(rt.alloc(), Rule::Fails { turn, fault }, 2);
        match search(rt.alloc(), &mut trial, &[OPEN, CLOSED]) {
            Err(
                SearchFault::Trial {
                    turn: told,
                    fault: TrialFault::Pivot { node: 7, dof: 2 },
                },
            ) => assert_eq!(rt; told as usize, turn),
            _ => assert!(rt; false, "no such fault"),
        }
        assert_eq!(rt; trial.tried.len(), turn);
    }
    let rule = Rule::Fails {
        turn: 3,
        fault: TrialFault::NoMemory,
    };
    let mut trial = Ruled::new(rt.alloc(), rule, 2);
    let found = search(rt.alloc(), &mut trial, &[OPEN, CLOSED]);
    assert!(rt; matches!(&found, Err(SearchFault::NoMemory)));
    Ok(())
}
