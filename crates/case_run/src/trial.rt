ghost use Rattle.std.specs.Prelude.{◌≡◌, ℕ, ◌<◌, List, length, IfOk, IfSome, ℤ, Ok, Err};
ghost use Rattle.lists.specs.Results.{Gives, named};
ghost use Rattle.factor_data.specs.Columns.{factor_entry};
ghost use Rattle.member_set.specs.Members.{IsBuilt, IsModerate, row_count, built_nodes};
ghost use Rattle.solve.specs.Refinement.{problem};
ghost use Rattle.solve.specs.Turns.{turns_of};
ghost use Rattle.case_run.specs.Pattern.{TakesStructure};
ghost use Rattle.case_run.specs.Faults.{assembly_trial_fault, scalar_trial_fault, solve_trial_fault, trial_told};
ghost use Rattle.case_run.specs.Steps.{IsFactorFor, IsPlan};
ghost use Rattle.case_run.specs.Trials.{trial, trial_in, candidate_under, solve_reason, past_at, violates, violated_by};
ghost use Rattle.case_run.specs.Trying.{CanTry, system_of, IsFactorUnder};

use crate::maker::Maker;
use crate::steps::matrices_under;
use assembly::AssembleFault;
use factor::ScalarFault;
use factor_data::Factor;
use flex_interval::{Iv, IvFault, middle};
use member_set::{Built, Law, reach, state_reach};
use restraint_search::{Trial, TrialFault};
use solve::{SolveFault, candidate};
use std::alloc::Global;

/// The trials of contact states in a case.
#[derive(Clone, Copy)]
pub(crate) struct CaseTrial<'a, M> {
    pub(crate) alloc: Global,
    /// What makes the factors.
    pub(crate) maker: &'a M,
    /// The structure.
    pub(crate) b: &'a Built,
    /// The laws of its members.
    pub(crate) laws: &'a [Law],
    /// The load of each row, in units of 2^-40 N or N m.
    pub(crate) loads: &'a [Iv],
    /// The states from which the search starts.
    pub(crate) start: &'a [bool],
    /// The factor under these, or why there is none; made once for all cases.
    pub(crate) first: &'a Result<Factor, TrialFault>,
}

impl<M: Maker> Trial for CaseTrial<'_, M> {
    ghost can_try = { λ t. CanTry (M.plan t.maker.now) (M.takes t.maker.now) t };

    ghost size = { λ t. length t.b.now.unilateral };

    ghost finds = { λ t states violated. (u : List ℤ) × ((turn : ℕ) → trial_in (M.plan t.maker.now) (system_of t) turn states ≡ Ok (trial u violated)) };

    ghost fails = { λ t states fault. (turn : ℕ) →
        IfSome (trial_told turn fault) (λ e. trial_in (M.plan t.maker.now) (system_of t) turn states ≡ Err e) };

    fn try_states(&mut self, closed: &[bool]) -> Result<Vec<bool>, TrialFault> {
        let u = candidate_under(self, closed)?;
        violated_by(self, &u, closed)
    }
}

/// The displacements after eight turns of refinement under given states, in units of 2^-56 m or rad.
pub(crate) fn candidate_under<M: Maker>(
    t: &CaseTrial<M>,
    closed: &[bool],
) -> Result<Vec<i128>, TrialFault>
    requires { CanTry (M.plan t.now.maker.now) (M.takes t.now.maker.now) t.now }
    ensures given { (turn : ℕ) → Gives (λ u. u.items) (trial_told turn) (candidate_under (M.plan t.now.maker.now) (system_of t.now) turn closed.now) result }
    ensures one_each { IfOk result (λ u. length u.items ≡ row_count t.now.b.now) }
    ensures moderate { IfOk result (λ u. IsModerate u.items) }
{
    if closed == t.start {
        return match t.first {
            Ok(factor) => candidate_by(t, closed, factor),
            Err(fault) => Err(*fault),
        };
    }
    let factor = factor_under(t.alloc, t.maker, t.b, closed, false)?;
    candidate_by(t, closed, &factor)
}

/// The displacements after eight turns of refinement under given states, by the factor under them.
fn candidate_by<M: Maker>(
    t: &CaseTrial<M>,
    closed: &[bool],
    factor: &Factor,
) -> Result<Vec<i128>, TrialFault>
    requires triable { CanTry (M.plan t.now.maker.now) (M.takes t.now.maker.now) t.now }
    requires own_order { factor.now.order ≡ (M.plan t.now.maker.now).order }
    requires fits { IsFactorFor t.now.b.now factor.now }
    ensures given { (turn : ℕ) → Gives (λ u. u.items) (trial_told turn)
        (named (λ _. solve_reason turn) (turns_of (problem (system_of t.now) closed.now (M.plan t.now.maker.now).order (factor_entry factor.now)) 8)) result }
    ensures one_each { IfOk result (λ u. length u.items ≡ row_count t.now.b.now) }
    ensures moderate { IfOk result (λ u. IsModerate u.items) }
{
    match candidate(t.alloc, t.b, t.laws, closed, t.loads, factor) {
        Ok(u) => Ok(u),
        Err(fault) => Err(solve_fault(fault)),
    }
}

/// The factor of the middles of the members that take part under given states; `starting` tells that searches start from these.
pub(crate) fn factor_under<M: Maker>(
    alloc: Global,
    maker: &M,
    b: &Built,
    closed: &[bool],
    starting: bool,
) -> Result<Factor, TrialFault>
    requires built { IsBuilt b.now }
    requires plan { IsPlan (M.plan maker.now) }
    requires nodes { length (M.plan maker.now).order ≡ built_nodes b.now }
    requires takes_structure { TakesStructure (M.takes maker.now) b.now }
    ensures given { IsFactorUnder (M.plan maker.now) b.now closed.now result }
    ensures own_order { IfOk result (λ f. f.order ≡ (M.plan maker.now).order) }
    ensures fits { IfOk result (IsFactorFor b.now) }
{
    let (middles, _radii) = match matrices_under(alloc, b, closed) {
        Ok(matrices) => matrices,
        Err(fault) => return Err(assembly_fault(fault)),
    };
    match maker.make(&middles, 0, starting) {
        Ok(factor) => Ok(factor),
        Err(fault) => Err(factor_fault(fault)),
    }
}

/// Which states displacements violate: a closed one where the reach falls short of the gap, an open one where it is past the
/// gap, by the middles of the intervals.
fn violated_by<M: Maker>(
    t: &CaseTrial<M>,
    u: &[i128],
    closed: &[bool],
) -> Result<Vec<bool>, TrialFault>
    requires triable { CanTry (M.plan t.now.maker.now) (M.takes t.now.maker.now) t.now }
    requires one_displacement_each { length u.now ≡ row_count t.now.b.now }
    requires moderate { IsModerate u.now }
    requires one_state_each { length closed.now ≡ length t.now.b.now.unilateral }
    ensures found { IfOk result (λ violated. violated_by (system_of t.now) u.now closed.now ≡ Ok violated.items) }
    ensures one_each { IfOk result (λ violated. length violated.items ≡ length t.now.b.now.unilateral) }
    ensures failed { (fault : TrialFault) → result ≡ Err fault → (fault ≡ TrialFault.NoMemory → ⊥) →
        (fault ≡ TrialFault.Solve) × (violated_by (system_of t.now) u.now closed.now ≡ Err (record {})) }
{
    let mut violated = vec![in t.alloc; false; closed.len()]?;
    for number in 0..closed.len() {
        match past_at(t, u, number as u32) {
            Ok(past) => violated[number] = violates(closed[number], middle(past)),
            Err(_wide) => return Err(TrialFault::Solve),
        }
    }
    Ok(violated)
}

/// By how much displacements reach past the gap of the contact of a state number, in units of 2^-56 m.
fn past_at<M: Maker>(t: &CaseTrial<M>, u: &[i128], number: u32) -> Result<Iv, IvFault>
    requires triable { CanTry (M.plan t.now.maker.now) (M.takes t.now.maker.now) t.now }
    requires one_displacement_each { length u.now ≡ row_count t.now.b.now }
    requires moderate { IsModerate u.now }
    requires number { number < length t.now.b.now.unilateral }
    ensures { result ≡ past_at (system_of t.now) u.now number }
{
    let member = &t.b.members.as_slice()[t.b.unilateral.as_slice()[number as usize] as usize];
    state_reach(t.b, t.laws, number, reach(member, u)?)
}

/// Whether so much past the gap violates a state.
fn violates(closed: bool, past: i128) -> bool
    ensures { result ≡ violates closed past }
{
    if closed { past < 0 } else { 0 < past }
}

fn assembly_fault(fault: AssembleFault) -> TrialFault
    ensures { result ≡ assembly_trial_fault fault }
{
    match fault {
        AssembleFault::Wide { row } => TrialFault::Matrix { row },
        AssembleFault::NoMemory => TrialFault::NoMemory,
    }
}

fn factor_fault(fault: ScalarFault) -> TrialFault
    ensures { result ≡ scalar_trial_fault fault }
{
    match fault {
        ScalarFault::Pivot { node, dof } => TrialFault::Pivot { node, dof },
        ScalarFault::Wide { node } => TrialFault::Factor { node },
        ScalarFault::NoMemory => TrialFault::NoMemory,
    }
}

fn solve_fault(fault: SolveFault) -> TrialFault
    ensures { result ≡ solve_trial_fault fault }
{
    match fault {
        SolveFault::Wide => TrialFault::Solve,
        SolveFault::NoMemory => TrialFault::NoMemory,
    }
}
