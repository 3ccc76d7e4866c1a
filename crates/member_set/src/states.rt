ghost use Rattle.std.specs.Prelude.{◌≡◌, ℕ, ◌+◌, ◌*◌, ◌<◌, ◌≤◌, length, List, ℤ, pos, ◌<ℤ◌, IfOk, IfErr, OnOk, IsErr};
ghost use Rattle.flex_interval.specs.Ends.{Ends};
ghost use Rattle.flex_interval.specs.Fraction.{Within};
ghost use Rattle.member_set.specs.Members.{IsBuilt, IsModerate, row_count, law_of};
ghost use Rattle.member_set.specs.Realisation.{ExactLaw, IsLawWithin, IsOffsetWithin, past_start, reach_fraction};
ghost use Rattle.member_set.specs.Interval.{HaveForces, residual_with};
ghost use Rattle.member_set.specs.States.{is_included, trial_force_of, trial_forces_of, state_member, state_reach_of};

use crate::forces::{past_start, reach};
use crate::members::{Built, Law};
use crate::residuals::limited;
use flex_interval::{Iv, IvFault};

/// Whether a member takes part under given states, one for each state number: one without a state number always does, another
/// where its state is closed. An empty list stands for the linear members alone.
pub fn included(b: &Built, closed: &[bool], member: u32) -> bool
    requires built { IsBuilt b.now }
    ensures { result ≡ is_included b.now closed.now member }
{
    match lists::find_rising(b.unilateral.as_slice(), member) {
        Some(number) => number < closed.len() && closed[number],
        None => true,
    }
}

/// The force of a member with a reach under given states, in units of 2^-40 N or N m: linear where it takes part, else 0. `Wide`
/// too where it reaches 2^66 in size.
pub fn trial_force(
    b: &Built,
    laws: &[Law],
    closed: &[bool],
    member: u32,
    x: Iv,
) -> Result<Iv, IvFault>
    requires built { IsBuilt b.now }
    requires one_law_each { length laws.now ≡ length b.now.members }
    requires member_in_range { member < length b.now.members }
    ensures { result ≡ trial_force_of b.now laws.now closed.now member x }
{
    if included(b, closed, member) {
        let past = past_start(&laws[member as usize], x)?;
        limited(flex_interval::mul(b.members.as_slice()[member as usize].kappa, past, 36)?)
    } else {
        Ok(flex_interval::point(0))
    }
}

/// The force of each member at displacements `u` under given states. After a fault some row has no residual either.
pub fn trial_forces(
    b: &Built,
    laws: &[Law],
    closed: &[bool],
    u: &[i128],
    forces: &mut [Iv],
) -> Result<(), IvFault>
    requires built { IsBuilt b.now }
    requires one_law_each { length laws.now ≡ length b.now.members }
    requires one_displacement_each { length u.now ≡ row_count b.now }
    requires moderate { IsModerate u.now }
    requires one_force_each { length forces.old ≡ length b.now.members }
    ensures forces { OnOk result (HaveForces b.now (trial_forces_of b.now laws.now closed.now u.now) forces.new) }
    ensures fault { IfErr result (λ e. (loads : List Ends) → (row : ℕ) × (row < row_count b.now) ×
        IsErr (residual_with b.now loads (trial_forces_of b.now laws.now closed.now u.now) row)) }
{
    for k in 0..laws.len() {
        forces[k] = trial_force_at(b, laws, closed, u, k as u32)?;
    }
    Ok(())
}

/// The force of one member, likewise.
fn trial_force_at(
    b: &Built,
    laws: &[Law],
    closed: &[bool],
    u: &[i128],
    member: u32,
) -> Result<Iv, IvFault>
    requires built { IsBuilt b.now }
    requires one_law_each { length laws.now ≡ length b.now.members }
    requires one_displacement_each { length u.now ≡ row_count b.now }
    requires moderate { IsModerate u.now }
    requires member_in_range { member < length b.now.members }
    ensures { result ≡ trial_forces_of b.now laws.now closed.now u.now member }
{
    let x = reach(&b.members.as_slice()[member as usize], u)?;
    trial_force(b, laws, closed, member, x)
}

/// By how much a reach is past the gap of the member of a state number, in units of 2^-56 m or rad.
pub fn state_reach(b: &Built, laws: &[Law], number: u32, x: Iv) -> Result<Iv, IvFault>
    requires built { IsBuilt b.now }
    requires one_law_each { length laws.now ≡ length b.now.members }
    requires number_in_range { number < length b.now.unilateral }
    ensures value { result ≡ state_reach_of b.now laws.now number x }
    ensures within { IfOk result (λ e. (q reach offset : ℤ) (exact : ExactLaw) → pos 0 <ℤ q → IsLawWithin q (law_of laws.now (state_member b.now number)) exact →
        IsOffsetWithin q (law_of laws.now (state_member b.now number)) offset → Within x (reach_fraction q reach) →
        Within e (reach_fraction q (past_start q exact offset reach))) }
{
    let member = b.unilateral.as_slice()[number as usize];
    past_start(&laws[member as usize], x)
}
