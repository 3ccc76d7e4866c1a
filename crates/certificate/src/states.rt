ghost use Rattle.std.specs.Prelude.{◌≡◌, ℕ, ◌^◌, ◌<◌, ◌≤◌, length, slice_index_or, false, Some, None, Ok, IfErr, OnOk, OnErr, IsErr, List};
ghost use Rattle.flex_interval.specs.Ends.{Ends};
ghost use Rattle.lists.specs.Search.{IsFirst};
ghost use Rattle.member_set.specs.Members.{IsBuilt, row_count, system, force_of, nothing};
ghost use Rattle.certificate.specs.States.{state_past, judged, held, held_force, AreHeld};

use crate::fault::EncloseFault;
use flex_interval::{Iv, IvFault, Wide, point};
use member_set::{Built, Law, reach_between, state_reach};

/// By how much the reach of the member of a state number is past its gap, over bounds of the displacements, in units of
/// 2^-56 m or rad.
fn state_past(b: &Built, laws: &[Law], bounds: &[Iv], number: u32) -> Result<Iv, IvFault>
    requires built { IsBuilt b.now }
    requires one_law_each { length laws.now ≡ length b.now.members }
    requires one_bound_each { length bounds.now ≡ row_count b.now }
    requires number_in_range { number < length b.now.unilateral }
    ensures { (loads : List Ends) → result ≡ state_past (system b.now laws.now loads) bounds.now number }
{
    let member = b.unilateral.as_slice()[number as usize];
    let x = reach_between(&b.members.as_slice()[member as usize], bounds)?;
    state_reach(b, laws, number, x)
}

/// The same for each state number. `Wide` where one has no interval.
pub fn put_pasts(b: &Built, laws: &[Law], bounds: &[Iv], pasts: &mut [Iv]) -> Result<(), Wide>
    requires built { IsBuilt b.now }
    requires one_law_each { length laws.now ≡ length b.now.members }
    requires one_bound_each { length bounds.now ≡ row_count b.now }
    requires one_state_each { length pasts.old ≡ length b.now.unilateral }
    ensures one_each { OnOk result (length pasts.new ≡ length b.now.unilateral) }
    ensures pasts { OnOk result ((loads : List Ends) (n : ℕ) → n < length b.now.unilateral →
        state_past (system b.now laws.now loads) bounds.now n ≡ Ok (force_of pasts.new n)) }
    ensures none { OnErr result ((loads : List Ends) → (n : ℕ) × (n < length b.now.unilateral) × IsErr (state_past (system b.now laws.now loads) bounds.now n)) }
{
    for number in 0..pasts.len() {
        pasts[number] = state_past(b, laws, bounds, number as u32)?;
    }
    Ok(())
}

/// On which side of the gap the member is: open, closed, or neither for certain.
fn judge(past: Iv) -> Option<bool>
    ensures { result ≡ judged past }
{
    if past.hi <= 0 {
        Some(false)
    } else if past.lo >= 0 {
        Some(true)
    } else {
        None
    }
}

/// The state of each member; the first that lies on neither side is named.
pub fn judge_states(pasts: &[Iv], closed: &mut [bool]) -> Result<(), EncloseFault>
    requires few { length pasts.now ≤ 2 ^ 32 }
    requires one_each { length closed.old ≡ length pasts.now }
    ensures one_each { OnOk result (length closed.new ≡ length pasts.now) }
    ensures states { OnOk result ((n : ℕ) → n < length pasts.now → judged (force_of pasts.now n) ≡ Some (slice_index_or closed.new n false)) }
    ensures unsettled { IfErr result (λ fault. (number : ℕ) × (fault ≡ EncloseFault.State number) × IsFirst (length pasts.now) (λ n. judged (force_of pasts.now n) ≡ None) number) }
{
    for number in 0..pasts.len() {
        match judge(pasts[number]) {
            Some(state) => closed[number] = state,
            None => return Err(EncloseFault::State {
                number: number as u32,
            }),
        }
    }
    Ok(())
}

/// A force in a state: none where it is open, none below 0 where it is closed.
fn held(closed: bool, force: Iv) -> Iv
    ensures { result ≡ held closed force }
{
    if closed {
        flex_interval::max(point(0), force)
    } else {
        point(0)
    }
}

/// The force of a member, held where it has a state.
fn held_force(b: &Built, closed: &[bool], member: u32, force: Iv) -> Iv
    requires built { IsBuilt b.now }
    requires one_state_each { length closed.now ≡ length b.now.unilateral }
    ensures { result ≡ held_force b.now closed.now member force }
{
    match lists::find_rising(b.unilateral.as_slice(), member) {
        Some(number) => held(closed[number], force),
        None => force,
    }
}

/// Holds the force of each member that has a state.
pub fn hold_forces(b: &Built, closed: &[bool], forces: &mut [Iv])
    requires built { IsBuilt b.now }
    requires one_state_each { length closed.now ≡ length b.now.unilateral }
    requires one_force_each { length forces.old ≡ length b.now.members }
    ensures { AreHeld b.now closed.now forces.old forces.new }
{
    for k in 0..forces.len() {
        forces[k] = held_force(b, closed, k as u32, forces[k]);
    }
}
