ghost use Rattle.std.specs.Prelude.{◌≡◌, ◌^◌, ◌<◌, ◌≤◌, length, ℤ, pos, ◌≤ℤ◌, ◌<ℤ◌, IfOk, IfErr, OnOk, OnErr};
ghost use Rattle.member_set.specs.Members.{IsSystem, IsModerate, row_count, system, AreStiff};
ghost use Rattle.member_set.specs.Interval.{HaveForces, forces_of};
ghost use Rattle.bound_laws.specs.Nearness.{widened};
ghost use Rattle.certificate.specs.Bounds.{HasResiduals, sum_of_squares, AreBounds, HasNoBounds, residual_length};
ghost use Rattle.certificate.specs.Widening.{AreLimited, AreWidened, AreAroundDisplacements, IsTooUnsteady, enclosure, only};
ghost use Rattle.lists.specs.Results.{Gives};
ghost use Rattle.certificate.specs.States.{AreBoundsInStates, TellsFault, states_around, told};

use crate::fault::EncloseFault;
use crate::radii::{displacement_radius, force_radius, plus_square, root_of_squares, widened};
use crate::states::{hold_forces, judge_states, put_pasts};
use flex_interval::{Iv, Wide, point};
use lists::Sequence;
use member_set::{Built, Law, member_forces, residual_from};
use std::alloc::Global;

/// Bounds of every equilibrium of a structure under loads.
#[derive(Drop)]
pub struct Enclosure {
    /// The displacement of each row, in units of 2^-56 m or rad.
    pub u: Sequence<Iv>,
    /// The force of each member, in units of 2^-40 N or N m.
    pub force: Sequence<Iv>,
    /// Whether each one-way member is closed, by state numbers.
    pub closed: Sequence<bool>,
}

/// Bounds of every equilibrium, put around displacements `u`, one for each row in units of 2^-56 m or rad. They hold for every
/// realisation whose stiffness is at least `lambda`, in units of 2^-20 N/m; how `u` was found is no premise. Each one-way member
/// is open or closed in all of them; an open one's force is 0. `Wide` where a residual, a force or the reach of a one-way member
/// leaves its limit, where the squares of the residuals sum to 2^126 or more, or where a radius reaches 2^60; `State` names the
/// first state number whose member's reach lies on neither side of its gap.
pub fn enclose(
    alloc: Global,
    b: &Built,
    laws: &[Law],
    loads: &[Iv],
    u: &[i128],
    lambda: i128,
) -> Result<Enclosure, EncloseFault>
    requires system { IsSystem (system b.now laws.now loads.now) }
    requires one_displacement_each { length u.now ≡ row_count b.now }
    requires moderate { IsModerate u.now }
    requires stiff { AreStiff b.now }
    requires positive { pos 1 ≤ℤ lambda }
    ensures given { Gives (λ e. e) told (states_around (system b.now laws.now loads.now) u.now lambda) result }
    ensures bounds { IfOk result (λ e. AreBoundsInStates (system b.now laws.now loads.now) u.now lambda e) }
    ensures fault { IfErr result (TellsFault (system b.now laws.now loads.now) u.now lambda) }
{
    let mut displacements = vec![in alloc; point(0); u.len()]?;
    let mut forces = vec![in alloc; point(0); laws.len()]?;
    let mut pasts = vec![in alloc; point(0); b.unilateral.as_slice().len()]?;
    let mut closed = vec![in alloc; false; b.unilateral.as_slice().len()]?;
    put_enclosure(
        b,
        laws,
        loads,
        u,
        lambda,
        &mut displacements,
        &mut forces,
        &mut pasts,
        &mut closed,
    )?;
    Ok(Enclosure {
        u: Sequence::new(displacements),
        force: Sequence::new(forces),
        closed: Sequence::new(closed),
    })
}

/// Puts the bounds and the states in place of what the lists hold.
fn put_enclosure(
    b: &Built,
    laws: &[Law],
    loads: &[Iv],
    u: &[i128],
    lambda: i128,
    displacements: &mut [Iv],
    forces: &mut [Iv],
    pasts: &mut [Iv],
    closed: &mut [bool],
) -> Result<(), EncloseFault>
    requires system { IsSystem (system b.now laws.now loads.now) }
    requires one_displacement_each { length u.now ≡ row_count b.now }
    requires moderate { IsModerate u.now }
    requires stiff { AreStiff b.now }
    requires positive { pos 1 ≤ℤ lambda }
    requires one_bound_each { length displacements.old ≡ row_count b.now }
    requires one_force_each { length forces.old ≡ length b.now.members }
    requires one_past_each { length pasts.old ≡ length b.now.unilateral }
    requires one_state_each { length closed.old ≡ length b.now.unilateral }
    ensures bounds { OnOk result (AreBoundsInStates (system b.now laws.now loads.now) u.now lambda (enclosure displacements.new forces.new closed.new)) }
    ensures fault { IfErr result (TellsFault (system b.now laws.now loads.now) u.now lambda) }
{
    put_bounds(b, laws, loads, u, lambda, displacements, forces)?;
    put_pasts(b, laws, displacements, pasts)?;
    judge_states(pasts, closed)?;
    hold_forces(b, closed, forces);
    Ok(())
}

/// Puts the bounds in place of what the two lists hold.
fn put_bounds(
    b: &Built,
    laws: &[Law],
    loads: &[Iv],
    u: &[i128],
    lambda: i128,
    displacements: &mut [Iv],
    forces: &mut [Iv],
) -> Result<(), Wide>
    requires system { IsSystem (system b.now laws.now loads.now) }
    requires one_displacement_each { length u.now ≡ row_count b.now }
    requires moderate { IsModerate u.now }
    requires stiff { AreStiff b.now }
    requires positive { pos 1 ≤ℤ lambda }
    requires one_bound_each { length displacements.old ≡ row_count b.now }
    requires one_force_each { length forces.old ≡ length b.now.members }
    ensures bounds { OnOk result (AreBounds (system b.now laws.now loads.now) u.now lambda (only displacements.new forces.new)) }
    ensures wide { OnErr result (HasNoBounds (system b.now laws.now loads.now) u.now lambda) }
{
    let size = residual_length(b, laws, loads, u, forces)?;
    widen_displacements(u, displacement_radius(lambda, size)?, displacements);
    widen_forces(b, lambda, size, forces)
}

/// The length of what displacements `u` leave of the loads, in units of 2^-40 N or N m, and the forces there.
fn residual_length(
    b: &Built,
    laws: &[Law],
    loads: &[Iv],
    u: &[i128],
    forces: &mut [Iv],
) -> Result<i128, Wide>
    requires system { IsSystem (system b.now laws.now loads.now) }
    requires one_displacement_each { length u.now ≡ row_count b.now }
    requires moderate { IsModerate u.now }
    requires one_force_each { length forces.old ≡ length b.now.members }
    ensures forces { OnOk result (HaveForces b.now (forces_of b.now laws.now u.now) forces.new) }
    ensures residuals { OnOk result (HasResiduals (system b.now laws.now loads.now) u.now) }
    ensures short { OnOk result (sum_of_squares (system b.now laws.now loads.now) u.now <ℤ pos (2 ^ 126)) }
    ensures value { IfOk result (λ size. size ≡ residual_length (system b.now laws.now loads.now) u.now) }
    ensures not_negative { IfOk result (λ size. pos 0 ≤ℤ size) }
    ensures bounded { IfOk result (λ size. size ≤ℤ pos (2 ^ 63)) }
    ensures wide { OnErr result ((lambda : ℤ) → HasNoBounds (system b.now laws.now loads.now) u.now lambda) }
{
    member_forces(b, laws, u, forces)?;
    let mut sum = 0;
    for row in 0..loads.len() {
        sum = plus_square(sum, residual_from(b, forces, loads, row as u32)?)?;
    }
    Ok(root_of_squares(sum))
}

/// Puts an interval around each displacement.
fn widen_displacements(u: &[i128], radius: i128, displacements: &mut [Iv])
    requires moderate { IsModerate u.now }
    requires one_each { length displacements.old ≡ length u.now }
    requires not_negative { pos 0 ≤ℤ radius }
    requires small { radius <ℤ pos (2 ^ 60) }
    ensures { AreAroundDisplacements u.now radius displacements.new }
{
    for row in 0..u.len() {
        displacements[row] = widened(point(u[row]), radius);
    }
}

/// Widens each member's force by its radius; `Wide` where a radius reaches 2^60.
fn widen_forces(b: &Built, lambda: i128, size: i128, forces: &mut [Iv]) -> Result<(), Wide>
    requires stiff { AreStiff b.now }
    requires positive { pos 1 ≤ℤ lambda }
    requires not_negative { pos 0 ≤ℤ size }
    requires bounded { size ≤ℤ pos (2 ^ 63) }
    requires one_force_each { length forces.old ≡ length b.now.members }
    requires limited { AreLimited forces.old }
    ensures widened { OnOk result (AreWidened b.now lambda size forces.old forces.new) }
    ensures unsteady { OnErr result (IsTooUnsteady b.now lambda size) }
{
    for k in 0..forces.len() {
        let radius = force_radius(lambda, size, b.members.as_slice()[k].kappa)?;
        forces[k] = widened(forces[k], radius);
    }
    Ok(())
}
