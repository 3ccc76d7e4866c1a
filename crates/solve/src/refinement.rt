ghost use Rattle.std.specs.Prelude.{◌≡◌, ℕ, ◌+◌, ◌*◌, ◌/◌, ◌^◌, ◌<◌, ◌≤◌, ◌⊎◌, length, replicate, unsigned_abs, ℤ, pos, ◌+ℤ◌, ◌<ℤ◌, OnOk, OnErr, IfOk, Err};
ghost use Rattle.member_set.specs.Members.{IsSystem, IsModerate, row_count, built_nodes, system};
ghost use Rattle.factor_data.specs.Columns.{factor_entry};
ghost use Rattle.lists.specs.Rows.{freedom_at};
ghost use Rattle.lists.specs.Order.{IsOrder};
ghost use Rattle.flex_num.specs.Guarded.{value_at};
ghost use Rattle.solve.specs.Numerators.{IsUntaken};
ghost use Rattle.solve.specs.Substitution.{at};
ghost use Rattle.solve.specs.Refinement.{AreMiddles, HasNoResidual, HasNoRoom, forward_side, IsMoved, MovesTooFar, problem, trial_residual_of, IsTurn, TurnBreaks, LeadTo, IsCandidate, IsTooWide, IsScaling, HasDigits};

use crate::fault::SolveFault;
use crate::numerators::scaled;
use crate::substitution::{backward, forward, power_of_two};
use factor_data::Factor;
use flex_interval::{Iv, Wide, point};
use flex_num::GuardedSum;
use member_set::{Built, Law, residual_from, trial_forces};
use std::alloc::Global;

/// How many turns the refinement takes.
const TURNS: usize = 8;

/// Scaled residuals are below this in size.
const ROOM: u128 = 1 << 106;

/// Residuals are scaled by at most so many binary digits.
const MOST_DIGITS: u32 = 56;

/// By so many digits residuals and unknowns are scaled together.
const ALL_DIGITS: u32 = 88;

/// A displacement is at most this in size, in units of 2^-56 m or rad.
const FARTHEST: u128 = 1 << 60;

/// The displacements of each row, in units of 2^-56 m or rad, after eight turns of refinement from rest. The forces are those
/// under the states `closed`, one for each state number: linear where a member takes part, else 0. An empty list leaves the
/// members without a state number alone. `f` is the factor of the middle stiffness matrix under these states.
pub fn candidate(
    alloc: Global,
    b: &Built,
    laws: &[Law],
    closed: &[bool],
    loads: &[Iv],
    f: &Factor,
) -> Result<Vec<i128>, SolveFault>
    requires system { IsSystem (system b.now laws.now loads.now) }
    requires factor { length f.now.order ≡ built_nodes b.now }
    requires diagonal { (j : ℕ) → j < row_count b.now → pos 0 <ℤ factor_entry f.now j j }
    ensures ok { IfOk result (λ u. IsCandidate (problem (system b.now laws.now loads.now) closed.now f.now.order (factor_entry f.now)) u.items) }
    ensures wide { result ≡ Err SolveFault.Wide → IsTooWide (problem (system b.now laws.now loads.now) closed.now f.now.order (factor_entry f.now)) }
{
    let rows = loads.len();
    let mut u = vec![in alloc; 0; rows]?;
    let mut forces = vec![in alloc; point(0); laws.len()]?;
    let mut x = vec![in alloc; 0; rows]?;
    let mut left = vec![in alloc; GuardedSum::ZERO; rows]?;
    refine(
        b,
        laws,
        closed,
        loads,
        f,
        &mut u,
        &mut forces,
        &mut x,
        &mut left,
    )?;
    Ok(u)
}

/// Eight turns, from displacements that are 0.
fn refine(
    b: &Built,
    laws: &[Law],
    closed: &[bool],
    loads: &[Iv],
    f: &Factor,
    u: &mut [i128],
    forces: &mut [Iv],
    x: &mut [i128],
    left: &mut [GuardedSum],
) -> Result<(), Wide>
    requires system { IsSystem (system b.now laws.now loads.now) }
    requires factor { length f.now.order ≡ built_nodes b.now }
    requires diagonal { (j : ℕ) → j < row_count b.now → pos 0 <ℤ factor_entry f.now j j }
    requires at_rest { u.old ≡ replicate (row_count b.now) (pos 0) }
    requires one_force_each { length forces.old ≡ length b.now.members }
    requires one_unknown_each { length x.old ≡ row_count b.now }
    requires one_numerator_each { length left.old ≡ row_count b.now }
    ensures candidate { OnOk result (IsCandidate (problem (system b.now laws.now loads.now) closed.now f.now.order (factor_entry f.now)) u.new) }
    ensures wide { OnErr result (IsTooWide (problem (system b.now laws.now loads.now) closed.now f.now.order (factor_entry f.now))) }
{
    for _turn in 0..TURNS {
        turn(b, laws, closed, loads, f, u, forces, x, left)?;
    }
    Ok(())
}

/// One turn. What `forces`, `x` and `left` hold before doesn't matter.
fn turn(
    b: &Built,
    laws: &[Law],
    closed: &[bool],
    loads: &[Iv],
    f: &Factor,
    u: &mut [i128],
    forces: &mut [Iv],
    x: &mut [i128],
    left: &mut [GuardedSum],
) -> Result<(), Wide>
    requires system { IsSystem (system b.now laws.now loads.now) }
    requires factor { length f.now.order ≡ built_nodes b.now }
    requires diagonal { (j : ℕ) → j < row_count b.now → pos 0 <ℤ factor_entry f.now j j }
    requires one_displacement_each { length u.old ≡ row_count b.now }
    requires moderate { IsModerate u.old }
    requires one_force_each { length forces.old ≡ length b.now.members }
    requires one_unknown_each { length x.old ≡ row_count b.now }
    requires one_numerator_each { length left.old ≡ row_count b.now }
    ensures turned { OnOk result (IsTurn (problem (system b.now laws.now loads.now) closed.now f.now.order (factor_entry f.now)) u.old u.new) }
    ensures breaks { OnErr result (TurnBreaks (problem (system b.now laws.now loads.now) closed.now f.now.order (factor_entry f.now)) u.old) }
{
    middles(b, laws, closed, loads, u, forces, x)?;
    let digits = scale_digits(x)?;
    scale_sides(f.order(), x, digits, left);
    forward(f, left, x)?;
    backward(f, ALL_DIGITS - digits, x)?;
    move_by(f.order(), x, u)
}

/// The middle of the residual of each row, in units of 2^-40 N or N m.
fn middles(
    b: &Built,
    laws: &[Law],
    closed: &[bool],
    loads: &[Iv],
    u: &[i128],
    forces: &mut [Iv],
    r: &mut [i128],
) -> Result<(), Wide>
    requires system { IsSystem (system b.now laws.now loads.now) }
    requires one_displacement_each { length u.now ≡ row_count b.now }
    requires moderate { IsModerate u.now }
    requires one_force_each { length forces.old ≡ length b.now.members }
    requires one_middle_each { length r.old ≡ row_count b.now }
    ensures middles { OnOk result (AreMiddles (row_count b.now) (trial_residual_of (system b.now laws.now loads.now) closed.now u.now) r.new) }
    ensures none { OnErr result (HasNoResidual (row_count b.now) (trial_residual_of (system b.now laws.now loads.now) closed.now u.now)) }
{
    trial_forces(b, laws, closed, u, forces)?;
    for row in 0..r.len() {
        r[row] = flex_interval::middle(residual_from(b, forces, loads, row as u32)?);
    }
    Ok(())
}

/// By how many digits numbers are scaled: as many as there is room for.
fn scale_digits(r: &[i128]) -> Result<u32, Wide>
    ensures scale { IfOk result (λ digits. IsScaling r.now digits) }
    ensures no_room { OnErr result (HasNoRoom r.now) }
{
    let mut scaled = largest(r);
    if scaled >= ROOM {
        return Err(Wide);
    }
    let mut digits = 0;
    while digits < MOST_DIGITS && scaled < ROOM / 2 {
        scaled *= 2;
        digits += 1;
    }
    Ok(digits)
}

/// The largest size among numbers, 0 where there is none.
fn largest(r: &[i128]) -> u128
    ensures bound { (i : ℕ) → i < length r.now → unsigned_abs (at r.now i) ≤ result }
    ensures reached { (result ≡ 0) ⊎ ((i : ℕ) × (i < length r.now) × (unsigned_abs (at r.now i) ≡ result)) }
{
    let mut most = 0;
    for number in r {
        most = most.max(number.unsigned_abs());
    }
    most
}

/// The row at a position of the order.
fn row_at(order: &[u32], position: usize) -> usize
    requires { position / 6 < length order.now }
    ensures { result ≡ freedom_at order.now position }
{
    6 * order[position / 6] as usize + position % 6
}

/// The right side of the forward substitution: scaled numbers of rows, by positions.
fn scale_sides(order: &[u32], r: &[i128], digits: u32, left: &mut [GuardedSum])
    requires order { IsOrder order.now }
    requires six_rows_each { length r.now ≡ 6 * length order.now }
    requires one_each { length left.old ≡ length r.now }
    requires at_most { digits ≤ 56 }
    requires room { HasDigits r.now digits }
    ensures sides { (j : ℕ) → j < length r.now → value_at left.new j ≡ forward_side order.now r.now digits j }
    ensures whole { IsUntaken left.new }
{
    let scale = power_of_two(digits);
    for j in 0..r.len() {
        left[j] = scaled(r[row_at(order, j)], scale);
    }
}

/// Adds unknowns, by positions, to displacements, by rows.
fn move_by(order: &[u32], z: &[i128], u: &mut [i128]) -> Result<(), Wide>
    requires order { IsOrder order.now }
    requires six_rows_each { length z.now ≡ 6 * length order.now }
    requires one_each { length u.old ≡ length z.now }
    requires moderate { IsModerate u.old }
    ensures moved { OnOk result (IsMoved (length z.now) order.now u.old z.now u.new) }
    ensures moderate { OnOk result (IsModerate u.new) }
    ensures too_far { OnErr result (MovesTooFar (length z.now) order.now u.old z.now) }
{
    for j in 0..z.len() {
        let row = row_at(order, j);
        u[row] = moved(u[row], z[j])?;
    }
    Ok(())
}

/// A displacement with an unknown added; `Wide` where it passes 2^60.
fn moved(u: i128, z: i128) -> Result<i128, Wide>
    ensures sum { IfOk result (λ v. v ≡ u +ℤ z) }
    ensures moderate { IfOk result (λ v. unsigned_abs v ≤ 2 ^ 60) }
    ensures passes { OnErr result (2 ^ 60 < unsigned_abs (u +ℤ z)) }
{
    match u.checked_add(z) {
        Some(v) if v.unsigned_abs() <= FARTHEST => Ok(v),
        _ => Err(Wide),
    }
}
