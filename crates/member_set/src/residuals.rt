ghost use Rattle.std.specs.Prelude.{◌≡◌, ℕ, ◌+◌, ◌*◌, ◌/◌, ◌^◌, ◌<◌, ◌≤◌, length, slice_index, unsigned_abs, ℤ, pos, ◌-ℤ◌, ◌*ℤ◌, ◌<ℤ◌, Ok, IfOk, IfErr, OnOk, IsErr, List};
ghost use Rattle.int_laws.specs.Sums.{sum_below};
ghost use Rattle.flex_interval.specs.Ends.{Ends};
ghost use Rattle.flex_interval.specs.Fraction.{Within};
ghost use Rattle.flex_interval.specs.Operations.{sub_of};
ghost use Rattle.lists.specs.Results.{and_then};
ghost use Rattle.member_set.specs.declared.members.Law.{Law};
ghost use Rattle.member_set.specs.Members.{IsBuilt, IsSystem, IsModerate, nothing, shape_at, member_of, row_count, members_at, force_of, system};
ghost use Rattle.member_set.specs.Realisation.{ExactMember, IsMemberWithin, IsOffsetWithin, Realisation, IsRealisation, HoldForces, displaced, exact_reach, exact_force, force_in, force_fraction, pull_fraction, exact_residual, fraction};
ghost use Rattle.int_laws.specs.Matrices.{Vector};
ghost use Rattle.member_set.specs.Interval.{Outcome, limited_force, HaveForces, forces_of, member_force_of, pull_of, residual_with, residual_of};

use crate::forces::{law_force, reach};
use crate::members::{Built, Law, Member};
use flex_interval::{Iv, IvFault};

/// A member's force is below this, in units of 2^-40 N or N m.
pub const FORCE_LIMIT: u128 = 1 << 66;

/// The force of a member at displacements `u`, in units of 2^-40 N or N m. `Wide` too where it reaches 2^66 in size.
#[tactic(auto, unfolding(crate::specs::Interval::member_force_of))]
pub fn member_force(m: &Member, law: &Law, u: &[i128]) -> Result<Iv, IvFault>
    requires first_node { 6 * m.now.n1 + 6 ≤ length u.now }
    requires second_node { 6 * m.now.n2 + 6 ≤ length u.now }
    requires moderate { IsModerate u.now }
    ensures value { result ≡ member_force_of m.now law.now u.now }
    ensures within { IfOk result (λ e. (q offset : ℤ) (x : ExactMember) → pos 0 <ℤ q → IsMemberWithin q m.now law.now x →
        IsOffsetWithin q law.now offset →
        Within e (force_fraction q (exact_force q x offset (exact_reach (length u.now) x (displaced q u.now))))) }
{
    limited(law_force(m, law, reach(m, u)?)?)
}

/// A force below the limit.
pub(crate) fn limited(force: Iv) -> Result<Iv, IvFault>
    ensures value { result ≡ limited_force force }
    ensures same { IfOk result (λ e. e ≡ force) }
{
    if force.lo.unsigned_abs() < FORCE_LIMIT && force.hi.unsigned_abs() < FORCE_LIMIT {
        Ok(force)
    } else {
        Err(IvFault::Wide)
    }
}

/// A member's shape number on a row, exactly 0 on a row of another node.
pub fn shape(m: &Member, row: u32) -> Iv
    ensures { result ≡ shape_at m.now row }
{
    let node = row / 6;
    let freedom = (row % 6) as usize;
    if node == m.n1 {
        m.w[freedom]
    } else if node == m.n2 {
        m.w[6 + freedom]
    } else {
        flex_interval::point(0)
    }
}

/// What a member with a force holds against the load of a row.
fn pull(m: &Member, row: u32, force: Iv) -> Result<Iv, IvFault>
    ensures value { result ≡ pull_of m.now row force }
    ensures within { IfOk result (λ e. (q weight exact : ℤ) → pos 0 <ℤ q → Within (shape_at m.now row) (fraction weight q) →
        Within force (force_fraction q exact) → Within e (pull_fraction q (weight *ℤ exact))) }
{
    flex_interval::mul(shape(m, row), force, 56)
}

/// What is left when a member with a force holds its part.
fn less_pull(m: &Member, row: u32, rest: Iv, force: Iv) -> Result<Iv, IvFault>
    ensures value { result ≡ and_then (pull_of m.now row force) (sub_of rest) }
    ensures within { IfOk result (λ e. (q weight exact left : ℤ) → pos 0 <ℤ q → Within (shape_at m.now row) (fraction weight q) →
        Within force (force_fraction q exact) → Within rest (pull_fraction q left) →
        Within e (pull_fraction q (left -ℤ (weight *ℤ exact)))) }
{
    flex_interval::sub(rest, pull(m, row, force)?)
}

/// What is left when a member holds its part at displacements `u`.
fn less_member(m: &Member, law: &Law, u: &[i128], row: u32, rest: Iv) -> Result<Iv, IvFault>
    requires first_node { 6 * m.now.n1 + 6 ≤ length u.now }
    requires second_node { 6 * m.now.n2 + 6 ≤ length u.now }
    requires moderate { IsModerate u.now }
    ensures value { result ≡ and_then (and_then (member_force_of m.now law.now u.now) (pull_of m.now row)) (sub_of rest) }
    ensures within { IfOk result (λ e. (q offset : ℤ) (x : ExactMember) (left : ℤ) → pos 0 <ℤ q → IsMemberWithin q m.now law.now x →
        IsOffsetWithin q law.now offset → Within rest (pull_fraction q left) →
        Within e (pull_fraction q (left -ℤ (x.shape row *ℤ exact_force q x offset (exact_reach (length u.now) x (displaced q u.now)))))) }
{
    less_pull(m, row, rest, member_force(m, law, u)?)
}

/// The numbers of the members at a row's node, rising.
pub fn members_at(b: &Built, row: u32) -> &[u32]
    requires built { IsBuilt b.now }
    requires row_in_range { row < row_count b.now }
    ensures numbers { result.now ≡ members_at b.now (row / 6) }
    ensures in_range { (t : ℕ) → t < length result.now → slice_index result.now t < length b.now.members }
    // A sum over all members is one over these, where no other has a part in it.
    ensures sums { (weight force : ℕ → ℤ) →
        ((k : ℕ) → k < length b.now.members → shape_at (member_of b.now k) row ≡ nothing → weight k ≡ pos 0) →
        sum_below (length result.now) (λ t. weight (slice_index result.now t) *ℤ force (slice_index result.now t))
        ≡ sum_below (length b.now.members) (λ k. weight k *ℤ force k) }
{
    b.at.as_slice()[(row / 6) as usize].as_slice()
}

/// The force of each member at displacements `u`, in units of 2^-40 N or N m. After a fault some row has no residual either.
pub fn member_forces(b: &Built, laws: &[Law], u: &[i128], forces: &mut [Iv]) -> Result<(), IvFault>
    requires built { IsBuilt b.now }
    requires one_law_each { length laws.now ≡ length b.now.members }
    requires one_displacement_each { length u.now ≡ row_count b.now }
    requires moderate { IsModerate u.now }
    requires one_force_each { length forces.old ≡ length b.now.members }
    ensures forces { OnOk result (HaveForces b.now (forces_of b.now laws.now u.now) forces.new) }
    ensures within { OnOk result ((loads : List Ends) (r : Realisation) → IsRealisation (system b.now laws.now loads) r →
        HoldForces r (displaced r.stiffness.denominator u.now) forces.new) }
    ensures fault { IfErr result (λ e. (loads : List Ends) → (row : ℕ) × (row < row_count b.now) × IsErr (residual_of (system b.now laws.now loads) u.now row)) }
{
    for k in 0..laws.len() {
        forces[k] = member_force(&b.members.as_slice()[k], &laws[k], u)?;
    }
    Ok(())
}

/// What is left of a row's load, in units of 2^-40 N or N m, where the members at its node have these forces.
pub fn residual_from(b: &Built, forces: &[Iv], loads: &[Iv], row: u32) -> Result<Iv, IvFault>
    requires built { IsBuilt b.now }
    requires one_load_each { length loads.now ≡ row_count b.now }
    requires one_force_each { length forces.now ≡ length b.now.members }
    requires row_in_range { row < row_count b.now }
    ensures value { (force : ℕ → Outcome) → HaveForces b.now force forces.now → result ≡ residual_with b.now loads.now force row }
    ensures within { IfOk result (λ e. (laws : List Law) (r : Realisation) (u : Vector) → IsRealisation (system b.now laws loads.now) r →
        HoldForces r u forces.now → Within e (exact_residual r u row)) }
{
    let mut rest = loads[row as usize];
    for &k in members_at(b, row) {
        rest = less_pull(
            &b.members.as_slice()[k as usize],
            row,
            rest,
            forces[k as usize],
        )?;
    }
    Ok(rest)
}

/// What is left of a row's load, in units of 2^-40 N or N m, at displacements `u`. `Wide` too where the force of a member at
/// the row's node reaches 2^66 in size.
pub fn residual_row(
    b: &Built,
    laws: &[Law],
    loads: &[Iv],
    u: &[i128],
    row: u32,
) -> Result<Iv, IvFault>
    requires system { IsSystem (system b.now laws.now loads.now) }
    requires one_displacement_each { length u.now ≡ row_count b.now }
    requires moderate { IsModerate u.now }
    requires row_in_range { row < row_count b.now }
    ensures value { result ≡ residual_of (system b.now laws.now loads.now) u.now row }
    ensures within { IfOk result (λ e. (r : Realisation) → IsRealisation (system b.now laws.now loads.now) r →
        Within e (exact_residual r (displaced r.stiffness.denominator u.now) row)) }
{
    let mut rest = loads[row as usize];
    for &k in members_at(b, row) {
        rest = less_member(
            &b.members.as_slice()[k as usize],
            &laws[k as usize],
            u,
            row,
            rest,
        )?;
    }
    Ok(rest)
}
