ghost use Rattle.std.specs.Prelude.{◌≡◌, ℕ, ◌+◌, ◌*◌, ◌<◌, ◌≤◌, length, slice_index_or, ℤ, pos, ◌*ℤ◌, ◌<ℤ◌, IfOk};
ghost use Rattle.flex_interval.specs.Fraction.{Within};
ghost use Rattle.flex_interval.specs.Operations.{sub_of};
ghost use Rattle.member_set.specs.Members.{start_of, IsModerate, shape_at, nothing};
ghost use Rattle.member_set.specs.Realisation.{ExactMember, IsMemberWithin, displaced, exact_reach, exact_force, reach_fraction, force_fraction, fraction, IsLawWithin, IsOffsetWithin, ExactLaw, start_in, past_start, stretch};
ghost use Rattle.member_set.specs.Interval.{place_count, touched_row, reach_term, reach_of, counted_of, law_force_of, points, intervals};
ghost use Rattle.int_laws.specs.Matrices.{Vector};

use crate::members::{Law, Member};
use flex_interval::{Iv, IvFault};

/// How far displacements `u`, one for each row in units of 2^-56 m or rad, reach along a member: `w.u`, in the same units.
pub fn reach(m: &Member, u: &[i128]) -> Result<Iv, IvFault>
    requires first_node { 6 * m.now.n1 + 6 ≤ length u.now }
    requires second_node { 6 * m.now.n2 + 6 ≤ length u.now }
    requires moderate { IsModerate u.now }
    ensures value { result ≡ reach_of m.now (points u.now) }
    ensures within { IfOk result (λ e. (q : ℤ) (x : ExactMember) → pos 0 <ℤ q →
        ((row : ℕ) → Within (shape_at m.now row) (fraction (x.shape row) q)) →
        Within e (reach_fraction q (exact_reach (length u.now) x (displaced q u.now)))) }
{
    let mut total = flex_interval::point(0);
    for place in 0..place_count(m) {
        total = flex_interval::add(total, reach_term(m, u, place)?)?;
    }
    Ok(total)
}

/// How far displacements that lie within `bounds`, one for each row in units of 2^-56 m or rad, reach along a member.
pub fn reach_between(m: &Member, bounds: &[Iv]) -> Result<Iv, IvFault>
    requires first_node { 6 * m.now.n1 + 6 ≤ length bounds.now }
    requires second_node { 6 * m.now.n2 + 6 ≤ length bounds.now }
    ensures value { result ≡ reach_of m.now (intervals bounds.now) }
    ensures within { IfOk result (λ e. (q : ℤ) (x : ExactMember) (u : Vector) → pos 0 <ℤ q →
        ((row : ℕ) → Within (shape_at m.now row) (fraction (x.shape row) q)) →
        ((row : ℕ) → row < length bounds.now → Within (intervals bounds.now row) (fraction (u row) q)) →
        Within e (reach_fraction q (exact_reach (length bounds.now) x u))) }
{
    let mut total = flex_interval::point(0);
    for place in 0..place_count(m) {
        total = flex_interval::add(total, term_between(m, bounds, place)?)?;
    }
    Ok(total)
}

/// How many shape numbers a member has.
fn place_count(m: &Member) -> usize
    ensures { result ≡ place_count m.now }
{
    if m.n1 == m.n2 { 6 } else { 12 }
}

/// The row of a shape number's place.
fn touched_row(m: &Member, place: usize) -> usize
    requires { place < 12 }
    ensures { result ≡ touched_row m.now place }
{
    if place < 6 {
        6 * m.n1 as usize + place
    } else {
        6 * m.n2 as usize + (place - 6)
    }
}

/// One product of `w.u`.
fn reach_term(m: &Member, u: &[i128], place: usize) -> Result<Iv, IvFault>
    requires place_in_range { place < 12 }
    requires first_node { 6 * m.now.n1 + 6 ≤ length u.now }
    requires second_node { 6 * m.now.n2 + 6 ≤ length u.now }
    requires moderate { IsModerate u.now }
    ensures value { result ≡ reach_term m.now (points u.now) place }
    ensures within { IfOk result (λ e. (q shape : ℤ) → pos 0 <ℤ q → Within (slice_index_or m.now.w place nothing) (fraction shape q) →
        Within e (reach_fraction q (shape *ℤ displaced q u.now (touched_row m.now place)))) }
{
    flex_interval::mul(
        m.w[place],
        flex_interval::point(u[touched_row(m, place)]),
        56,
    )
}

/// The same, where the displacements lie within bounds.
fn term_between(m: &Member, bounds: &[Iv], place: usize) -> Result<Iv, IvFault>
    requires place_in_range { place < 12 }
    requires first_node { 6 * m.now.n1 + 6 ≤ length bounds.now }
    requires second_node { 6 * m.now.n2 + 6 ≤ length bounds.now }
    ensures value { result ≡ reach_term m.now (intervals bounds.now) place }
    ensures within { IfOk result (λ e. (q shape u : ℤ) → pos 0 <ℤ q → Within (slice_index_or m.now.w place nothing) (fraction shape q) →
        Within (intervals bounds.now (touched_row m.now place)) (fraction u q) → Within e (reach_fraction q (shape *ℤ u))) }
{
    flex_interval::mul(m.w[place], bounds[touched_row(m, place)], 56)
}

/// The force of a member with a reach, in units of 2^-40 N or N m.
pub fn law_force(m: &Member, law: &Law, x: Iv) -> Result<Iv, IvFault>
    ensures value { result ≡ law_force_of m.now law.now x }
    ensures within { IfOk result (λ e. (q reach offset : ℤ) (exact : ExactMember) → pos 0 <ℤ q → IsMemberWithin q m.now law.now exact →
        IsOffsetWithin q law.now offset → Within x (reach_fraction q reach) →
        Within e (force_fraction q (exact_force q exact offset reach))) }
{
    flex_interval::mul(m.kappa, counted(law, past_start(law, x)?), 36)
}

/// By how much a reach is past where the force of a law begins, in units of 2^-56 m or rad.
pub(crate) fn past_start(law: &Law, x: Iv) -> Result<Iv, IvFault>
    ensures value { result ≡ sub_of x (start_of law.now) }
    ensures within { IfOk result (λ e. (q reach offset : ℤ) (exact : ExactLaw) → pos 0 <ℤ q → IsLawWithin q law.now exact →
        IsOffsetWithin q law.now offset → Within x (reach_fraction q reach) →
        Within e (reach_fraction q (past_start q exact offset reach))) }
{
    flex_interval::sub(x, start(law))
}

/// The reach at which the force of a law begins.
fn start(law: &Law) -> Iv
    ensures value { result ≡ start_of law.now }
    ensures within { (q offset : ℤ) (exact : ExactLaw) → IsLawWithin q law.now exact → IsOffsetWithin q law.now offset →
        Within result (fraction (start_in exact offset) q) }
{
    match law {
        Law::Linear { offset } => *offset,
        Law::Oneway { gap } => *gap,
    }
}

/// What counts of a reach past the start: all of it, or nothing below 0.
fn counted(law: &Law, past: Iv) -> Iv
    ensures value { result ≡ counted_of law.now past }
    ensures within { (q reach offset : ℤ) (exact : ExactLaw) → pos 0 <ℤ q → IsLawWithin q law.now exact →
        Within past (reach_fraction q (past_start q exact offset reach)) → Within result (reach_fraction q (stretch q exact offset reach)) }
{
    match law {
        Law::Linear { .. } => past,
        Law::Oneway { .. } => flex_interval::max(flex_interval::point(0), past),
    }
}
