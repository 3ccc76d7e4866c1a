ghost use Rattle.std.specs.Prelude.{◌≡◌, ◌<◌, IfSome};
ghost use Rattle.flex_interval.specs.Fraction.{Within};
ghost use Rattle.model_types.specs.MemberCounts.{restraint_member_count};
ghost use Rattle.model_types.specs.Ranges.{IsIn, KindInForm, MoveInForm};
ghost use Rattle.member_set.specs.Members.{start_of};
ghost use Rattle.model_types.specs.declared.ranges.TheConstants.{MOVEMENT};
ghost use Rattle.restraint_law.specs.States.{exact_micrometres, micrometres_of, one_way_gap, case_law, movement, along, exact_start, StillLawsAreOfTheirKind, state_count_of, is_closed_at_rest};

use flex_interval::{Iv, point, ratio};
use member_set::Law;
use model_types::{Move, Restraint, RestraintKind};

/// The law of a restraint's member in a case: one-way past the gap of a one-way support or of either side of a gap, in units of
/// 2^-56 m; else linear, from the movement of an anchor along the axis of a translation on, where the case moves it, and from 0.
pub fn law(r: &Restraint, part: u32, moved: Option<Move>) -> Law
    requires form { KindInForm r.now.kind }
    requires part { part < restraint_member_count r.now.kind }
    requires moved { IfSome moved MoveInForm }
    ensures value { result ≡ case_law r.now.kind moved part }
    ensures encloses { Within (start_of result) (exact_start r.now.kind moved part) }
{
    match one_way_gap(&r.kind) {
        Some(gap) => Law::Oneway {
            gap: micrometres(gap),
        },
        None => Law::Linear {
            offset: micrometres(movement(&r.kind, part, moved)),
        },
    }
}

/// The movement of a restraint's member in micrometres, where the restraint is an anchor that a case moves; else 0.
fn movement(kind: &RestraintKind, part: u32, moved: Option<Move>) -> i64
    requires { IfSome moved MoveInForm }
    ensures value { result ≡ movement kind.now moved part }
    ensures in_range { IsIn MOVEMENT result }
{
    match moved {
        Some(v) => if kind.is_anchor() { along(&v, part) } else { 0 },
        None => 0,
    }
}

/// A movement along the axis of an anchor's translation, in micrometres; 0 for a rotation.
fn along(v: &Move, part: u32) -> i64
    requires { MoveInForm v.now }
    ensures value { result ≡ along v.now part }
    ensures in_range { IsIn MOVEMENT result }
{
    match part {
        0 => v.x,
        1 => v.y,
        2 => v.z,
        _ => 0,
    }
}

/// In a case that doesn't move a restraint its members have the laws of its kind.
pub fn still_laws_are_of_their_kind()
    ensures { StillLawsAreOfTheirKind }
{}

/// How many states a restraint's member has: one, open or closed, where it holds one way.
pub fn state_count(r: &Restraint, part: u32) -> u32
    requires { part < restraint_member_count r.now.kind }
    ensures { result ≡ state_count_of r.now.kind part }
{
    let _part = part;
    match one_way_gap(&r.kind) {
        Some(_gap) => 1,
        None => 0,
    }
}

/// Whether a restraint's member touches before anything moves: exactly where it has a gap, and the gap is 0.
pub fn starts_closed(r: &Restraint, part: u32) -> bool
    requires { part < restraint_member_count r.now.kind }
    ensures { result ≡ is_closed_at_rest r.now.kind part }
{
    let _part = part;
    match r.kind {
        RestraintKind::Oneway { gap, .. } => gap == 0,
        RestraintKind::Gap { gap, .. } => gap == 0,
        RestraintKind::Anchor { .. }
        | RestraintKind::Linear { .. }
        | RestraintKind::Twist { .. }
        | RestraintKind::Hanger { .. } => false,
    }
}

/// The gap past which the members of a restraint hold one way, in micrometres; none where they hold both ways.
fn one_way_gap(kind: &RestraintKind) -> Option<i64>
    ensures value { result ≡ one_way_gap kind.now }
{
    match *kind {
        RestraintKind::Oneway { gap, .. } => Some(gap),
        RestraintKind::Gap { gap, .. } => if gap == 0 { None } else { Some(gap) },
        RestraintKind::Anchor { .. }
        | RestraintKind::Linear { .. }
        | RestraintKind::Twist { .. }
        | RestraintKind::Hanger { .. } => None,
    }
}

/// So many micrometres in units of 2^-56 m.
fn micrometres(length: i64) -> Iv
    requires { IsIn MOVEMENT length }
    ensures value { result ≡ micrometres_of length }
    ensures within { Within result (exact_micrometres length) }
{
    ratio(point(length as i128), 1 << 56, 1_000_000).unwrap()
}
