ghost use Rattle.std.specs.Prelude.{◌≡◌, ◌^◌, ℤ, pos, neg_ℤ, ◌*ℤ◌, IfOk, length};
ghost use Rattle.flex_interval.specs.Fraction.{Within, whole};
ghost use Rattle.flex_interval.specs.Operations.{point_of};
ghost use Rattle.model_types.specs.Ranges.{IsIn, IsStiffness, KindInForm};
ghost use Rattle.model_types.specs.declared.ranges.TheConstants.{STIFFNESS};
ghost use Rattle.model_types.specs.declared.records.RestraintKind.TheVariants.{Anchor, Gap};
ghost use Rattle.member_pairs.specs.Axes.{translation, rotation, z_axis};
ghost use Rattle.restraint_law.specs.Directions.{parts, IsRestraintDirection};
ghost use Rattle.restraint_law.specs.Enclosures.{EnclosesRestraint, HoldsAlong, HoldsTowards, exact_axis};
ghost use Rattle.restraint_law.specs.Restraints.{restraint_members, kind_members, restraint_member, translation_member, rotation_member, axis_vector, stated_or, on_translation, on_rotation};
ghost use Rattle.model_types.specs.MemberCounts.{restraint_member_count};

use crate::direction::{Direction, unit_vector};
use flex_interval::{Iv, point};
use member_set::Member;
use model_types::{NoMemory, Restraint, RestraintKind};
use std::alloc::Global;

/// The stiffness of an anchor where none is stated, in N/m and N m/rad.
const ANCHOR_STIFFNESS: i64 = 10_000_000_000;

/// The stiffness along a direction where none is stated, in N/m, and about one, in N m/rad.
const DIRECTION_STIFFNESS: i64 = 1_000_000_000;

/// The members of a restraint: six of an anchor, two of a gap that isn't 0, one of any other.
pub fn restraint(alloc: Global, r: &Restraint) -> Result<Vec<Member>, NoMemory>
    requires { KindInForm r.now.kind }
    ensures value { IfOk result (λ members. members.items ≡ restraint_members r.now) }
    ensures count { IfOk result (λ members. length members.items ≡ restraint_member_count r.now.kind) }
    ensures encloses { IfOk result (λ members. EnclosesRestraint r.now.kind members.items) }
{
    let node = r.node.0;
    match r.kind {
        RestraintKind::Anchor { kt, kr } => anchor_members(node, kt, kr).to_vec(alloc),
        RestraintKind::Linear { dx, dy, dz, k } => {
            let d = towards(dx, dy, dz);
            [translation_member(node, &d, k)].to_vec(alloc)
        }
        RestraintKind::Twist { dx, dy, dz, k } => {
            let d = towards(dx, dy, dz);
            [rotation_member(node, &d, k)].to_vec(alloc)
        }
        RestraintKind::Oneway { dx, dy, dz, k, .. } => {
            let d = towards(dx, dy, dz);
            [translation_member(node, &d, k)].to_vec(alloc)
        }
        RestraintKind::Gap { dx, dy, dz, gap, k } => {
            let d = towards(dx, dy, dz);
            gap_members(alloc, node, &d, gap, k)
        }
        RestraintKind::Hanger { rate, .. } => [hanger_member(node, rate)].to_vec(alloc),
    }
}

fn towards(x: i64, y: i64, z: i64) -> Direction
    ensures { result ≡ record { x = x; y = y; z = z } }
{
    Direction { x, y, z }
}

/// The direction of the other side.
fn opposite(d: &Direction) -> Direction
    requires { IsRestraintDirection d.now }
    ensures value { result ≡ record { x = neg_ℤ d.now.x; y = neg_ℤ d.now.y; z = neg_ℤ d.now.z } }
    ensures direction { IsRestraintDirection result }
{
    Direction {
        x: -d.x,
        y: -d.y,
        z: -d.z,
    }
}

/// The members of a gap: the first holds the translation of its node along a direction, and where the gap isn't 0 the second
/// holds it along the opposite direction.
fn gap_members(
    alloc: Global,
    node: u32,
    d: &Direction,
    gap: i64,
    k: Option<i64>,
) -> Result<Vec<Member>, NoMemory>
    requires direction { IsRestraintDirection d.now }
    requires stiffness { IsStiffness k }
    ensures value { IfOk result (λ members. members.items ≡ kind_members node (Gap d.now.x d.now.y d.now.z gap k)) }
    ensures encloses { IfOk result (λ members. EnclosesRestraint (Gap d.now.x d.now.y d.now.z gap k) members.items) }
{
    let first = translation_member(node, d, k);
    if gap == 0 {
        return [first].to_vec(alloc);
    }
    let second = translation_member(node, &opposite(d), k);
    [first, second].to_vec(alloc)
}

/// The spring of a hanger: it holds the translation of its node along z.
fn hanger_member(node: u32, rate: i64) -> Member
    requires { IsIn STIFFNESS rate }
    ensures value { result ≡ restraint_member node rate (on_translation (axis_vector z_axis)) }
    ensures holds { HoldsAlong result rate translation (exact_axis z_axis) }
{
    let zero = point(0);
    member(node, rate, on_translation([zero, zero, point(1 << 56)]))
}

/// The members of an anchor: they hold the three translations of its node, and then the three rotations.
fn anchor_members(node: u32, kt: Option<i64>, kr: Option<i64>) -> [Member; 6]
    requires translations { IsStiffness kt }
    requires rotations { IsStiffness kr }
    ensures value { result ≡ kind_members node (Anchor kt kr) }
    ensures encloses { EnclosesRestraint (Anchor kt kr) result }
{
    let kt = stated_or(kt, ANCHOR_STIFFNESS);
    let kr = stated_or(kr, ANCHOR_STIFFNESS);
    let one = point(1 << 56);
    let zero = point(0);
    [
        member(node, kt, on_translation([one, zero, zero])),
        member(node, kt, on_translation([zero, one, zero])),
        member(node, kt, on_translation([zero, zero, one])),
        member(node, kr, on_rotation([one, zero, zero])),
        member(node, kr, on_rotation([zero, one, zero])),
        member(node, kr, on_rotation([zero, zero, one])),
    ]
}

/// Holds the translation of a node along a direction.
fn translation_member(node: u32, d: &Direction, k: Option<i64>) -> Member
    requires direction { IsRestraintDirection d.now }
    requires stiffness { IsStiffness k }
    ensures value { result ≡ translation_member node k (parts d.now) }
    ensures holds { HoldsTowards result k translation (parts d.now) }
{
    let k = stated_or(k, DIRECTION_STIFFNESS);
    member(node, k, on_translation(unit_vector(d)))
}

/// Holds the rotation of a node about a direction.
fn rotation_member(node: u32, d: &Direction, k: Option<i64>) -> Member
    requires direction { IsRestraintDirection d.now }
    requires stiffness { IsStiffness k }
    ensures value { result ≡ rotation_member node k (parts d.now) }
    ensures holds { HoldsTowards result k rotation (parts d.now) }
{
    let k = stated_or(k, DIRECTION_STIFFNESS);
    member(node, k, on_rotation(unit_vector(d)))
}

fn stated_or(k: Option<i64>, default: i64) -> i64
    requires stated { IsStiffness k }
    requires default { IsIn STIFFNESS default }
    ensures value { result ≡ stated_or default k }
    ensures stiffness { IsIn STIFFNESS result }
{
    k.unwrap_or(default)
}

/// A member of so much stiffness, in N/m or N m/rad, with these shape numbers.
fn member(node: u32, k: i64, w: [Iv; 12]) -> Member
    requires { IsIn STIFFNESS k }
    ensures value { result ≡ restraint_member node k w }
    ensures stiffness { Within result.kappa (whole (k *ℤ pos (2 ^ 20))) }
{
    Member {
        n1: node,
        n2: node,
        kappa: point(i128::from(k) * (1 << 20)),
        w,
    }
}

/// The shape numbers of a vector on the translation of the first node.
fn on_translation(v: [Iv; 3]) -> [Iv; 12]
    ensures { result ≡ on_translation v }
{
    let [x, y, z] = v;
    let o = point(0);
    [x, y, z, o, o, o, o, o, o, o, o, o]
}

/// The shape numbers of a vector on the rotation of the first node.
fn on_rotation(v: [Iv; 3]) -> [Iv; 12]
    ensures { result ≡ on_rotation v }
{
    let [x, y, z] = v;
    let o = point(0);
    [o, o, o, x, y, z, o, o, o, o, o, o]
}
