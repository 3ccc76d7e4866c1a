ghost use Rattle.std.specs.Prelude.{◌≡◌, IfOk};
ghost use Rattle.flex_interval.specs.Fraction.{Fraction, Within};
ghost use Rattle.member_pairs.specs.Pairs.{shape_numbers, shape, member as member_of, limited_member as limited_member_of, EnclosesMember, IsMemberOf};
ghost use Rattle.member_pairs.specs.Vectors.{Exact, EnclosesVector};

use crate::limits::{is_moderate, is_stiffness};
use flex_interval::{Iv, Wide, neg};
use member_set::Member;
use model_types::Element;

/// The member of an element that has the stiffness `kappa`, in units of 2^-20 N/m, and whose shape vector, in units of
/// 2^-56, is a translation, opposite at FROM, with the rotations `from` at FROM and `to` at TO.
pub fn member(e: &Element, kappa: Iv, translation: &[Iv; 3], from: &[Iv; 3], to: &[Iv; 3]) -> Member
    ensures value { result ≡ member_of e.now kappa translation.now from.now to.now }
    ensures within { (k : Fraction) (v f t : Exact) → Within kappa k → EnclosesVector translation.now v → EnclosesVector from.now f → EnclosesVector to.now t →
        EnclosesMember result k (shape v f t) }
{
    Member {
        n1: e.from.0,
        n2: e.to.0,
        kappa,
        w: shape_numbers(translation, from, to),
    }
}

/// The same, where the stiffness is at least 1 and below 2^60 and each shape number is at most 2^60 in size; else `Wide`.
pub fn limited_member(
    e: &Element,
    kappa: Iv,
    translation: &[Iv; 3],
    from: &[Iv; 3],
    to: &[Iv; 3],
) -> Result<Member, Wide>
    ensures value { result ≡ limited_member_of e.now kappa translation.now from.now to.now }
    ensures limits { IfOk result (IsMemberOf e.now) }
    ensures within { IfOk result (λ m. (k : Fraction) (v f t : Exact) → Within kappa k → EnclosesVector translation.now v → EnclosesVector from.now f → EnclosesVector to.now t →
        EnclosesMember m k (shape v f t)) }
{
    if is_stiffness(kappa) && is_moderate(translation) && is_moderate(from) && is_moderate(to) {
        Ok(member(e, kappa, translation, from, to))
    } else {
        Err(Wide)
    }
}

/// The twelve shape numbers.
fn shape_numbers(translation: &[Iv; 3], from: &[Iv; 3], to: &[Iv; 3]) -> [Iv; 12]
    ensures { result ≡ shape_numbers translation.now from.now to.now }
{
    let [x, y, z] = *translation;
    let [from_x, from_y, from_z] = *from;
    let [to_x, to_y, to_z] = *to;
    [
        neg(x),
        neg(y),
        neg(z),
        from_x,
        from_y,
        from_z,
        x,
        y,
        z,
        to_x,
        to_y,
        to_z,
    ]
}
