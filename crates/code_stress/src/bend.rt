ghost use Rattle.std.specs.Prelude.{◌≡◌, ◌^◌, pos, ◌≤ℤ◌, ◌<ℤ◌, IfOk};
ghost use Rattle.flex_interval.specs.Fraction.{Fraction, Within, times};
ghost use Rattle.member_pairs.specs.Vectors.{Exact, EnclosesVector};
ghost use Rattle.code_stress.specs.Bend.{stress_index, stress_index_of, in_plane, in_plane_stress_of, out_of_plane, out_of_plane_stress_of};

use crate::action::inner_product;
use flex_interval::{Iv, IvFault, max, point, ratio};
use member_pairs::cross;
use stress_terms::{intensified, squared};

/// The index of a stress: for a sustained or occasional one three quarters of it, and at least 1 (320.2).
#[tactic(auto, unfolding(crate::specs::Bend::stress_index_of, crate::specs::Bend::stress_index))]
fn stress_index(i: Iv, sustained: bool) -> Result<Iv, IvFault>
    requires { pos (2 ^ 30) ≤ℤ i.lo }
    ensures value { result ≡ stress_index_of i sustained }
    ensures within { IfOk result (λ e. (x : Fraction) → Within i x → Within e (stress_index x sustained)) }
    ensures from_zero { IfOk result (λ e. pos 0 ≤ℤ e.lo) }
{
    if sustained {
        let reduced = ratio(i, 3, 4)?;
        Ok(max(point(1 << 30), reduced))
    } else {
        Ok(i)
    }
}

/// The square of the bending stress in plane, about the normal of a bend's or tee's plane.
#[tactic(auto, unfolding(crate::specs::Bend::in_plane_stress_of, crate::specs::Bend::in_plane))]
pub fn in_plane(
    moment: &[Iv; 3],
    normal: &[Iv; 3],
    index: Iv,
    modulus: Iv,
    sustained: bool,
) -> Result<Iv, IvFault>
    requires index { pos (2 ^ 30) ≤ℤ index.lo }
    requires modulus { pos 0 <ℤ modulus.lo }
    ensures value { result ≡ in_plane_stress_of moment.now normal.now index modulus sustained }
    ensures within { IfOk result (λ e. (m n : Exact) (i z : Fraction) → EnclosesVector moment.now m → EnclosesVector normal.now n → Within index i → Within modulus z →
        Within e (times (in_plane m n i z sustained) (in_plane m n i z sustained) 0)) }
    ensures from_zero { IfOk result (λ e. pos 0 ≤ℤ e.lo) }
{
    let about = inner_product(moment, normal)?;
    let reduced = stress_index(index, sustained)?;
    let stress = intensified(about, reduced, modulus)?;
    squared(stress)
}

/// The square of the bending stress out of plane, about the cross product of normal and tangent.
#[tactic(auto, unfolding(crate::specs::Bend::out_of_plane_stress_of, crate::specs::Bend::out_of_plane))]
pub fn out_of_plane(
    moment: &[Iv; 3],
    normal: &[Iv; 3],
    tangent: &[Iv; 3],
    index: Iv,
    modulus: Iv,
    sustained: bool,
) -> Result<Iv, IvFault>
    requires index { pos (2 ^ 30) ≤ℤ index.lo }
    requires modulus { pos 0 <ℤ modulus.lo }
    ensures value { result ≡ out_of_plane_stress_of moment.now normal.now tangent.now index modulus sustained }
    ensures within { IfOk result (λ e. (m n t : Exact) (i z : Fraction) → EnclosesVector moment.now m → EnclosesVector normal.now n → EnclosesVector tangent.now t →
        Within index i → Within modulus z → Within e (times (out_of_plane m n t i z sustained) (out_of_plane m n t i z sustained) 0)) }
    ensures from_zero { IfOk result (λ e. pos 0 ≤ℤ e.lo) }
{
    let across = cross(normal, tangent)?;
    in_plane(moment, &across, index, modulus, sustained)
}
