ghost use Rattle.std.specs.Prelude.{◌≡◌, ◌*◌, ◌^◌, pos, ◌*ℤ◌, IfOk};
ghost use Rattle.flex_interval.specs.Fraction.{Fraction, Within, whole, over};
ghost use Rattle.flex_interval.specs.Operations.{point_of};
ghost use Rattle.model_types.specs.Ranges.{IsIn, of_size};
ghost use Rattle.member_pairs.specs.Lengths.{length_of, tangent_part_of, tangent_of, half_of, tangent, half_length};
ghost use Rattle.member_pairs.specs.Vectors.{parts_of, IsWay, EnclosesVector};

use crate::way::{Way, square};
use flex_interval::{Iv, IvFault, div, point, ratio, root};

/// The length of a way, in units of 2^-36 micrometre.
#[tactic(auto, unfolding(crate::specs::Lengths::length_of))]
pub fn length(way: &Way) -> Result<Iv, IvFault>
    requires { IsWay way.now }
    ensures { result ≡ length_of (parts_of way.now) }
{
    root(point(square(way)), 72)
}

/// Half of a length of 2^-36 micrometre, in units of 2^-56 m.
pub fn half(length: Iv) -> Result<Iv, IvFault>
    ensures value { result ≡ half_of length }
    ensures within { IfOk result (λ e. (l : Fraction) → Within length l → Within e (half_length l)) }
{
    ratio(length, 1 << 19, 1_000_000)
}

/// The unit vector along a way, in units of 2^-56.
#[tactic(auto, unfolding(crate::specs::Lengths::tangent_of))]
pub fn tangent(way: &Way, length: Iv) -> Result<[Iv; 3], IvFault>
    requires { IsWay way.now }
    ensures value { result ≡ tangent_of way.now length }
    ensures within { IfOk result (λ t. (l : Fraction) → Within length l → EnclosesVector t (tangent (parts_of way.now) l)) }
{
    let x = tangent_part(way.x, length)?;
    let y = tangent_part(way.y, length)?;
    let z = tangent_part(way.z, length)?;
    Ok([x, y, z])
}

/// A part of the unit vector.
#[tactic(auto, unfolding(crate::specs::Lengths::tangent_part_of))]
fn tangent_part(part: i64, length: Iv) -> Result<Iv, IvFault>
    requires { IsIn (of_size 30000000) part }
    ensures value { result ≡ tangent_part_of part length }
    ensures within { IfOk result (λ e. (l : Fraction) → Within length l → Within e (over (whole (part *ℤ pos (2 ^ 36))) l 56)) }
{
    div(raised(part), length, 56)
}

/// A whole number of micrometres in units of 2^-36 micrometre.
fn raised(part: i64) -> Iv
    requires { IsIn (of_size 30000000) part }
    ensures value { result ≡ point_of (part *ℤ pos (2 ^ 36)) }
    ensures within { Within result (whole (part *ℤ pos (2 ^ 36))) }
{
    point(i128::from(part) * (1 << 36))
}
