ghost use Rattle.std.specs.Prelude.{◌≡◌, IfOk};
ghost use Rattle.flex_interval.specs.Fraction.{Fraction, Within};
ghost use Rattle.member_pairs.specs.Axes.{x_axis, y_axis, z_axis};
ghost use Rattle.member_pairs.specs.Lengths.{tangent, half_length};
ghost use Rattle.member_pairs.specs.Vectors.{parts_of, IsWay, EnclosesVector};
ghost use Rattle.pipe_element.specs.ExactStraight.{lever_arm};
ghost use Rattle.pipe_element.specs.Rounded.{along_of, x_arm_of, y_arm_of, z_arm_of, shapes_of, are_shapes};
ghost use Rattle.pipe_element.specs.Shapes.{half_along, EnclosesShapes};

use flex_interval::{Iv, IvFault, neg, ratio, sub};
use member_pairs::{Way, half, is_moderate, tangent};

/// What the shape vectors of a straight are made of, in units of 2^-56.
#[derive(Clone, Copy)]
pub struct Shapes {
    /// The unit vector from FROM to TO.
    pub tangent: [Iv; 3],
    /// The lever arms of the shears along the axes, at the middle of the length.
    pub x_arm: [Iv; 3],
    pub y_arm: [Iv; 3],
    pub z_arm: [Iv; 3],
}

/// The unit vector and the lever arms.
#[tactic(auto, unfolding(crate::specs::Rounded::shapes_of))]
pub fn enclose_shapes(way: &Way, length: Iv) -> Result<Shapes, IvFault>
    requires { IsWay way.now }
    ensures value { result ≡ shapes_of way.now length }
    ensures within { IfOk result (λ w. (l : Fraction) → Within length l → EnclosesShapes w (parts_of way.now) l) }
{
    let tangent = tangent(way, length)?;
    let half = half(length)?;
    let [x, y, z] = tangent;
    let x_arm = x_arm(way, half, x)?;
    let y_arm = y_arm(way, half, y)?;
    let z_arm = z_arm(way, half, z)?;
    Ok(Shapes {
        tangent,
        x_arm,
        y_arm,
        z_arm,
    })
}

/// Half of the way times a part of the unit vector, in units of 2^-56 m.
#[tactic(auto, unfolding(crate::specs::Rounded::along_of))]
fn along(way: &Way, part: Iv) -> Result<[Iv; 3], IvFault>
    ensures value { result ≡ along_of way.now part }
    ensures within { IfOk result (λ a. (t : Fraction) → Within part t → EnclosesVector a (half_along (parts_of way.now) t)) }
{
    let x = ratio(part, i128::from(way.x), 2_000_000)?;
    let y = ratio(part, i128::from(way.y), 2_000_000)?;
    let z = ratio(part, i128::from(way.z), 2_000_000)?;
    Ok([x, y, z])
}

/// The lever arm of the shear along x.
#[tactic(auto, unfolding(crate::specs::Rounded::x_arm_of))]
fn x_arm(way: &Way, half: Iv, part: Iv) -> Result<[Iv; 3], IvFault>
    ensures value { result ≡ x_arm_of way.now half part }
    ensures within { IfOk result (λ a. (l : Fraction) → Within half (half_length l) → Within part (tangent (parts_of way.now) l x_axis) → EnclosesVector a (lever_arm (parts_of way.now) l x_axis)) }
{
    let [along_x, along_y, along_z] = along(way, part)?;
    Ok([sub(half, along_x)?, neg(along_y), neg(along_z)])
}

/// The lever arm of the shear along y.
#[tactic(auto, unfolding(crate::specs::Rounded::y_arm_of))]
fn y_arm(way: &Way, half: Iv, part: Iv) -> Result<[Iv; 3], IvFault>
    ensures value { result ≡ y_arm_of way.now half part }
    ensures within { IfOk result (λ a. (l : Fraction) → Within half (half_length l) → Within part (tangent (parts_of way.now) l y_axis) → EnclosesVector a (lever_arm (parts_of way.now) l y_axis)) }
{
    let [along_x, along_y, along_z] = along(way, part)?;
    Ok([neg(along_x), sub(half, along_y)?, neg(along_z)])
}

/// The lever arm of the shear along z.
#[tactic(auto, unfolding(crate::specs::Rounded::z_arm_of))]
fn z_arm(way: &Way, half: Iv, part: Iv) -> Result<[Iv; 3], IvFault>
    ensures value { result ≡ z_arm_of way.now half part }
    ensures within { IfOk result (λ a. (l : Fraction) → Within half (half_length l) → Within part (tangent (parts_of way.now) l z_axis) → EnclosesVector a (lever_arm (parts_of way.now) l z_axis)) }
{
    let [along_x, along_y, along_z] = along(way, part)?;
    Ok([neg(along_x), neg(along_y), sub(half, along_z)?])
}

/// Whether each shape number is at most 2^60 in size.
pub fn are_shapes(w: &Shapes) -> bool
    ensures { result ≡ are_shapes w.now }
{
    is_moderate(&w.tangent)
        && is_moderate(&w.x_arm)
        && is_moderate(&w.y_arm)
        && is_moderate(&w.z_arm)
}
