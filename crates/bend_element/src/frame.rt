ghost use Rattle.std.specs.Prelude.{◌≡◌, IfOk};
ghost use Rattle.flex_interval.specs.Fraction.{Fraction};
ghost use Rattle.member_pairs.specs.Lengths.{IsLengthWithin};
ghost use Rattle.member_pairs.specs.Vectors.{Exact, IsWay, EnclosesVector, parts_of};
ghost use Rattle.bend_element.specs.Bend.{IsFrameWithin, frame_by};
ghost use Rattle.bend_element.specs.ExactBend.{ExactFrame};
ghost use Rattle.bend_element.specs.Rounded.{frame_of};
ghost use Rattle.bend_element.specs.Stages.{EnclosesFrame};

use flex_interval::{Iv, IvFault};
use member_pairs::{Way, cross, half, length, tangent};

/// Where a bend lies: unit vectors along its chord, across its plane and along its middle radius to the outer side, in units of
/// 2^-56, and half the length of its chord, in units of 2^-56 m.
#[derive(Clone, Copy)]
pub struct Frame {
    pub chord: [Iv; 3],
    pub normal: [Iv; 3],
    pub side: [Iv; 3],
    pub half: Iv,
}

/// The frame of a bend along a way.
#[tactic(auto, unfolding(crate::specs::Rounded::frame_of))]
pub fn frame_along(way: &Way, normal: &[Iv; 3]) -> Result<Frame, IvFault>
    requires { IsWay way.now }
    ensures value { result ≡ frame_of way.now normal.now }
    ensures within { IfOk result (λ f. (x : ExactFrame) → IsFrameWithin way.now normal.now x → EnclosesFrame f x) }

    // The unit vector and the half length by a length within are within.
    ensures place { IfOk result (λ _. (l : Fraction) (n : Exact) → IsLengthWithin (parts_of way.now) l → EnclosesVector normal.now n → IsFrameWithin way.now normal.now (frame_by way.now l n)) }
{
    let length = length(way)?;
    let chord = tangent(way, length)?;
    let half = half(length)?;
    let side = cross(normal, &chord)?;
    Ok(Frame {
        chord,
        normal: *normal,
        side,
        half,
    })
}
