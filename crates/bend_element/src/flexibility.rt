ghost use Rattle.std.specs.Prelude.{◌≡◌, IfOk};
ghost use Rattle.flex_interval.specs.Fraction.{Fraction, Within};
ghost use Rattle.member_pairs.specs.Tubes.{IsRoundTube};
ghost use Rattle.bend_element.specs.Arcs.{IsArc, ExactArc, EnclosesArc};
ghost use Rattle.bend_element.specs.ExactBend.{sine_square, twist as exact_twist, twisted_sine, gyration_square, radius_square, bending_square, weighted, rotation_flexibility, radial_flexibility, chord_moment_flexibility, offset_flexibility, normal_flexibility, normal_centre};
ghost use Rattle.bend_element.specs.Rounded.{twist_of, gyration_square_of, radius_square_of, bending_square_of, weighted_of, rotation_of, radial_of, in_plane_of, offset_of, normal_of, normal_centre_of, across_of, flexibility_of};
ghost use Rattle.bend_element.specs.Stages.{EnclosesIntegrals, EnclosesInPlane, EnclosesAcross, EnclosesFlexibility};

use crate::arc::{Arc, radius_square};
use crate::centre::elastic_centre;
use crate::integrals::{Integrals, arc_integrals};
use flex_interval::{Iv, IvFault, add, div, mul, point, ratio, sub};
use member_pairs::{Tube, divisor};

/// The flexibilities of an arc in its plane in multiples of R/EI, each at the elastic centre, in units of 2^-56.
#[derive(Clone, Copy)]
pub struct InPlane {
    /// Of a rotation: 2 k a.
    pub rotation: Iv,
    /// Of a force along the middle radius, in m^2.
    pub radial: Iv,
    /// Of a force along the chord, in m^2.
    pub chord: Iv,
    /// The elastic centre past the chord's middle, in m.
    pub centre: Iv,
}

/// The flexibilities across the plane.
#[derive(Clone, Copy)]
pub struct Across {
    /// Of a moment about the middle radius.
    pub radius_moment: Iv,
    /// Of a moment about the chord.
    pub chord_moment: Iv,
    /// Of a force across the plane, in m^2.
    pub normal: Iv,
    /// The elastic centre past the chord's middle, in m.
    pub centre: Iv,
}

/// All six.
#[derive(Clone, Copy)]
pub struct Flexibility {
    pub plane: InPlane,
    pub across: Across,
}

/// The flexibilities of an arc of a tube.
#[tactic(auto, unfolding(crate::specs::Rounded::flexibility_of))]
pub fn flexibilities(tube: &Tube, arc: &Arc) -> Result<Flexibility, IvFault>
    requires tube { IsRoundTube tube.now }
    requires arc { IsArc arc.now }
    ensures value { result ≡ flexibility_of tube.now arc.now }
    ensures within { IfOk result (λ f. (x : ExactArc) → EnclosesArc arc.now x → EnclosesFlexibility f tube.now x) }
{
    let integrals = arc_integrals(arc)?;
    let plane = in_plane(tube, arc, &integrals)?;
    let across = across_plane(tube, arc, &integrals)?;
    Ok(Flexibility { plane, across })
}

#[tactic(auto, unfolding(crate::specs::Rounded::in_plane_of))]
fn in_plane(tube: &Tube, arc: &Arc, i: &Integrals) -> Result<InPlane, IvFault>
    requires tube { IsRoundTube tube.now }
    requires arc { IsArc arc.now }
    ensures value { result ≡ in_plane_of tube.now arc.now i.now }
    ensures within { IfOk result (λ f. (x : ExactArc) → EnclosesArc arc.now x → EnclosesIntegrals i.now x → EnclosesInPlane f tube.now x) }
{
    let bending = bending_square(arc)?;
    let gyration = gyration_square(tube)?;
    let rotation = rotation(arc)?;
    let radial = radial(bending, gyration, i.sine_square)?;
    let chord = weighted(bending, i.spread, gyration, i.cosine_square)?;
    let centre = elastic_centre(arc, arc.sin, arc.a)?;
    Ok(InPlane {
        rotation,
        radial,
        chord,
        centre,
    })
}

/// 2 k a.
#[tactic(auto, unfolding(crate::specs::Rounded::rotation_of))]
fn rotation(arc: &Arc) -> Result<Iv, IvFault>
    ensures value { result ≡ rotation_of arc.now }
    ensures within { IfOk result (λ e. (x : ExactArc) → EnclosesArc arc.now x → Within e (rotation_flexibility x)) }
{
    let angle = ratio(arc.a, 2, 1)?;
    mul(arc.k, angle, 56)
}

#[tactic(auto, unfolding(crate::specs::Rounded::radial_of))]
fn radial(bending: Iv, gyration: Iv, square: Iv) -> Result<Iv, IvFault>
    ensures value { result ≡ radial_of bending gyration square }
    ensures within { IfOk result (λ e. (tube : Tube) (x : ExactArc) → Within bending (bending_square x) → Within gyration (gyration_square tube) → Within square (sine_square x) →
        Within e (radial_flexibility tube x)) }
{
    let squares = add(bending, gyration)?;
    mul(squares, square, 56)
}

/// `p u + q v`.
#[tactic(auto, unfolding(crate::specs::Rounded::weighted_of))]
fn weighted(p: Iv, u: Iv, q: Iv, v: Iv) -> Result<Iv, IvFault>
    ensures value { result ≡ weighted_of p u q v }
    ensures within { IfOk result (λ e. (a b c d : Fraction) → Within p a → Within u b → Within q c → Within v d → Within e (weighted a b c d)) }
{
    let first = mul(p, u, 56)?;
    let second = mul(q, v, 56)?;
    add(first, second)
}

#[tactic(auto, unfolding(crate::specs::Rounded::across_of))]
fn across_plane(tube: &Tube, arc: &Arc, i: &Integrals) -> Result<Across, IvFault>
    requires tube { IsRoundTube tube.now }
    requires arc { IsArc arc.now }
    ensures value { result ≡ across_of tube.now arc.now i.now }
    ensures within { IfOk result (λ f. (x : ExactArc) → EnclosesArc arc.now x → EnclosesIntegrals i.now x → EnclosesAcross f tube.now x) }
{
    let twist = twist(tube)?;
    let radius_moment = weighted(arc.k, i.cosine_square, twist, i.sine_square)?;
    let chord_moment = weighted(arc.k, i.sine_square, twist, i.cosine_square)?;
    let sine = mul(twist, arc.sin, 56)?;
    let normal = normal(arc, twist, sine, chord_moment)?;
    let centre = normal_centre(arc, sine, chord_moment)?;
    Ok(Across {
        radius_moment,
        chord_moment,
        normal,
        centre,
    })
}

#[tactic(auto, unfolding(crate::specs::Rounded::normal_of))]
fn normal(arc: &Arc, twist: Iv, sine: Iv, chord_moment: Iv) -> Result<Iv, IvFault>
    requires { IsArc arc.now }
    ensures value { result ≡ normal_of arc.now twist sine chord_moment }
    ensures within { IfOk result (λ e. (tube : Tube) (x : ExactArc) → EnclosesArc arc.now x → Within twist (exact_twist tube) → Within sine (twisted_sine tube x) → Within chord_moment (chord_moment_flexibility tube x) →
        Within e (normal_flexibility tube x)) }
{
    let square = radius_term(arc)?;
    let offset = offset(arc, twist, sine, chord_moment)?;
    mul(square, offset, 56)
}

#[tactic(auto, unfolding(crate::specs::Rounded::offset_of))]
fn offset(arc: &Arc, twist: Iv, sine: Iv, chord_moment: Iv) -> Result<Iv, IvFault>
    ensures value { result ≡ offset_of arc.now twist sine chord_moment }
    ensures within { IfOk result (λ e. (tube : Tube) (x : ExactArc) → EnclosesArc arc.now x → Within twist (exact_twist tube) → Within sine (twisted_sine tube x) → Within chord_moment (chord_moment_flexibility tube x) →
        Within e (offset_flexibility tube x)) }
{
    let product = mul(arc.a, twist, 56)?;
    let twice = ratio(product, 2, 1)?;
    let square = mul(sine, sine, 56)?;
    let fourfold = ratio(square, 4, 1)?;
    let less = div(fourfold, chord_moment, 56)?;
    sub(twice, less)
}

#[tactic(auto, unfolding(crate::specs::Rounded::normal_centre_of))]
fn normal_centre(arc: &Arc, sine: Iv, chord_moment: Iv) -> Result<Iv, IvFault>
    requires { IsArc arc.now }
    ensures value { result ≡ normal_centre_of arc.now sine chord_moment }
    ensures within { IfOk result (λ e. (tube : Tube) (x : ExactArc) → EnclosesArc arc.now x → Within sine (twisted_sine tube x) → Within chord_moment (chord_moment_flexibility tube x) →
        Within e (normal_centre tube x)) }
{
    let twice = ratio(sine, 2, 1)?;
    elastic_centre(arc, twice, chord_moment)
}

/// EI/GJ.
#[tactic(auto, unfolding(crate::specs::Rounded::twist_of))]
fn twist(tube: &Tube) -> Result<Iv, IvFault>
    requires { IsRoundTube tube.now }
    ensures value { result ≡ twist_of tube.now }
    ensures within { IfOk result (λ e. Within e (exact_twist tube.now)) }
{
    ratio(point(divisor(tube)), 1 << 56, 1000)
}

/// I/A, in square metres.
#[tactic(auto, unfolding(crate::specs::Rounded::gyration_square_of))]
fn gyration_square(tube: &Tube) -> Result<Iv, IvFault>
    requires { IsRoundTube tube.now }
    ensures value { result ≡ gyration_square_of tube.now }
    ensures within { IfOk result (λ e. Within e (gyration_square tube.now)) }
{
    ratio(point(tube.square_sum), 1 << 56, 16_000_000_000_000)
}

/// R^2, in square metres.
#[tactic(auto, unfolding(crate::specs::Rounded::radius_square_of))]
fn radius_term(arc: &Arc) -> Result<Iv, IvFault>
    requires { IsArc arc.now }
    ensures value { result ≡ radius_square_of arc.now }
    ensures within { IfOk result (λ e. (x : ExactArc) → EnclosesArc arc.now x → Within e (radius_square x)) }
{
    ratio(point(radius_square(arc)), 1 << 56, 1_000_000_000_000)
}

/// k R^2, in square metres.
#[tactic(auto, unfolding(crate::specs::Rounded::bending_square_of))]
fn bending_square(arc: &Arc) -> Result<Iv, IvFault>
    requires { IsArc arc.now }
    ensures value { result ≡ bending_square_of arc.now }
    ensures within { IfOk result (λ e. (x : ExactArc) → EnclosesArc arc.now x → Within e (bending_square x)) }
{
    ratio(arc.k, radius_square(arc), 1_000_000_000_000)
}
