ghost use Rattle.std.specs.Prelude.{◌≡◌, pos, ◌≤ℤ◌, ◌<ℤ◌, is_some, IfOk, IfSome};
ghost use Rattle.flex_interval.specs.Fraction.{Fraction, Within};
ghost use Rattle.member_pairs.specs.Vectors.{Exact, EnclosesVector};
ghost use Rattle.stress_terms.specs.Combined.{EnclosesStress};
ghost use Rattle.code_stress.specs.Action.{EnclosesForce, EnclosesMoment};
ghost use Rattle.code_stress.specs.Direct.{IsPressure};
ghost use Rattle.code_stress.specs.Station.{StationInForm, ExactStation, EnclosesStation, EnclosesNormal, direct_stress, direct_stress_of, plane_square, plane_square_of, bending_stress_square, bending_stress_square_of, torsion_stress, station_stress_of};

use crate::action::{force_vector, inner_product, moment_vector};
use crate::bend::{in_plane, out_of_plane};
use crate::direct::with_pressure;
use crate::straight::{about, straight_square};
use flex_interval::{Iv, IvFault};
use section_data::SectionIv;
use stress_terms::{axial, combined, sum};

/// What the stress of a station is taken with: the end of an element.
#[derive(Clone, Copy)]
pub struct StationData {
    /// The unit vector along the pipe, in units of 2^-56.
    pub tangent: [Iv; 3],
    /// At a bend or tee the unit vector normal to its plane, in units of 2^-56.
    pub normal: Option<[Iv; 3]>,
    /// The section, with the wall of the check.
    pub section: SectionIv,
    /// The section modulus of bending in and out of plane at a bend or tee, in units of 2^-16 cubic micrometre.
    pub bending: Iv,
    /// The stress intensification factor in plane, in units of 2^-30.
    pub ii: Iv,
    /// The stress intensification factor out of plane, in units of 2^-30.
    pub io: Iv,
}

/// The stress of a station under the force and the moment `f`, in units of 2^-40 N and 2^-40 N m, in units of 2^-16 Pa.
/// A sustained or occasional stress has the pressure, in Pa, and its indices are reduced.
/// `Wide` where an operation leaves the limit of intervals.
#[tactic(auto, unfolding(crate::specs::Station::station_stress_of))]
pub fn station_stress(f: [Iv; 6], s: &StationData, sustained: Option<i64>) -> Result<Iv, IvFault>
    requires station { StationInForm s.now }
    requires pressure { IfSome sustained IsPressure }
    ensures value { result ≡ station_stress_of f s.now sustained }
    ensures encloses { IfOk result (λ e. (x : ExactStation) → EnclosesStation f s.now x →
        EnclosesStress (direct_stress x s.now.section sustained) (bending_stress_square x (is_some sustained)) (torsion_stress x) e) }
    ensures from_zero { IfOk result (λ e. pos 0 ≤ℤ e.lo) }
{
    let moment = moment_vector(&f);
    let direct = direct_stress(&force_vector(&f), s, sustained)?;
    let bending = bending_stress_square(&moment, s, sustained.is_some())?;
    let torsion = about(&moment, &s.tangent, s.section.modulus)?;
    combined(direct, bending, torsion)
}

/// The axial stress, with that of the pressure.
#[tactic(auto, unfolding(crate::specs::Station::direct_stress_of))]
fn direct_stress(force: &[Iv; 3], s: &StationData, sustained: Option<i64>) -> Result<Iv, IvFault>
    requires station { StationInForm s.now }
    requires pressure { IfSome sustained IsPressure }
    ensures value { result ≡ direct_stress_of force.now s.now sustained }
    ensures within { IfOk result (λ e. (x : ExactStation) → EnclosesVector force.now x.force → EnclosesVector s.now.tangent x.tangent → Within s.now.section.area x.area →
        Within e (direct_stress x s.now.section sustained)) }
    ensures from_zero { IfOk result (λ e. pos 0 ≤ℤ e.lo) }
{
    let along = inner_product(force, &s.tangent)?;
    let stress = axial(along, s.section.area)?;
    with_pressure(stress, &s.section, sustained)
}

/// The square of the bending stress.
fn bending_stress_square(moment: &[Iv; 3], s: &StationData, sustained: bool) -> Result<Iv, IvFault>
    requires { StationInForm s.now }
    ensures value { result ≡ bending_stress_square_of moment.now s.now sustained }
    ensures within { IfOk result (λ e. (x : ExactStation) → EnclosesVector moment.now x.moment → EnclosesVector s.now.tangent x.tangent → EnclosesNormal s.now.normal x.normal →
        Within s.now.section.modulus x.modulus → Within s.now.bending x.bending → Within s.now.ii x.ii → Within s.now.io x.io → Within e (bending_stress_square x sustained)) }
    ensures from_zero { IfOk result (λ e. pos 0 ≤ℤ e.lo) }
{
    match &s.normal {
        Some(normal) => plane_square(moment, normal, s, sustained),
        None => straight_square(moment, &s.tangent, s.section.modulus),
    }
}

/// The square of the bending stress at a bend or tee.
#[tactic(auto, unfolding(crate::specs::Station::plane_square_of, crate::specs::Station::plane_square))]
fn plane_square(
    moment: &[Iv; 3],
    normal: &[Iv; 3],
    s: &StationData,
    sustained: bool,
) -> Result<Iv, IvFault>
    requires { StationInForm s.now }
    ensures value { result ≡ plane_square_of moment.now normal.now s.now sustained }
    ensures within { IfOk result (λ e. (x : ExactStation) (n : Exact) → EnclosesVector moment.now x.moment → EnclosesVector s.now.tangent x.tangent → EnclosesVector normal.now n →
        Within s.now.bending x.bending → Within s.now.ii x.ii → Within s.now.io x.io → Within e (plane_square x n sustained)) }
    ensures from_zero { IfOk result (λ e. pos 0 ≤ℤ e.lo) }
{
    let inside = in_plane(moment, normal, s.ii, s.bending, sustained)?;
    let outside = out_of_plane(moment, normal, &s.tangent, s.io, s.bending, sustained)?;
    sum(inside, outside)
}
