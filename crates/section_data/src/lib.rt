//! Section values of a pipe: area, section modulus and weight, enclosed.
#![tactic(auto)]

ghost use Rattle.std.specs.Prelude.{◌≡◌, ◌^◌, Ok, Bool, false, pos, ◌*ℤ◌, ◌<ℤ◌};
ghost use Rattle.flex_interval.specs.Fraction.{Fraction, Within};
ghost use Rattle.flex_interval.specs.Operations.{ratio_of};
ghost use Rattle.lists.specs.Results.{and_then};
ghost use Rattle.angle_table.specs.Pi.{pi_ends};
ghost use Rattle.model_types.specs.Ranges.{MaterialInForm};
ghost use Rattle.section_data.specs.Tube.{IsTube, difference_of_squares, square_sum, weight_of, EnclosesTube};
ghost use Rattle.section_data.specs.Values.{values_of};

use flex_interval::Iv;
use model_types::{Material, Section};

mod tube;

/// The section values of a pipe of outside diameter D and inside diameter d.
#[derive(Clone, Copy)]
pub struct SectionIv {
    /// D^2 - d^2, in square micrometres.
    pub x: i128,
    /// D^2 + d^2, in square micrometres.
    pub y: i128,
    /// The area of the wall, in units of 2^-16 square micrometre.
    pub area: Iv,
    /// The section modulus, in units of 2^-16 cubic micrometre.
    pub modulus: Iv,
    /// The weight of the full wall, of contents and of insulation at standard gravity, in units of 2^-40 N/m.
    pub weight: Iv,
}

/// The section values of a pipe of this section and material. `reduced` takes the wall less its allowance, but for the weight.
pub fn section(s: &Section, m: &Material, reduced: bool) -> SectionIv
    requires tube { IsTube s.now }
    requires material { MaterialInForm m.now }

    ensures x { result.x ≡ difference_of_squares s.now reduced }
    ensures y { result.y ≡ square_sum s.now reduced }

    ensures area { ratio_of pi_ends (difference_of_squares s.now reduced) (pos (2 ^ 42)) ≡ Ok result.area }
    ensures modulus { ratio_of result.area (square_sum s.now reduced) (pos 8 *ℤ s.now.d) ≡ Ok result.modulus }
    ensures weight { and_then (ratio_of pi_ends (difference_of_squares s.now false) (pos (2 ^ 42))) (λ area. weight_of area s.now m.now) ≡ Ok result.weight }

    ensures values { values_of s.now m.now reduced ≡ Ok result }

    ensures wall_from_zero { pos 0 <ℤ result.x }
    ensures area_from_zero { pos 0 <ℤ result.area.lo }
    ensures modulus_from_zero { pos 0 <ℤ result.modulus.lo }

    ensures encloses { (pi : Fraction) → Within pi_ends pi → EnclosesTube result s.now m.now reduced pi }
{
    let inside = tube::inside_diameter(s, reduced);
    let x = tube::square_difference(s.d, inside);
    let y = tube::square_sum(s.d, inside);
    let area = tube::area(x);
    SectionIv {
        x,
        y,
        area,
        modulus: tube::modulus(area, y, s.d),
        weight: tube::weight(tube::full_area(s), s, m),
    }
}
