ghost use Rattle.std.specs.Prelude.{◌≡◌, pos, ◌<ℤ◌};
ghost use Rattle.model_types.specs.Ranges.{MaterialInForm};
ghost use Rattle.section_data.specs.Tube.{IsTube};
ghost use Rattle.member_pairs.specs.Tubes.{tube_of, IsRoundTube, tube_load, divisor_of};

use model_types::{Material, Section};
use section_data::section;

/// The numbers that a pipe's stiffness comes from, of outside diameter D and inside diameter d, with the full wall.
#[derive(Clone, Copy)]
pub struct Tube {
    /// Young's modulus E, in MPa.
    pub modulus: i64,
    /// Poisson's ratio, in thousandths.
    pub poisson_ratio: i64,
    /// D^2 - d^2, in square micrometres.
    pub square_difference: i128,
    /// D^2 + d^2, in square micrometres.
    pub square_sum: i128,
}

/// The tube of a section and its material.
pub fn round_tube(s: &Section, m: &Material) -> Tube
    requires tube { IsTube s.now }
    requires material { MaterialInForm m.now }
    ensures value { result ≡ tube_of s.now m.now }
    ensures round { IsRoundTube result }
{
    let values = section(s, m, false);
    Tube {
        modulus: m.e,
        poisson_ratio: m.nu,
        square_difference: values.x,
        square_sum: values.y,
    }
}

/// E (D^2 - d^2), in N.
pub fn load(tube: &Tube) -> i128
    requires { IsRoundTube tube.now }
    ensures { result ≡ tube_load tube.now }
{
    i128::from(tube.modulus) * tube.square_difference
}

/// 1 + nu, in thousandths.
pub fn divisor(tube: &Tube) -> i128
    requires { IsRoundTube tube.now }
    ensures value { result ≡ divisor_of tube.now }
    ensures positive { pos 0 <ℤ result }
{
    1000 + i128::from(tube.poisson_ratio)
}
