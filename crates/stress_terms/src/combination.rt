ghost use Rattle.std.specs.Prelude.{◌≡◌, pos, ◌≤ℤ◌, IfOk};
ghost use Rattle.flex_interval.specs.Fraction.{Fraction, Within};
ghost use Rattle.stress_terms.specs.Combined.{combined_of, EnclosesStress};

use crate::sizes::{squared, sum};
use flex_interval::{Iv, IvFault, root};

/// The stress of a station, `sqrt((|Sa| + Sb)^2 + 4 St^2)`, from `|Sa|`, `Sb^2` and `2 |St|`, each from 0 on.
#[tactic(auto, unfolding(crate::specs::Combined::combined_of))]
pub fn combined(axial: Iv, bending_square: Iv, torsion: Iv) -> Result<Iv, IvFault>
    requires axial { pos 0 ≤ℤ axial.lo }
    requires bending { pos 0 ≤ℤ bending_square.lo }
    requires torsion { pos 0 ≤ℤ torsion.lo }
    ensures value { result ≡ combined_of axial bending_square torsion }
    ensures encloses { IfOk result (λ e. (a q t : Fraction) → Within axial a → Within bending_square q → Within torsion t → EnclosesStress a q t e) }
    ensures from_zero { IfOk result (λ e. pos 0 ≤ℤ e.lo) }
{
    let bending = root(bending_square, 0)?;
    let direct = sum(axial, bending)?;
    let normal = squared(direct)?;
    let shear = squared(torsion)?;
    let total = sum(normal, shear)?;
    root(total, 0)
}
