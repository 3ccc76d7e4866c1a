ghost use Rattle.std.specs.Prelude.{◌≡◌, pos, ◌≤ℤ◌, ◌<ℤ◌, IfOk};
ghost use Rattle.flex_interval.specs.Fraction.{Fraction, Within};
ghost use Rattle.stress_terms.specs.Terms.{stress_of, axial_stress_of, bending_of, intensified_of, stress, axial, bending, intensified};

use crate::sizes::{product, size};
use flex_interval::{Iv, IvFault, div, ratio};

/// Square micrometres in a square metre.
const AREA_UNIT: i128 = 1_000_000_000_000;

/// Cubic micrometres in a cubic metre.
const MODULUS_UNIT: i128 = 1_000_000_000_000_000_000;

/// A force over an area, in units of 2^-16 Pa: the force in 2^-40 N, the area in 2^-16 square micrometre and above 0.
#[tactic(auto, unfolding(crate::specs::Terms::axial_stress_of, crate::specs::Terms::axial))]
pub fn axial(force: Iv, area: Iv) -> Result<Iv, IvFault>
    requires { pos 0 <ℤ area.lo }
    ensures value { result ≡ axial_stress_of force area }
    ensures within { IfOk result (λ e. (f a : Fraction) → Within force f → Within area a → Within e (axial f a)) }
    ensures from_zero { IfOk result (λ e. pos 0 ≤ℤ e.lo) }
{
    stress(size(force), AREA_UNIT, area)
}

/// A moment over a section modulus, in units of 2^-16 Pa: the moment in 2^-40 N m, the modulus in 2^-16 cubic micrometre and above 0.
#[tactic(auto, unfolding(crate::specs::Terms::bending_of, crate::specs::Terms::bending))]
pub fn bending(moment: Iv, modulus: Iv) -> Result<Iv, IvFault>
    requires { pos 0 <ℤ modulus.lo }
    ensures value { result ≡ bending_of moment modulus }
    ensures within { IfOk result (λ e. (m z : Fraction) → Within moment m → Within modulus z → Within e (bending m z)) }
    ensures from_zero { IfOk result (λ e. pos 0 ≤ℤ e.lo) }
{
    stress(size(moment), MODULUS_UNIT, modulus)
}

/// The same with a stress intensification index, in units of 2^-30.
#[tactic(auto, unfolding(crate::specs::Terms::intensified_of, crate::specs::Terms::intensified))]
pub fn intensified(moment: Iv, index: Iv, modulus: Iv) -> Result<Iv, IvFault>
    requires index { pos 0 ≤ℤ index.lo }
    requires modulus { pos 0 <ℤ modulus.lo }
    ensures value { result ≡ intensified_of moment index modulus }
    ensures within { IfOk result (λ e. (m i z : Fraction) → Within moment m → Within index i → Within modulus z → Within e (intensified m i z)) }
    ensures from_zero { IfOk result (λ e. pos 0 ≤ℤ e.lo) }
{
    let greater = product(size(moment), index, 30)?;
    stress(greater, MODULUS_UNIT, modulus)
}

/// A load over a section property, which stands in the unit of so many to one of the load's.
#[tactic(auto, unfolding(crate::specs::Terms::stress_of, crate::specs::Terms::stress))]
fn stress(load: Iv, unit: i128, property: Iv) -> Result<Iv, IvFault>
    requires load { pos 0 ≤ℤ load.lo }
    requires unit { pos 0 ≤ℤ unit }
    requires property { pos 0 <ℤ property.lo }
    ensures value { result ≡ stress_of load unit property }
    ensures within { IfOk result (λ e. (l p : Fraction) → Within load l → Within property p → Within e (stress l unit p)) }
    ensures from_zero { IfOk result (λ e. pos 0 ≤ℤ e.lo) }
{
    prove!(load.lo <= load.hi);
    prove!(property.lo <= property.hi);
    let whole = ratio(load, unit, 256)?;
    prove!(whole.lo <= whole.hi);
    div(whole, property, 0)
}
