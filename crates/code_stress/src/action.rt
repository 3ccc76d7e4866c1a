ghost use Rattle.std.specs.Prelude.{◌≡◌, IfOk};
ghost use Rattle.flex_interval.specs.Fraction.{Fraction, Within};
ghost use Rattle.member_pairs.specs.Vectors.{Exact, EnclosesVector};
ghost use Rattle.code_stress.specs.Action.{force_vector_of, moment_vector_of, EnclosesForce, EnclosesMoment, inner_product, inner_product_of};

use flex_interval::{Iv, IvFault, add, mul};

/// The force of a station's force and moment.
pub fn force_vector(f: &[Iv; 6]) -> [Iv; 3]
    ensures value { result ≡ force_vector_of f.now }
    ensures within { (x : Exact) → EnclosesForce f.now x → EnclosesVector result x }
{
    let [x, y, z, _, _, _] = *f;
    [x, y, z]
}

/// The moment of a station's force and moment.
pub fn moment_vector(f: &[Iv; 6]) -> [Iv; 3]
    ensures value { result ≡ moment_vector_of f.now }
    ensures within { (x : Exact) → EnclosesMoment f.now x → EnclosesVector result x }
{
    let [_, _, _, x, y, z] = *f;
    [x, y, z]
}

/// The scalar product, in the unit of `u` for a `v` in units of 2^-56.
#[tactic(auto, unfolding(crate::specs::Action::inner_product_of, crate::specs::Action::inner_product))]
pub fn inner_product(u: &[Iv; 3], v: &[Iv; 3]) -> Result<Iv, IvFault>
    ensures value { result ≡ inner_product_of u.now v.now }
    ensures within { IfOk result (λ e. (x y : Exact) → EnclosesVector u.now x → EnclosesVector v.now y → Within e (inner_product x y)) }
{
    let [u_x, u_y, u_z] = *u;
    let [v_x, v_y, v_z] = *v;
    let x = mul(u_x, v_x, 56)?;
    let y = mul(u_y, v_y, 56)?;
    let z = mul(u_z, v_z, 56)?;
    let first = add(x, y)?;
    add(first, z)
}
