ghost use Rattle.std.specs.Prelude.{◌≡◌, IfOk};
ghost use Rattle.flex_interval.specs.Fraction.{Fraction, Within, times, minus};
ghost use Rattle.member_pairs.specs.Axes.{x_axis, y_axis, z_axis};
ghost use Rattle.member_pairs.specs.Vectors.{Exact, no_vector, opposite, crossed, zero_vector, negative_of, crossed_of, cross, stretched, total, difference, product_difference_of, cross_of, stretched_of, total_of, difference_of, EnclosesVector};

use flex_interval::{Iv, IvFault, add, mul, neg, point, sub};

/// The zero vector.
pub fn zero() -> [Iv; 3]
    ensures value { result ≡ zero_vector }
    ensures within { EnclosesVector result no_vector }
{
    [point(0), point(0), point(0)]
}

/// `-v`.
pub fn negative(v: &[Iv; 3]) -> [Iv; 3]
    ensures value { result ≡ negative_of v.now }
    ensures within { (x : Exact) → EnclosesVector v.now x → EnclosesVector result (opposite x) }
{
    let [x, y, z] = *v;
    [neg(x), neg(y), neg(z)]
}

/// The cross product of `t` with the x axis.
pub fn crossed_x(t: &[Iv; 3]) -> [Iv; 3]
    ensures value { result ≡ crossed_of t.now x_axis }
    ensures within { (x : Exact) → EnclosesVector t.now x → EnclosesVector result (crossed x x_axis) }
{
    let [_, y, z] = *t;
    [point(0), z, neg(y)]
}

/// The cross product of `t` with the y axis.
pub fn crossed_y(t: &[Iv; 3]) -> [Iv; 3]
    ensures value { result ≡ crossed_of t.now y_axis }
    ensures within { (x : Exact) → EnclosesVector t.now x → EnclosesVector result (crossed x y_axis) }
{
    let [x, _, z] = *t;
    [neg(z), point(0), x]
}

/// The cross product of `t` with the z axis.
pub fn crossed_z(t: &[Iv; 3]) -> [Iv; 3]
    ensures value { result ≡ crossed_of t.now z_axis }
    ensures within { (x : Exact) → EnclosesVector t.now x → EnclosesVector result (crossed x z_axis) }
{
    let [x, y, _] = *t;
    [y, neg(x), point(0)]
}

/// The cross product, in units of 2^-56 for factors in units of 2^-56.
#[tactic(auto, unfolding(crate::specs::Vectors::cross_of))]
pub fn cross(u: &[Iv; 3], v: &[Iv; 3]) -> Result<[Iv; 3], IvFault>
    ensures value { result ≡ cross_of u.now v.now }
    ensures within { IfOk result (λ w. (x y : Exact) → EnclosesVector u.now x → EnclosesVector v.now y → EnclosesVector w (cross x y)) }
{
    let [u_x, u_y, u_z] = *u;
    let [v_x, v_y, v_z] = *v;
    let x = product_difference(u_y, v_z, u_z, v_y)?;
    let y = product_difference(u_z, v_x, u_x, v_z)?;
    let z = product_difference(u_x, v_y, u_y, v_x)?;
    Ok([x, y, z])
}

/// `a b - c d`.
#[tactic(auto, unfolding(crate::specs::Vectors::product_difference_of))]
fn product_difference(a: Iv, b: Iv, c: Iv, d: Iv) -> Result<Iv, IvFault>
    ensures value { result ≡ product_difference_of a b c d }
    ensures within { IfOk result (λ e. (p q r s : Fraction) → Within a p → Within b q → Within c r → Within d s → Within e (minus (times p q 56) (times r s 56))) }
{
    let first = mul(a, b, 56)?;
    let second = mul(c, d, 56)?;
    sub(first, second)
}

/// `x v`, in units of 2^-56 for factors in units of 2^-56.
#[tactic(auto, unfolding(crate::specs::Vectors::stretched_of))]
pub fn stretched(x: Iv, v: &[Iv; 3]) -> Result<[Iv; 3], IvFault>
    ensures value { result ≡ stretched_of x v.now }
    ensures within { IfOk result (λ w. (p : Fraction) (y : Exact) → Within x p → EnclosesVector v.now y → EnclosesVector w (stretched p y)) }
{
    let [v_x, v_y, v_z] = *v;
    let a = mul(x, v_x, 56)?;
    let b = mul(x, v_y, 56)?;
    let c = mul(x, v_z, 56)?;
    Ok([a, b, c])
}

/// `u + v`.
#[tactic(auto, unfolding(crate::specs::Vectors::total_of))]
pub fn total(u: &[Iv; 3], v: &[Iv; 3]) -> Result<[Iv; 3], IvFault>
    ensures value { result ≡ total_of u.now v.now }
    ensures within { IfOk result (λ w. (x y : Exact) → EnclosesVector u.now x → EnclosesVector v.now y → EnclosesVector w (total x y)) }
{
    let [u_x, u_y, u_z] = *u;
    let [v_x, v_y, v_z] = *v;
    let x = add(u_x, v_x)?;
    let y = add(u_y, v_y)?;
    let z = add(u_z, v_z)?;
    Ok([x, y, z])
}

/// `u - v`.
#[tactic(auto, unfolding(crate::specs::Vectors::difference_of))]
pub fn difference(u: &[Iv; 3], v: &[Iv; 3]) -> Result<[Iv; 3], IvFault>
    ensures value { result ≡ difference_of u.now v.now }
    ensures within { IfOk result (λ w. (x y : Exact) → EnclosesVector u.now x → EnclosesVector v.now y → EnclosesVector w (difference x y)) }
{
    let [u_x, u_y, u_z] = *u;
    let [v_x, v_y, v_z] = *v;
    let x = sub(u_x, v_x)?;
    let y = sub(u_y, v_y)?;
    let z = sub(u_z, v_z)?;
    Ok([x, y, z])
}
