ghost use Rattle.std.specs.Prelude.{◌≡◌, Ok, ◌*◌, ◌^◌, ℤ, pos, ◌*ℤ◌, ◌≤ℤ◌, ◌<ℤ◌};
ghost use Rattle.flex_interval.specs.Fraction.{Fraction, Within, whole, plus, scaled};
ghost use Rattle.flex_interval.specs.Operations.{mul_of};
ghost use Rattle.sif_factors.specs.Parts.{fraction, in_parts, reciprocal, multiplied, squared, cubed};
ghost use Rattle.sif_factors.specs.Inverse.{InverseInRange};
ghost use Rattle.sif_factors.specs.Index.{EnclosesIndex};
ghost use Rattle.sif_factors.specs.Rounded.{inverse_of, inverse_square_of, cube_of, padded_of, index_of, in_plane_index_of, flexibility_factor_of};
ghost use Rattle.sif_factors.specs.Factors.{IsFactor, flexibility_factor};

use flex_interval::{Iv, max, point, share, small_cbrt, small_product, small_sum};

/// The inverse of a flexibility characteristic, as a fraction.
#[derive(Clone, Copy)]
pub struct Inverse {
    pub num: i128,
    pub den: i128,
}

/// `1/h`, in units of 2^-40.
#[tactic(auto, unfolding(crate::specs::Rounded::inverse_of))]
fn rounded_inverse(i: &Inverse) -> Iv
    requires { InverseInRange i.now }
    ensures value { inverse_of i.now.num i.now.den ≡ Ok result }
    ensures within { Within result (in_parts (fraction i.now.num i.now.den) 40) }
    ensures lo { pos 0 ≤ℤ result.lo }
    ensures hi { (c : ℤ) → i.now.num ≤ℤ (c *ℤ i.now.den) → result.hi ≤ℤ (c *ℤ pos (2 ^ 40)) }
{
    share(point(i.num), 1 << 40, i.den)
}

/// A product, all in units of 2^-40.
fn times(a: Iv, b: Iv) -> Iv
    requires a_lo { pos 0 ≤ℤ a.lo }
    requires b_lo { pos 0 ≤ℤ b.lo }
    requires small { (a.hi *ℤ b.hi) <ℤ pos (2 ^ 126) }
    ensures value { mul_of a b 40 ≡ Ok result }
    ensures within { (x y : Fraction) → Within a (in_parts x 40) → Within b (in_parts y 40) → Within result (in_parts (multiplied x y) 40) }
    ensures lo { pos 0 ≤ℤ result.lo }
    ensures hi { (c : ℤ) → (a.hi *ℤ b.hi) ≤ℤ (c *ℤ pos (2 ^ 40)) → result.hi ≤ℤ c }
{
    small_product(a, b, 40)
}

/// `1/h^2`, in units of 2^-40.
#[tactic(auto, unfolding(crate::specs::Rounded::inverse_square_of))]
pub fn inverse_square(i: &Inverse) -> Iv
    requires { InverseInRange i.now }
    ensures value { inverse_square_of i.now.num i.now.den ≡ Ok result }
    ensures within { Within result (in_parts (squared (fraction i.now.num i.now.den)) 40) }
    ensures lo { pos 0 ≤ℤ result.lo }
    ensures hi { result.hi ≤ℤ pos (10 ^ 10 * 2 ^ 40) }
{
    let x = rounded_inverse(i);
    prove!(x.lo <= x.hi);
    times(x, x)
}

/// `x^3`, in units of 2^-40, for an x of at most 1.
#[tactic(auto, unfolding(crate::specs::Rounded::cube_of))]
fn cube(x: Iv) -> Iv
    requires lo { pos 0 ≤ℤ x.lo }
    requires hi { x.hi ≤ℤ pos (2 ^ 40) }
    ensures value { cube_of x ≡ Ok result }
    ensures within { (t : Fraction) → Within x (in_parts t 40) → Within result (in_parts (cubed t) 40) }
    ensures lo { pos 0 ≤ℤ result.lo }
    ensures hi { result.hi ≤ℤ pos (2 ^ 40) }
{
    prove!(x.lo <= x.hi);
    times(times(x, x), x)
}

/// `x^3 y^2`, in units of 2^-40.
#[tactic(auto, unfolding(crate::specs::Rounded::padded_of))]
pub fn padded(x: &Inverse, y: &Inverse) -> Iv
    requires x { InverseInRange x.now }
    requires y { InverseInRange y.now }
    requires thin { x.now.num ≤ℤ (pos 1 *ℤ x.now.den) }
    ensures value { padded_of x.now.num x.now.den y.now.num y.now.den ≡ Ok result }
    ensures within { Within result (in_parts (multiplied (cubed (fraction x.now.num x.now.den)) (squared (fraction y.now.num y.now.den))) 40) }
    ensures lo { pos 0 ≤ℤ result.lo }
    ensures hi { result.hi ≤ℤ pos (10 ^ 10 * 2 ^ 40) }
{
    let wall = rounded_inverse(x);
    let square = inverse_square(y);
    prove!(square.lo <= square.hi);
    times(cube(wall), square)
}

/// The index `max(1, c / h^(2/3))` in units of 2^-30, from `1/h^2` in units of 2^-40, where `c^3` is `n / m`.
#[tactic(auto, unfolding(crate::specs::Rounded::index_of))]
pub fn index(v: Iv, n: i128, m: i128) -> Iv
    requires lo { pos 0 ≤ℤ v.lo }
    requires hi { v.hi ≤ℤ pos (10 ^ 10 * 2 ^ 40) }
    requires numerator { pos 0 ≤ℤ n }
    requires fraction { n ≤ℤ m }
    requires denominator { pos 0 <ℤ m }
    requires size { m ≤ℤ pos 1000 }
    ensures value { index_of v n m ≡ Ok result }
    ensures encloses { (square : Fraction) → Within v (in_parts (reciprocal square) 40) → EnclosesIndex (record { num = n; den = m }) square result }
    ensures from_one { pos (2 ^ 30) ≤ℤ result.lo }
    ensures hi { result.hi ≤ℤ pos (2 ^ 42) }
{
    let cube = share(v, n, m);
    let root = small_cbrt(cube, 50);
    max(root, point(1 << 30))
}

/// The index in plane of a tee, three quarters of that out of plane and one quarter, in units of 2^-30.
#[tactic(auto, unfolding(crate::specs::Rounded::in_plane_index_of))]
pub fn in_plane(io: Iv) -> Iv
    requires from_one { pos (2 ^ 30) ≤ℤ io.lo }
    requires hi { io.hi ≤ℤ pos (2 ^ 42) }
    ensures value { in_plane_index_of io ≡ Ok result }
    ensures within { (i : Fraction) → Within io i → Within result (plus (scaled i (pos 3) (pos 4)) (whole (pos (2 ^ 28)))) }
    ensures size { IsFactor result }
    ensures from_one { pos (2 ^ 30) ≤ℤ result.lo }
{
    prove!(io.lo <= io.hi);
    small_sum(share(io, 3, 4), point(1 << 28))
}

/// `max(1, 1.65/h)`, in units of 2^-56.
#[tactic(auto, unfolding(crate::specs::Rounded::flexibility_factor_of))]
pub fn bend_flexibility(i: &Inverse) -> Iv
    requires { InverseInRange i.now }
    ensures value { flexibility_factor_of i.now.num i.now.den ≡ Ok result }
    ensures within { Within result (flexibility_factor (fraction i.now.den i.now.num)) }
    ensures size { IsFactor result }
{
    let k = share(point(165 * i.num), 1 << 56, 100 * i.den);
    max(k, point(1 << 56))
}
