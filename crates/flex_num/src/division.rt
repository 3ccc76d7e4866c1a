ghost use Rattle.std.specs.Prelude.{◌≡◌, pos, ◌<ℤ◌};
ghost use Rattle.int_laws.specs.Division.{IsFloor, IsCeiling, IsNearest, floor_of, ceil_of, nearest_of};

/// `n / d` rounded down, for a positive `d`.
pub fn floor_div(n: i128, d: i128) -> i128
    requires { pos 0 <ℤ d }
    ensures meaning { IsFloor n d result }
    ensures value { result ≡ floor_of n d }
{
    n.div_euclid(d)
}

/// `n / d` rounded up, for a positive `d`.
pub fn ceil_div(n: i128, d: i128) -> i128
    requires { pos 0 <ℤ d }
    ensures meaning { IsCeiling n d result }
    ensures value { result ≡ ceil_of n d }
{
    let floor = n.div_euclid(d);
    if n.rem_euclid(d) == 0 {
        floor
    } else {
        floor + 1
    }
}

/// `n / d` rounded to the nearest, for a positive `d`. In the middle between two it is the upper one.
pub fn nearest_div(n: i128, d: i128) -> i128
    requires { pos 0 <ℤ d }
    ensures meaning { IsNearest n d result }
    ensures value { result ≡ nearest_of n d }
{
    // `2 * n + d` may not fit, so the remainder decides.
    let floor = n.div_euclid(d);
    let rest = n.rem_euclid(d);
    if rest < d - rest { floor } else { floor + 1 }
}
