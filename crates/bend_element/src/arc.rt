ghost use Rattle.std.specs.Prelude.{◌≡◌, ◌^◌, ◌<◌, pos, ◌*ℤ◌, ◌<ℤ◌, unsigned_abs};
ghost use Rattle.bend_element.specs.Arcs.{IsArc};

use flex_interval::Iv;

/// The arc of a bend.
#[derive(Clone, Copy)]
pub struct Arc {
    /// The radius R of its middle line, in micrometres.
    pub radius: i64,
    /// Half of its angle, and the sine and cosine of that, in units of 2^-56.
    pub a: Iv,
    pub sin: Iv,
    pub cos: Iv,
    /// The flexibility factor k, in units of 2^-56.
    pub k: Iv,
}

/// R, in micrometres.
pub fn radius(arc: &Arc) -> i128
    requires { IsArc arc.now }
    ensures { result ≡ arc.now.radius }
{
    i128::from(arc.radius)
}

/// R^2, in square micrometres.
pub fn radius_square(arc: &Arc) -> i128
    requires { IsArc arc.now }
    ensures value { result ≡ arc.now.radius *ℤ arc.now.radius }
    ensures small { unsigned_abs result < 2 ^ 126 }
{
    let radius = i128::from(arc.radius);
    radius * radius
}

/// 4 R in units of 2^-36 micrometre.
pub fn four_radii(arc: &Arc) -> i128
    requires { IsArc arc.now }
    ensures value { result ≡ pos (2 ^ 38) *ℤ arc.now.radius }
    ensures small { unsigned_abs result < 2 ^ 126 }
{
    (1 << 38) * i128::from(arc.radius)
}
