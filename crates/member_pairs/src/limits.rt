ghost use Rattle.std.specs.Prelude.{◌≡◌};
ghost use Rattle.member_pairs.specs.Limits.{is_stiffness, is_shape_number, is_moderate};

use flex_interval::Iv;

/// Whether a stiffness is at least 1 and below 2^60, in units of 2^-20 N/m.
pub fn is_stiffness(kappa: Iv) -> bool
    ensures { result ≡ is_stiffness kappa }
{
    1 <= kappa.lo && kappa.hi < 1 << 60
}

/// Whether each part is at most 2^60 in size, in units of 2^-56.
pub fn is_moderate(v: &[Iv; 3]) -> bool
    ensures { result ≡ is_moderate v.now }
{
    let [x, y, z] = *v;
    is_shape_number(x) && is_shape_number(y) && is_shape_number(z)
}

fn is_shape_number(w: Iv) -> bool
    ensures { result ≡ is_shape_number w }
{
    -(1 << 60) <= w.lo && w.hi <= 1 << 60
}
