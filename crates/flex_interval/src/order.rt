ghost use Rattle.std.specs.Prelude.{◌≡◌};
ghost use Rattle.flex_interval.specs.Fraction.{Fraction, Within, magnitude, greater, lesser};
ghost use Rattle.flex_interval.specs.Operations.{holds_zero, abs_of, max_of, min_of};

use crate::interval::Iv;
use crate::sum::neg;

/// The interval of sizes; from 0 where `a` holds 0.
#[tactic(auto, unfolding(crate::specs::Operations::abs_of))]
pub fn abs(a: Iv) -> Iv
    ensures value { result ≡ abs_of a }
    ensures within { (x : Fraction) → Within a x → Within result (magnitude x) }
{
    if holds_zero(a) {
        Iv {
            lo: 0,
            hi: (-a.lo).max(a.hi),
        }
    } else if 0 < a.lo {
        a
    } else {
        neg(a)
    }
}

/// The greater of both, end by end.
#[tactic(auto, unfolding(crate::specs::Operations::max_of))]
pub fn max(a: Iv, b: Iv) -> Iv
    ensures value { result ≡ max_of a b }
    ensures within { (x y : Fraction) → Within a x → Within b y → Within result (greater x y) }
{
    Iv {
        lo: a.lo.max(b.lo),
        hi: a.hi.max(b.hi),
    }
}

/// The lesser of both, end by end.
#[tactic(auto, unfolding(crate::specs::Operations::min_of))]
pub fn min(a: Iv, b: Iv) -> Iv
    ensures value { result ≡ min_of a b }
    ensures within { (x y : Fraction) → Within a x → Within b y → Within result (lesser x y) }
{
    Iv {
        lo: a.lo.min(b.lo),
        hi: a.hi.min(b.hi),
    }
}

pub(crate) fn holds_zero(a: Iv) -> bool
    ensures { result ≡ holds_zero a }
{
    a.lo <= 0 && 0 <= a.hi
}
