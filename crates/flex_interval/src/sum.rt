ghost use Rattle.std.specs.Prelude.{◌≡◌, ◌^◌, ◌<◌, unsigned_abs, IfOk};
ghost use Rattle.flex_interval.specs.Fraction.{Fraction, Within, plus, minus, negated};
ghost use Rattle.flex_interval.specs.Operations.{small_of, neg_of, add_of, sub_of};

use crate::fault::IvFault;
use crate::interval::Iv;

const LIMIT: i128 = 1 << 126;

/// `-a`.
#[tactic(auto, unfolding(crate::specs::Operations::neg_of, crate::specs::Fraction::negated))]
pub fn neg(a: Iv) -> Iv
    ensures value { result ≡ neg_of a }
    ensures within { (x : Fraction) → Within a x → Within result (negated x) }
{
    Iv {
        lo: -a.hi,
        hi: -a.lo,
    }
}

/// `a + b`. `Wide` where an end reaches 2^126 in size.
#[tactic(auto, unfolding(crate::specs::Operations::add_of))]
pub fn add(a: Iv, b: Iv) -> Result<Iv, IvFault>
    ensures value { result ≡ add_of a b }
    ensures within { IfOk result (λ e. (x y : Fraction) → Within a x → Within b y → Within e (plus x y)) }
{
    let lo = small(a.lo + b.lo)?;
    let hi = small(a.hi + b.hi)?;
    Ok(Iv { lo, hi })
}

/// `a - b`. `Wide` where an end reaches 2^126 in size.
#[tactic(auto, unfolding(crate::specs::Operations::sub_of, crate::specs::Operations::add_of, crate::specs::Operations::neg_of, crate::specs::Fraction::minus))]
pub fn sub(a: Iv, b: Iv) -> Result<Iv, IvFault>
    ensures value { result ≡ sub_of a b }
    ensures within { IfOk result (λ e. (x y : Fraction) → Within a x → Within b y → Within e (minus x y)) }
{
    add(a, neg(b))
}

/// `x`, or `Wide` where it reaches 2^126 in size.
pub(crate) fn small(x: i128) -> Result<i128, IvFault>
    ensures value { result ≡ small_of x }
    ensures same { IfOk result (λ r. r ≡ x) }
    ensures small { IfOk result (λ r. unsigned_abs r < 2 ^ 126) }
{
    if -LIMIT < x && x < LIMIT {
        Ok(x)
    } else {
        Err(IvFault::Wide)
    }
}
