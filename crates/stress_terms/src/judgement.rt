ghost use Rattle.std.specs.Prelude.{◌≡◌};
ghost use Rattle.flex_interval.specs.Fraction.{Fraction, Within};
ghost use Rattle.flex_interval.specs.Roots.{IsNonnegative};
ghost use Rattle.stress_terms.specs.Combined.{EnclosesStress};
ghost use Rattle.stress_terms.specs.declared.judgement.Verdict.TheVariants.{Pass, Fail};
ghost use Rattle.stress_terms.specs.Judgement.{verdict_of, IsStressAtMost, IsStressAbove};

use flex_interval::Iv;

/// Whether a stress keeps its allowable.
#[derive(Clone, Copy, Debug, PartialEq, Eq)]
pub enum Verdict {
    /// The stress is at most its allowable.
    Pass,
    /// The stress is over its allowable.
    Fail,
    /// The enclosures of the two overlap.
    Undecided,
}

/// The verdict on a stress by its enclosure and that of its allowable.
pub fn verdict_on(stress: Iv, allowable: Iv) -> Verdict
    ensures value { result ≡ verdict_of stress allowable }
    ensures pass { result ≡ Pass → (a q t y : Fraction) → EnclosesStress a q t stress → Within allowable y → IsStressAtMost a q t y }
    ensures fail { result ≡ Fail → (a q t y : Fraction) → EnclosesStress a q t stress → Within allowable y → IsNonnegative y → IsStressAbove a q t y }
{
    prove!(stress.lo <= stress.hi);
    if stress.hi <= allowable.lo {
        Verdict::Pass
    } else if allowable.hi < stress.lo {
        Verdict::Fail
    } else {
        Verdict::Undecided
    }
}
