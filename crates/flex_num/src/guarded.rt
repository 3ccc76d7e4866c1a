ghost use Rattle.std.specs.Prelude.{◌≡◌, ◌+◌, ◌^◌, ◌<◌, ◌≤◌, pos, ◌+ℤ◌, ◌-ℤ◌, ◌*ℤ◌, unsigned_abs, MatchOption};

/// The sizes of the terms of a guarded sum come to less than this.
pub const GUARD: u128 = 1 << 126;

/// A sum of whole numbers and the sum of the sizes of its terms, which is below 2^126: no sum of some of the terms leaves
/// `i128`, in whichever order they are taken.
#[derive(Clone, Copy)]
pub struct GuardedSum {
    pub value: i128,
    pub size: u128,
    ghost bounded: { unsigned_abs value ≤ size },
    ghost narrow: { size < 2 ^ 126 },
}

impl GuardedSum {
    /// No term.
    pub const ZERO: GuardedSum = GuardedSum { value: 0, size: 0 };

    /// A term alone.
    pub fn of(term: i128) -> GuardedSum
        requires { unsigned_abs term < 2 ^ 126 }
        ensures value { result.value ≡ term }
        ensures size { result.size ≡ unsigned_abs term }
    {
        GuardedSum {
            value: term,
            size: term.unsigned_abs(),
        }
    }

    /// With a term more; `None` where the sizes reach 2^126.
    pub fn plus(self, term: i128) -> Option<GuardedSum>
        ensures { MatchOption result (2 ^ 126 ≤ self.size + unsigned_abs term)
            (λ s. (s.value ≡ self.value +ℤ term) × (s.size ≡ self.size + unsigned_abs term)) }
    {
        let size = self.size + term.unsigned_abs();
        if size >= GUARD {
            return None;
        }
        Some(GuardedSum {
            value: self.value + term,
            size,
        })
    }

    /// Less a term; `None` where the sizes reach 2^126.
    pub fn less(self, term: i128) -> Option<GuardedSum>
        ensures { MatchOption result (2 ^ 126 ≤ self.size + unsigned_abs term)
            (λ s. (s.value ≡ self.value -ℤ term) × (s.size ≡ self.size + unsigned_abs term)) }
    {
        let size = self.size + term.unsigned_abs();
        if size >= GUARD {
            return None;
        }
        Some(GuardedSum {
            value: self.value - term,
            size,
        })
    }

    /// A product alone; `None` where it reaches 2^126 in size.
    pub fn of_product(a: i128, b: i128) -> Option<GuardedSum>
        ensures { MatchOption result (2 ^ 126 ≤ unsigned_abs (a *ℤ b))
            (λ s. (s.value ≡ a *ℤ b) × (s.size ≡ unsigned_abs (a *ℤ b))) }
    {
        GuardedSum::ZERO.plus(crate::product::mul(a, b)?)
    }

    /// Less a product; `None` where the sizes reach 2^126.
    pub fn less_product(self, a: i128, b: i128) -> Option<GuardedSum>
        ensures { MatchOption result (2 ^ 126 ≤ self.size + unsigned_abs (a *ℤ b))
            (λ s. (s.value ≡ self.value -ℤ (a *ℤ b)) × (s.size ≡ self.size + unsigned_abs (a *ℤ b))) }
    {
        self.less(crate::product::mul(a, b)?)
    }

    /// The same sizes, with a value of 0.
    pub fn emptied(self) -> GuardedSum
        ensures value { result.value ≡ pos 0 }
        ensures size { result.size ≡ self.size }
    {
        GuardedSum {
            value: 0,
            size: self.size,
        }
    }
}
