ghost use Rattle.std.specs.Prelude.{◌≡◌, ◌+◌, ◌^◌, ◌<◌, IsTrue, pos, neg_ℤ, ◌*ℤ◌, ◌≤ℤ◌, ◌<ℤ◌};
ghost use Rattle.std.specs.Int.RustNames.{unsigned_abs};
ghost use Rattle.int_laws.specs.Division.{nearest_of};

use flex_num::nearest_div;

// A factor entry is below this in size.
pub const LIMIT: i128 = 1 << 57;

// Half of 2^64.
const HALF: i128 = 1 << 63;

// What quotients by a pivot are guessed from: 2^(64 + shift) over the pivot, where 2^shift is at most a 16th of it.
#[derive(Clone, Copy)]
pub struct Inverse {
    shift: u32,
    factor: i128,
}

impl Inverse {
    // Of no pivot.
    pub fn none() -> Inverse {
        Inverse {
            shift: 0,
            factor: 0,
        }
    }

    // Of a pivot.
    pub fn new(pivot: i64) -> Inverse {
        let shift = 59u32.saturating_sub(pivot.leading_zeros());
        let power = (1i128 << 64).wrapping_shl(shift);
        Inverse {
            shift,
            factor: power.checked_div(pivot as i128).unwrap_or(0),
        }
    }

    // A guess at the nearest quotient, by one product. It may be any number.
    fn guess(self, left: i128) -> i128 {
        let product = left.wrapping_shr(self.shift).wrapping_mul(self.factor);
        product.wrapping_add(HALF).wrapping_shr(64)
    }
}

// The nearest quotient: a guess where that is right, and by division where it is not.
pub fn nearest_quotient(left: i128, pivot: i128, inverse: Inverse) -> i128
    requires positive { pos 1 ≤ℤ pivot }
    requires pivot_small { unsigned_abs pivot < 2 ^ 57 }
    requires left_small { unsigned_abs left < 2 ^ 126 + 2 ^ 117 }
    ensures { result ≡ nearest_of left pivot }
{
    let guess = inverse.guess(left);
    if is_nearest(left, pivot, guess) {
        guess
    } else {
        nearest_div(left, pivot)
    }
}

// Whether a number is the nearest quotient; false where it is too large for a factor.
fn is_nearest(left: i128, pivot: i128, guess: i128) -> bool
    requires positive { pos 1 ≤ℤ pivot }
    requires pivot_small { unsigned_abs pivot < 2 ^ 57 }
    requires left_small { unsigned_abs left < 2 ^ 126 + 2 ^ 117 }
    ensures { IsTrue result → guess ≡ nearest_of left pivot }
{
    if guess <= -LIMIT || LIMIT <= guess {
        return false;
    }
    is_rest(left - guess * pivot, pivot)
}

// Whether a number is what the nearest quotient leaves.
fn is_rest(rest: i128, pivot: i128) -> bool
    requires { unsigned_abs pivot < 2 ^ 57 }
    ensures below { IsTrue result → neg_ℤ pivot ≤ℤ (pos 2 *ℤ rest) }
    ensures above { IsTrue result → (pos 2 *ℤ rest) <ℤ pivot }
{
    -pivot <= rest && rest <= pivot && -pivot <= 2 * rest && 2 * rest < pivot
}
