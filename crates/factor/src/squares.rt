ghost use Rattle.std.specs.Prelude.{◌≡◌, ℕ, ◌+◌, ◌*◌, ◌^◌, ◌<◌, ◌≤◌, All, length, slice_index_or, MatchBool, pos};
ghost use Rattle.std.specs.Int.RustNames.{unsigned_abs};
ghost use Rattle.factor.specs.Panel.{AllSmall};
ghost use Rattle.factor.specs.Squares.{AddsSquares, HasWideSum};

use crate::dot::dot;

// The squares of a row, summed over a subtree, are below this.
const LIMIT: i128 = 1 << 113;

// Adds the squares of a node's own rows to those of its children; whether each row past the node stays narrow.
pub fn add_own(sums: &mut [i128], entries: &[i64]) -> bool
    requires whole { length entries.now ≡ 6 * length sums.old }
    requires entries_small { AllSmall entries.now }
    requires sums_small { All (λ x. unsigned_abs x < 2 ^ 126) sums.old }
    ensures { MatchBool result (AddsSquares sums.old sums.new entries.now) (HasWideSum sums.old entries.now) }
{
    for row in 0..sums.len() {
        let own = &entries[6 * row..6 * row + 6];
        let total = sums[row] + dot(own, own);
        if row >= 6 && total >= LIMIT {
            return false;
        }
        sums[row] = total;
    }
    true
}
