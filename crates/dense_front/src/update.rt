ghost use Rattle.std.specs.Prelude.{◌≡◌, ℕ, ◌+◌, ◌-◌, ◌*◌, ◌^◌, ◌<◌, ◌≤◌, length, MatchBool, pos, neg_ℤ, ◌-ℤ◌, ◌≤ℤ◌, ◌<ℤ◌};
ghost use Rattle.std.specs.Int.RustNames.{unsigned_abs};
ghost use Rattle.dense_front.specs.Square.{AllSmall, at_square, row_products, RaisesFrom};

use crate::dot::dot;

// The squares of a row, summed over a subtree, are below this.
const LIMIT: i128 = 1 << 113;

// Takes the products of a front's own columns off the rows and columns past them.
pub fn take_products(square: &mut [i128], size: usize, entries: &[i64])
    requires own { 6 ≤ size }
    requires few { size ≤ 192 }
    requires square_whole { length square.old ≡ size * size }
    requires entries_whole { length entries.now ≡ 6 * size }
    requires entries_small { AllSmall entries.now }
    requires small { (r c : ℕ) → c ≤ r → r < size → unsigned_abs (at_square size square.old r c) < 2 ^ 126 }
    ensures whole { length square.new ≡ size * size }
    ensures taken { (r c : ℕ) → 6 ≤ c → c ≤ r → r < size → at_square size square.new r c ≡ at_square size square.old r c -ℤ row_products entries.now r c }
{
    for column in 6..size {
        take_column(square, size, entries, column);
    }
}

fn take_column(square: &mut [i128], size: usize, entries: &[i64], column: usize)
    requires few { size ≤ 192 }
    requires column_in { column < size }
    requires square_whole { length square.old ≡ size * size }
    requires entries_whole { length entries.now ≡ 6 * size }
    requires entries_small { AllSmall entries.now }
    requires small { (r : ℕ) → column ≤ r → r < size → unsigned_abs (at_square size square.old r column) < 2 ^ 126 }
    ensures whole { length square.new ≡ size * size }
    ensures taken { RaisesFrom square.old square.new (size * column + column) (size - column) (λ t. neg_ℤ (row_products entries.now (column + t) column)) }
{
    for row in column..size {
        square[size * column + row] -= dot(
            &entries[6 * row..6 * row + 6],
            &entries[6 * column..6 * column + 6],
        );
    }
}

// Whether a row past a front's own has squares of 2^113 or more over its subtree.
pub fn has_low_row(square: &[i128], size: usize) -> bool
    requires few { size ≤ 192 }
    requires own { 6 ≤ size }
    requires square_whole { length square.now ≡ size * size }
    requires small { (r : ℕ) → 6 ≤ r → r < size → unsigned_abs (at_square size square.now r r) < 2 ^ 127 }
    ensures { MatchBool result
        ((r : ℕ) × (6 ≤ r) × (r < size) × (pos (2 ^ 113) ≤ℤ neg_ℤ (at_square size square.now r r)))
        ((r : ℕ) → 6 ≤ r → r < size → neg_ℤ (at_square size square.now r r) <ℤ pos (2 ^ 113)) }
{
    for row in 6..size {
        if square[size * row + row] <= -LIMIT {
            return true;
        }
    }
    false
}
