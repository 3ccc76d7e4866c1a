ghost use Rattle.std.specs.Prelude.{◌≡◌, ℕ, ◌+◌, ◌*◌, ◌^◌, ◌<◌, ◌≤◌, length, MatchOption, Some, pos, ◌≤ℤ◌, ◌<ℤ◌};
ghost use Rattle.std.specs.Int.RustNames.{unsigned_abs};
ghost use Rattle.int_laws.specs.Division.{nearest_of};
ghost use Rattle.int_laws.specs.Root.{root_of};
ghost use Rattle.cholesky_laws.specs.Fronts.{lower_entry};
ghost use Rattle.dense_front.specs.Square.{AllSmall, at_square, triangle_of, by_rows, left_in_row};
ghost use Rattle.dense_front.specs.Own.{IsOwnTo, IsOwnBreakdown};

use crate::dot::dot;
use crate::nearest::{Inverse, LIMIT, nearest_quotient};
use cholesky_laws::{fronts_follow_the_recurrence, recurrence_keeps_laws};
use flex_num::isqrt;

/// Where a front's own columns break down.
#[derive(Drop)]
pub enum OwnBreakdown {
    Pivot(u32),
    Wide,
}

// The entries of a front's own six columns, by rows, from the square of its rows.
pub fn eliminate_own(square: &[i128], size: usize, entries: &mut [i64]) -> Option<OwnBreakdown>
    requires own { 6 ≤ size }
    requires few { size ≤ 192 }
    requires square_whole { length square.now ≡ size * size }
    requires entries_whole { length entries.old ≡ 6 * size }
    requires entries_small { AllSmall entries.old }
    requires small { (r c : ℕ) → c ≤ r → r < size → unsigned_abs (at_square size square.now r c) < 2 ^ 126 }
    requires diagonal { (c : ℕ) → c < 6 → at_square size square.now c c <ℤ pos (2 ^ 113) }
    ensures whole { length entries.new ≡ 6 * size }
    ensures small { AllSmall entries.new }
    ensures value { MatchOption result
        (IsOwnTo (lower_entry (triangle_of size square.now)) (6 * size) entries.new)
        (IsOwnBreakdown (lower_entry (triangle_of size square.now)) size) }
{
    recurrence_keeps_laws();
    fronts_follow_the_recurrence();
    let mut inverses = [Inverse::none(); 6];
    for s in 0..6 * size {
        match next_entry(square, size, entries, &inverses, s / 6, s % 6) {
            Some(entry) => {
                keep_inverse(&mut inverses, s / 6, s % 6, entry);
                entries[s] = entry;
            }
            None if s < 36 => return Some(OwnBreakdown::Pivot((s / 6) as u32)),
            None => return Some(OwnBreakdown::Wide),
        }
    }
    None
}

// Keeps the inverse of a pivot.
fn keep_inverse(inverses: &mut [Inverse; 6], row: usize, column: usize, entry: i64)
    requires { column < 6 }
{
    if row == column {
        inverses[column] = Inverse::new(entry);
    }
}

// The entry in a row and a column, from what is left there and the entries before; none at a breakdown.
fn next_entry(
    square: &[i128],
    size: usize,
    entries: &[i64],
    inverses: &[Inverse; 6],
    row: usize,
    column: usize,
) -> Option<i64>
    requires few { size ≤ 192 }
    requires square_whole { length square.now ≡ size * size }
    requires entries_whole { length entries.now ≡ 6 * size }
    requires row_in { row < size }
    requires column_in_node { column < 6 }
    requires small { AllSmall entries.now }
    requires left_small { column ≤ row → unsigned_abs (at_square size square.now row column) < 2 ^ 126 }
    requires diagonal { row ≡ column → at_square size square.now row column <ℤ pos (2 ^ 113) }
    requires pivot { column < row → pos 1 ≤ℤ by_rows entries.now column column }
    ensures above { row < column → result ≡ Some (pos 0) }
    ensures own { row ≡ column → MatchOption result
        (left_in_row (at_square size square.now row column) entries.now row column <ℤ pos 1)
        (λ e. (pos 1 ≤ℤ left_in_row (at_square size square.now row column) entries.now row column) × (e ≡ root_of (left_in_row (at_square size square.now row column) entries.now row column))) }
    ensures below { column < row → MatchOption result
        (2 ^ 57 ≤ unsigned_abs (nearest_of (left_in_row (at_square size square.now row column) entries.now row column) (by_rows entries.now column column)))
        (λ e. (unsigned_abs e < 2 ^ 57) × (e ≡ nearest_of (left_in_row (at_square size square.now row column) entries.now row column) (by_rows entries.now column column))) }
{
    if row < column {
        return Some(0);
    }
    let rest = square[size * column + row]
        - dot(
            &entries[6 * row..6 * row + column],
            &entries[6 * column..6 * column + column],
        );
    if row == column {
        root(rest)
    } else {
        quotient(rest, entries[7 * column], inverses[column])
    }
}

fn root(pivot: i128) -> Option<i64>
    requires { pivot <ℤ pos (2 ^ 114) }
    ensures { MatchOption result (pivot <ℤ pos 1) (λ e. (pos 1 ≤ℤ pivot) × (e ≡ root_of pivot)) }
{
    if pivot < 1 {
        None
    } else {
        Some(isqrt(pivot) as i64)
    }
}

fn quotient(left: i128, pivot: i64, inverse: Inverse) -> Option<i64>
    requires positive { pos 1 ≤ℤ pivot }
    requires pivot_small { unsigned_abs pivot < 2 ^ 57 }
    requires left_small { unsigned_abs left < 2 ^ 126 + 2 ^ 117 }
    ensures { MatchOption result
        (2 ^ 57 ≤ unsigned_abs (nearest_of left pivot))
        (λ e. (unsigned_abs e < 2 ^ 57) × (e ≡ nearest_of left pivot)) }
{
    let quotient = nearest_quotient(left, pivot as i128, inverse);
    if -LIMIT < quotient && quotient < LIMIT {
        Some(quotient as i64)
    } else {
        None
    }
}
