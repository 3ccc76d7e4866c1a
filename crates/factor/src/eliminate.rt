ghost use Rattle.std.specs.Prelude.{◌≡◌, ℕ, ◌+◌, ◌*◌, ◌^◌, ◌<◌, ◌≤◌, All, length, MatchOption, MatchResult, Some, ℤ, pos, ◌≤ℤ◌, ◌<ℤ◌, slice_index_or};
ghost use Rattle.std.specs.Int.RustNames.{unsigned_abs};
ghost use Rattle.int_laws.specs.Division.{nearest_of};
ghost use Rattle.int_laws.specs.Root.{root_of};
ghost use Rattle.factor.specs.Panel.{AllSmall, by_rows, left_in_row};
ghost use Rattle.factor.specs.Eliminate.{IsEliminated, IsPanelBreakdown};
ghost use Rattle.factor.specs.declared.eliminate.Breakdown.TheVariants.{NoMemory};

use crate::dot::dot;
use cholesky_laws::recurrence_keeps_laws;
use flex_num::{isqrt, nearest_div};
use std::alloc::{AllocError, AllocFailed, Global};

/// Where the six columns of a node break down.
#[derive(Drop)]
pub enum Breakdown {
    Pivot(u32),
    Wide,
    NoMemory,
}

impl From<AllocError> for Breakdown {
    ghost from_gives = { λ _ e. e ≡ NoMemory };

    fn from(_error: AllocError) -> Breakdown {
        Breakdown::NoMemory
    }
}

impl<T: Drop> From<AllocFailed<T>> for Breakdown {
    ghost from_gives = { λ _ e. e ≡ NoMemory };

    fn from(_error: AllocFailed<T>) -> Breakdown {
        Breakdown::NoMemory
    }
}

// A factor entry is below this in size.
const LIMIT: i128 = 1 << 57;

// The entries of a node's six columns, from what is left for its rows: its own six first.
pub fn eliminate(alloc: Global, work: &[i128]) -> Result<Vec<i64>, Breakdown>
    requires own { 36 ≤ length work.now }
    requires small { All (λ x. unsigned_abs x < 2 ^ 126) work.now }
    requires diagonal { (c : ℕ) → c < 6 → by_rows work.now c c <ℤ pos (2 ^ 113) }
    ensures { MatchResult result
        (λ entries. IsEliminated (by_rows work.now) (length work.now) entries.items)
        (IsPanelBreakdown (by_rows work.now) (length work.now)) }
{
    recurrence_keeps_laws();
    let mut entries = Vec::with_capacity(alloc, work.len())?;
    for s in 0..work.len() {
        match panel_entry(work[s], &entries, s / 6, s % 6) {
            Some(entry) => entries.push(entry)?,
            None if s < 36 => return Err(Breakdown::Pivot((s / 6) as u32)),
            None => return Err(Breakdown::Wide),
        }
    }
    Ok(entries)
}

// The entry in a row and a column, from what is left there and the entries of the rows before; none at a breakdown.
fn panel_entry(left: i128, entries: &[i64], row: usize, column: usize) -> Option<i64>
    requires next { length entries.now ≡ 6 * row + column }
    requires column_in_node { column < 6 }
    requires small { AllSmall entries.now }
    requires left_small { unsigned_abs left < 2 ^ 126 }
    requires diagonal { row ≡ column → left <ℤ pos (2 ^ 113) }
    requires pivot { column < row → pos 1 ≤ℤ by_rows entries.now column column }
    ensures above { row < column → result ≡ Some (pos 0) }
    ensures own { row ≡ column → MatchOption result
        (left_in_row left entries.now row column <ℤ pos 1)
        (λ e. (pos 1 ≤ℤ left_in_row left entries.now row column) × (e ≡ root_of (left_in_row left entries.now row column))) }
    ensures below { column < row → MatchOption result
        (2 ^ 57 ≤ unsigned_abs (nearest_of (left_in_row left entries.now row column) (by_rows entries.now column column)))
        (λ e. (unsigned_abs e < 2 ^ 57) × (e ≡ nearest_of (left_in_row left entries.now row column) (by_rows entries.now column column))) }
{
    if row < column {
        return Some(0);
    }
    let rest = left
        - dot(
            &entries[6 * row..],
            &entries[6 * column..6 * column + column],
        );
    if row == column {
        root(rest)
    } else {
        quotient(rest, entries[7 * column])
    }
}

fn root(pivot: i128) -> Option<i64>
    requires { pivot <ℤ pos (2 ^ 114) }
    ensures { MatchOption result (pivot <ℤ pos 1) (λ e. (pos 1 ≤ℤ pivot) × (e ≡ root_of pivot)) }
{
    if pivot < 1 {
        None
    } else {
        Some(isqrt(pivot) as i64)
    }
}

fn quotient(left: i128, pivot: i64) -> Option<i64>
    requires { pos 1 ≤ℤ pivot }
    ensures { MatchOption result
        (2 ^ 57 ≤ unsigned_abs (nearest_of left pivot))
        (λ e. (unsigned_abs e < 2 ^ 57) × (e ≡ nearest_of left pivot)) }
{
    let quotient = nearest_div(left, pivot as i128);
    if -LIMIT < quotient && quotient < LIMIT {
        Some(quotient as i64)
    } else {
        None
    }
}
