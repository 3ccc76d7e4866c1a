ghost use Rattle.std.specs.Prelude.{◌≡◌, ℕ, suc, None, option_map, ◌+◌, ◌-◌, ◌*◌, ◌^◌, ◌<◌, ◌≤◌, length, pos, ◌<ℤ◌};
ghost use Rattle.std.specs.Int.RustNames.{unsigned_abs};
ghost use Rattle.cholesky_laws.specs.Recurrence.{cholesky, left_after};
ghost use Rattle.cholesky_laws.specs.Fronts.{lower_entry, space_breakdown};
ghost use Rattle.dense_front.specs.Square.{AllSmall, at_square, triangle_of, by_rows};
ghost use Rattle.dense_front.specs.Own.{breakdown_in_front};

use crate::own::{OwnBreakdown, eliminate_own};
use crate::update::{has_low_row, take_products};
use cholesky_laws::fronts_follow_the_recurrence;

// Eliminates the own columns of a front with so many later places: their entries, and what is left in the rows and columns
// past them; or how they break down.
pub fn eliminate_square(
    square: &mut [i128],
    later: usize,
    entries: &mut [i64],
) -> Option<OwnBreakdown>
    requires few { later ≤ 31 }
    requires square_whole { length square.old ≡ (6 * later + 6) * (6 * later + 6) }
    requires entries_whole { length entries.old ≡ 6 * (6 * later + 6) }
    requires entries_small { AllSmall entries.old }
    requires small { (r c : ℕ) → c ≤ r → r < 6 * later + 6 → unsigned_abs (at_square (6 * later + 6) square.old r c) < 2 ^ 126 - 2 ^ 114 }
    requires diagonal { (c : ℕ) → c < 6 → at_square (6 * later + 6) square.old c c <ℤ pos (2 ^ 113) }
    ensures square_whole { length square.new ≡ (6 * later + 6) * (6 * later + 6) }
    ensures entries_whole { length entries.new ≡ 6 * (6 * later + 6) }
    ensures breakdown { (f : ℕ) → option_map (breakdown_in_front f) result ≡ space_breakdown f (lower_entry (triangle_of (6 * later + 6) square.old)) (suc later) }
    ensures columns { result ≡ None → (r c : ℕ) → c < 6 → r < 6 * later + 6 → by_rows entries.new r c ≡ cholesky (lower_entry (triangle_of (6 * later + 6) square.old)) r c }
    ensures left { result ≡ None → (r c : ℕ) → 6 ≤ c → c ≤ r → r < 6 * later + 6 → at_square (6 * later + 6) square.new r c ≡ left_after (lower_entry (triangle_of (6 * later + 6) square.old)) 6 r c }
{
    fronts_follow_the_recurrence();
    let size = 6 * later + 6;
    if let Some(breakdown) = eliminate_own(square, size, entries) {
        return Some(breakdown);
    }
    take_products(square, size, entries);
    if has_low_row(square, size) {
        Some(OwnBreakdown::Wide)
    } else {
        None
    }
}
