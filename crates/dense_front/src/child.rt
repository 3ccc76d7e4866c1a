ghost use Rattle.std.specs.Prelude.{◌≡◌, ◌⊎◌, ℕ, ◌+◌, ◌-◌, ◌*◌, ◌/◌, ◌%◌, ◌^◌, ◌<◌, ◌≤◌, Contains, length, slice_index, slice_index_or, pos, ◌+ℤ◌};
ghost use Rattle.std.specs.Int.RustNames.{unsigned_abs};
ghost use Rattle.lists.specs.Rising.{IsRising};
ghost use Rattle.lists.specs.Rows.{freedom_at};
ghost use Rattle.cholesky_laws.specs.Fronts.{update_entry};
ghost use Rattle.dense_front.specs.Square.{at_square, RaisesFrom};
ghost use Rattle.dense_front.specs.Child.{IsMatched, row_in, update_of};

use cholesky_laws::fronts_follow_the_recurrence;
use lists::find_rising;

// For each later place of a child, where it stands among its parent's places.
pub fn match_places(matched: &mut [u32], places: &[u32], later: &[u32])
    requires room { length later.now ≤ length matched.old }
    requires few { length places.now ≤ 32 }
    requires rising { IsRising places.now }
    requires listed { (q : ℕ) → Contains later.now q → Contains places.now q }
    ensures whole { length matched.new ≡ length matched.old }
    ensures value { IsMatched places.now later.now matched.new }
{
    for k in 0..later.len() {
        if let Some(place) = find_rising(places, later[k]) {
            matched[k] = place as u32;
        }
    }
}

// Adds a child's update, which its square holds past its own rows and columns, to the square of its parent.
pub fn add_update(
    square: &mut [i128],
    places: &[u32],
    matched: &[u32],
    child: &[i128],
    later: &[u32],
)
    requires few { length places.now ≤ 32 }
    requires square_whole { length square.old ≡ (6 * length places.now) * (6 * length places.now) }
    requires child_few { length later.now ≤ 31 }
    requires child_whole { 0 < length later.now → length child.now ≡ (6 * length later.now + 6) * (6 * length later.now + 6) }
    requires rising { IsRising places.now }
    requires child_rising { IsRising later.now }
    requires matched { IsMatched places.now later.now matched.now }
    requires room { length later.now ≤ length matched.now }
    requires small { (r c : ℕ) → c ≤ r → r < 6 * length places.now → unsigned_abs (at_square (6 * length places.now) square.old r c) < 2 ^ 126 }
    requires child_small { (r c : ℕ) → c ≤ r → r < 6 * length later.now → unsigned_abs (at_square (6 * length later.now + 6) child.now (6 + r) (6 + c)) < 2 ^ 113 }
    ensures whole { length square.new ≡ length square.old }
    ensures added { (r c : ℕ) → c ≤ r → r < 6 * length places.now →
        at_square (6 * length places.now) square.new r c ≡ at_square (6 * length places.now) square.old r c +ℤ update_entry (update_of later.now child.now) (freedom_at places.now r) (freedom_at places.now c) }
{
    fronts_follow_the_recurrence();
    for column in 0..6 * later.len() {
        add_column(square, places, matched, child, later, column);
    }
}

// Adds one column of it.
fn add_column(
    square: &mut [i128],
    places: &[u32],
    matched: &[u32],
    child: &[i128],
    later: &[u32],
    column: usize,
)
    requires few { length places.now ≤ 32 }
    requires square_whole { length square.old ≡ (6 * length places.now) * (6 * length places.now) }
    requires child_few { length later.now ≤ 31 }
    requires column_in { column < 6 * length later.now }
    requires child_whole { length child.now ≡ (6 * length later.now + 6) * (6 * length later.now + 6) }
    requires rising { IsRising places.now }
    requires child_rising { IsRising later.now }
    requires matched { IsMatched places.now later.now matched.now }
    requires room { length later.now ≤ length matched.now }
    requires small { (r : ℕ) → row_in matched.now column ≤ r → r < 6 * length places.now → unsigned_abs (at_square (6 * length places.now) square.old r (row_in matched.now column)) < 2 ^ 126 }
    requires child_small { (r : ℕ) → column ≤ r → r < 6 * length later.now → unsigned_abs (at_square (6 * length later.now + 6) child.now (6 + r) (6 + column)) < 2 ^ 113 }
    ensures whole { length square.new ≡ length square.old }
    ensures added { (k : ℕ) → column ≤ k → k < 6 * length later.now →
        at_square (6 * length places.now) square.new (row_in matched.now k) (row_in matched.now column) ≡ at_square (6 * length places.now) square.old (row_in matched.now k) (row_in matched.now column) +ℤ at_square (6 * length later.now + 6) child.now (6 + k) (6 + column) }
    ensures others { (s : ℕ) → ((k : ℕ) → column ≤ k → k < 6 * length later.now → s ≡ (6 * length places.now) * row_in matched.now column + row_in matched.now k → ⊥) →
        slice_index_or square.new s (pos 0) ≡ slice_index_or square.old s (pos 0) }
{
    let size = 6 * places.len();
    let child_size = 6 * later.len() + 6;
    let target = size * (6 * matched[column / 6] as usize + column % 6);
    let source = child_size * (6 + column) + 6;
    for place in column / 6..later.len() {
        let from = first_row(place, column);
        add_rows(
            square,
            target + 6 * matched[place] as usize + from,
            child,
            source + 6 * place + from,
            6 - from,
        );
    }
}

// The first of a place's six rows that is in a column or below it.
fn first_row(place: usize, column: usize) -> usize
    requires { column / 6 ≤ place }
    ensures small { result < 6 }
    ensures below { column ≤ 6 * place + result }
    ensures first { (k : ℕ) → column ≤ k → 6 * place ≤ k → 6 * place + result ≤ k }
{
    if place == column / 6 { column % 6 } else { 0 }
}

// Adds so many numbers of one list to those of another.
fn add_rows(square: &mut [i128], start: usize, child: &[i128], source: usize, count: usize)
    requires start_in { start + count ≤ length square.old }
    requires source_in { source + count ≤ length child.now }
    requires small { (t : ℕ) → t < count → unsigned_abs (slice_index_or square.old (start + t) (pos 0)) < 2 ^ 126 }
    requires child_small { (t : ℕ) → t < count → unsigned_abs (slice_index_or child.now (source + t) (pos 0)) < 2 ^ 113 }
    ensures whole { length square.new ≡ length square.old }
    ensures raised { RaisesFrom square.old square.new start count (λ t. slice_index_or child.now (source + t) (pos 0)) }
{
    for t in 0..count {
        square[start + t] += child[source + t];
    }
}
