ghost use Rattle.std.specs.Prelude.{◌≡◌, ℕ, ◌+◌, ◌*◌, ◌^◌, ◌<◌, ◌≤◌, [], Contains, length, set, pos, ◌+ℤ◌};
ghost use Rattle.std.specs.Int.RustNames.{unsigned_abs};
ghost use Rattle.lists.specs.Rising.{IsRising};
ghost use Rattle.lists.specs.Lists.{contents, list_of};
ghost use Rattle.lists.specs.Listed.{listed};
ghost use Rattle.lists.specs.Rows.{freedom_at};
ghost use Rattle.cholesky_laws.specs.Fronts.{lower, update_entry};
ghost use Rattle.dense_front.specs.Square.{at_square, by_rows};
ghost use Rattle.dense_front.specs.Child.{update_of, no_update, IsUpdate};
ghost use Rattle.dense_front.specs.Space.{AreColumnsFor};

use crate::child::{add_update, match_places};
use cholesky_laws::fronts_follow_the_recurrence;
use std::alloc::Global;
use std::marker::Model;
use std::mem;

/// A front's six columns of the factor, each with its values over the front's rows from the column's own row on. The values
/// are in units of `2^-26` of the square root of a stiffness.
#[derive(Drop)]
pub struct Columns {
    columns: Vec<Vec<i64>>,
}

impl Model for Columns {
    ghost use Rattle.std.specs.Prelude.{List, ℤ};
    ghost use Rattle.lists.specs.Lists.{contents};

    ghost Value = { List (List ℤ) };

    ghost view = { λ c. contents c.columns.items };
}

/// What a front gives to its parent: for the rows of its later places, what its subtree takes off.
#[derive(Drop)]
pub struct FrontUpdate {
    later: Vec<u32>,
    // The square of the front, its own rows and columns first.
    square: Vec<i128>,
}

impl Model for FrontUpdate {
    ghost use Rattle.std.specs.Prelude.{◌≡◌, ◌+◌, ◌*◌, ◌<◌, ◌≤◌, length};
    ghost use Rattle.cholesky_laws.specs.Fronts.{Update};
    ghost use Rattle.dense_front.specs.Child.{update_of, IsUpdate};

    ghost Value = { Update };

    ghost view = { λ u. update_of u.later.items u.square.items };

    ghost invariant = { λ u. IsUpdate u.later.items u.square.items };
}

impl Columns {
    /// No columns.
    pub fn empty(alloc: Global) -> Columns
        ensures { result ≡ [] }
    {
        Columns {
            columns: Vec::new(alloc),
        }
    }

    // The columns of entries by rows of six, in lists that are as long.
    pub(crate) fn of_entries(mut columns: Vec<Vec<i64>>, entries: &[i64], rows: usize) -> Columns
        requires own { 6 ≤ rows }
        requires whole { length entries.now ≡ 6 * rows }
        requires columns { AreColumnsFor rows (contents columns.items) }
        ensures { result ≡ lower 6 rows (by_rows entries.now) }
    {
        for column in 0..6 {
            fill_column(&mut columns[column], entries, column);
        }
        Columns { columns }
    }

    /// Hands out a column, and leaves an empty list in its place.
    pub fn take(&mut self, alloc: Global, column: u32) -> Vec<i64>
        requires { column < length self.old }
        ensures value { result.items ≡ list_of self.old column }
        ensures left { self.new ≡ set self.old column [] }
    {
        mem::replace(&mut self.columns[column as usize], Vec::new(alloc))
    }
}

// Puts a column of entries by rows of six into a list, from the column's own row on.
fn fill_column(list: &mut [i64], entries: &[i64], column: usize)
    requires column_in { column < 6 }
    requires whole { length entries.now ≡ 6 * (column + length list.old) }
    ensures { list.new ≡ listed (length list.old) (λ k. by_rows entries.now (column + k) column) }
{
    for k in 0..list.len() {
        list[k] = entries[6 * (column + k) + column];
    }
}

impl FrontUpdate {
    // The update in a front's square.
    pub(crate) fn of_parts(later: Vec<u32>, square: Vec<i128>) -> FrontUpdate
        requires { IsUpdate later.items square.items }
        ensures { result ≡ update_of later.items square.items }
    {
        FrontUpdate { later, square }
    }

    /// No rows: the update of no child.
    pub fn empty(alloc: Global) -> FrontUpdate
        ensures { result ≡ no_update }
    {
        FrontUpdate {
            later: Vec::new(alloc),
            square: Vec::new(alloc),
        }
    }

    // Adds it to the square of a front with these places.
    pub(crate) fn add_to(&self, square: &mut [i128], places: &[u32], matched: &mut [u32])
        requires few { length places.now ≤ 32 }
        requires square_whole { length square.old ≡ (6 * length places.now) * (6 * length places.now) }
        requires rising { IsRising places.now }
        requires child_rising { IsRising self.now.later }
        requires listed { (q : ℕ) → Contains self.now.later q → Contains places.now q }
        requires room { length matched.old ≡ 32 }
        requires small { (r c : ℕ) → c ≤ r → r < 6 * length places.now → unsigned_abs (at_square (6 * length places.now) square.old r c) < 2 ^ 126 }
        requires update_small { (r c : ℕ) → c ≤ r → r < 6 * length places.now → unsigned_abs (update_entry self.now (freedom_at places.now r) (freedom_at places.now c)) < 2 ^ 113 }
        ensures whole { length square.new ≡ length square.old }
        ensures matched { length matched.new ≡ 32 }
        ensures added { (r c : ℕ) → c ≤ r → r < 6 * length places.now →
            at_square (6 * length places.now) square.new r c ≡ at_square (6 * length places.now) square.old r c +ℤ update_entry self.now (freedom_at places.now r) (freedom_at places.now c) }
    {
        fronts_follow_the_recurrence();
        match_places(matched, places, &self.later);
        add_update(square, places, matched, &self.square, &self.later);
    }
}
