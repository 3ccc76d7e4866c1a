ghost use Rattle.std.specs.Prelude.{◌≡◌, ℕ, ◌+◌, ◌^◌, ◌<◌, ◌≤◌, ◌↔◌, ℤ, pos, ◌+ℤ◌, ◌*ℤ◌, ◌≤ℤ◌, unsigned_abs, length, All, IsTrue, IsNone, IfSome, OnSome, IfOk, MatchOption, vec_len, vec_capacity, false, [], ◌∷◌, ◌++◌, List};

use flex_num::{GUARD, GuardedSum};
use std::alloc::{AllocError, Global};
use std::marker::Model;

/// The product of two entries of a factor.
fn product(a: i64, b: i64) -> i128
    ensures value { result ≡ a *ℤ b }
    ensures size { unsigned_abs result ≤ 2 ^ 126 }
{
    a as i128 * b as i128
}

/// A size more; `None` where the total reaches the limit.
pub fn with_size(total: u128, term: i128) -> Option<u128>
    requires { total < 2 ^ 126 }
    ensures { MatchOption result (2 ^ 126 ≤ total + unsigned_abs term) (λ t. (t ≡ total + unsigned_abs term) × (t < 2 ^ 126)) }
{
    let sum = total + term.unsigned_abs();
    if sum >= GUARD { None } else { Some(sum) }
}

/// Notes a position whose sum has no term yet.
fn note(touched: &mut Vec<u32>, at: u32, size: u128)
    requires { size ≡ 0 → vec_len touched.old < vec_capacity touched.old }
    ensures first { size ≡ 0 → touched.new.items ≡ touched.old.items ++ at ∷ [] }
    ensures again { (size ≡ 0 → ⊥) → touched.new.items ≡ touched.old.items }
    ensures capacity { vec_capacity touched.new ≡ vec_capacity touched.old }
{
    if size == 0 {
        touched.push_reserved(at);
    }
}

/// The sums of one row, one for each position, and the positions that have one, so that only these are cleared.
#[derive(Drop)]
pub struct RowSums {
    sums: Vec<GuardedSum>,
    touched: Vec<u32>,
}

impl Model for RowSums {
    ghost use Rattle.std.specs.Prelude.{List};
    ghost use Rattle.std.specs.Vec.{vec_capacity};
    ghost use Rattle.flex_num.specs.declared.guarded.GuardedSum.{GuardedSum};
    ghost use Rattle.certificate.specs.RowSums.{IsTracked};

    ghost Value = { List GuardedSum };

    ghost view = { λ r. r.sums.items };

    ghost invariant = { λ r. IsTracked r.sums.items r.touched.items (vec_capacity r.touched) };
}

impl RowSums {
    ghost use Rattle.flex_num.specs.Guarded.{value_at, size_at};
    ghost use Rattle.certificate.specs.RowSums.{sizes_total, IsClear, AddsProduct, AddsColumn, IsSumBeyond};

    /// So many sums, all 0.
    pub fn new(alloc: Global, positions: usize) -> Result<Self, AllocError>
        ensures { IfOk result (λ r. (length r ≡ positions) × IsClear r) }
    {
        let sums = vec![in alloc; GuardedSum::ZERO; positions]?;
        let touched = Vec::with_capacity(alloc, positions)?;
        Ok(RowSums { sums, touched })
    }

    /// Adds a product at a position. `false` where the sizes there reach the limit; then nothing changes.
    fn add(&mut self, at: u32, product: i128) -> bool
        requires { at < length self.old }
        ensures added { IsTrue result → AddsProduct self.old self.new at product }
        ensures limit { result ≡ false → (self.new ≡ self.old) × (2 ^ 126 ≤ size_at self.old at + unsigned_abs product) }
    {
        if product == 0 {
            return true;
        }
        let sum = self.sums[at as usize];
        let Some(more) = sum.plus(product) else {
            return false;
        };
        note(&mut self.touched, at, sum.size);
        self.sums[at as usize] = more;
        true
    }

    /// Adds a multiple of a column. `false` where the sizes at some position reach the limit.
    pub fn add_column(&mut self, rows: &[u32], values: &[i64], factor: i64) -> bool
        requires aligned { length values.now ≡ length rows.now }
        requires in_range { All (λ r. r < length self.old) rows.now }
        ensures added { IsTrue result → AddsColumn self.old self.new rows.now values.now factor }
        ensures limit { result ≡ false → (length self.new ≡ length self.old) × IsSumBeyond self.old rows.now values.now factor }
    {
        for place in 0..rows.len() {
            if !self.add(rows[place], product(factor, values[place])) {
                return false;
            }
        }
        true
    }

    /// The sum at a position, which is 0 from then on.
    pub fn take(&mut self, at: u32) -> i128
        requires { at < length self.old }
        ensures value { result ≡ value_at self.old at }
        ensures size { unsigned_abs result < 2 ^ 126 }
        ensures length_kept { length self.new ≡ length self.old }
        ensures here { value_at self.new at ≡ pos 0 }
        ensures others { (j : ℕ) → (j ≡ at → ⊥) → value_at self.new j ≡ value_at self.old j }
    {
        let sum = self.sums[at as usize];
        self.sums[at as usize] = sum.emptied();
        sum.value
    }

    /// Clears all sums.
    pub fn clear(&mut self)
        ensures length_kept { length self.new ≡ length self.old }
        ensures clear { IsClear self.new }
    {
        while let Some(at) = self.touched.pop() {
            self.sums[at as usize] = GuardedSum::ZERO;
        }
    }

    /// The total and the sizes of all sums, which it clears; `None` where this reaches the limit.
    pub fn drain(&mut self, mut total: u128) -> Option<u128>
        requires { total < 2 ^ 126 }
        ensures some { IfSome result (λ t. (t < 2 ^ 126) × (pos t ≡ pos total +ℤ sizes_total self.old)) }
        ensures none { IsNone result → pos (2 ^ 126) ≤ℤ (pos total +ℤ sizes_total self.old) }
        ensures length_kept { length self.new ≡ length self.old }
        ensures clear { OnSome result (IsClear self.new) }
    {
        while let Some(at) = self.touched.pop() {
            let value = self.sums[at as usize].value;
            self.sums[at as usize] = GuardedSum::ZERO;
            total = with_size(total, value)?;
        }
        Some(total)
    }
}
