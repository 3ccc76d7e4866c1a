ghost use Rattle.std.specs.Prelude.{◌≡◌, ℕ, ◌+◌, ◌*◌, ◌^◌, ◌<◌, ◌≤◌, length, All, ℤ, pos, ◌-ℤ◌, ◌+ℤ◌, ◌*ℤ◌, ◌<ℤ◌, ◌≤ℤ◌, OnOk, OnErr, IfOk, IfErr, slice_index};
ghost use Rattle.factor_data.specs.Columns.{factor_entry, IsFactor};
ghost use Rattle.flex_num.specs.Guarded.{value_at};
ghost use Rattle.solve.specs.Numerators.{TakesColumn, gathered, gathered_size, IsNumeratorBroad, IsUntaken};
ghost use Rattle.solve.specs.Substitution.{at, IsForward, ForwardBreaks, IsBackward, BackwardBreaks};
ghost use Rattle.int_laws.specs.Matrices.{absolute};

use crate::numerators::{less_past, product, quotient};
use factor_data::Factor;
use flex_interval::Wide;
use flex_num::GuardedSum;

/// Solves `G y = r`, column after column. `left` has the right side, and what is left of it afterwards.
pub fn forward(f: &Factor, left: &mut [GuardedSum], y: &mut [i128]) -> Result<(), Wide>
    requires numbered { length y.old ≤ 2 ^ 32 }
    requires factor { 6 * length f.now.order ≡ length y.old }
    requires diagonal { (j : ℕ) → j < length y.old → pos 0 <ℤ factor_entry f.now j j }
    requires one_numerator_each { length left.old ≡ length y.old }
    requires whole { IsUntaken left.old }
    ensures solved { OnOk result (IsForward (length y.old) (factor_entry f.now) (value_at left.old) y.new) }
    ensures broad { OnErr result (ForwardBreaks (length y.old) (factor_entry f.now) (value_at left.old)) }
{
    for j in 0..y.len() {
        let position = j as u32;
        let unknown = quotient(left[j], f.get(position, position));
        y[j] = unknown;
        let (rows, values) = f.column(position);
        scatter(rows, values, position, unknown, left)?;
    }
    Ok(())
}

/// Takes a column's entries past row `j`, times an unknown, from the numerators of their rows.
fn scatter(
    rows: &[u32],
    values: &[i64],
    j: u32,
    unknown: i128,
    left: &mut [GuardedSum],
) -> Result<(), Wide>
    requires aligned { length values.now ≡ length rows.now }
    requires in_range { All (λ row. row < length left.old) rows.now }
    ensures taken { OnOk result (TakesColumn left.old left.new rows.now values.now j unknown (length rows.now)) }
    ensures beyond { OnErr result (IsNumeratorBroad left.old rows.now values.now j unknown) }
{
    for v in 0..rows.len() {
        let row = rows[v] as usize;
        left[row] = less_past(left[row], j, rows[v], values[v], unknown)?;
    }
    Ok(())
}

/// Solves `G^T z = 2^digits y`, from the last column to the first. `x` has `y`, and `z` afterwards.
pub fn backward(f: &Factor, digits: u32, x: &mut [i128]) -> Result<(), Wide>
    requires numbered { length x.old ≤ 2 ^ 32 }
    requires factor { 6 * length f.now.order ≡ length x.old }
    requires diagonal { (j : ℕ) → j < length x.old → pos 0 <ℤ factor_entry f.now j j }
    requires digits { digits ≤ 88 }
    ensures solved { OnOk result (IsBackward (length x.old) (factor_entry f.now) (λ j. at x.old j *ℤ pos (2 ^ digits)) x.new) }
    ensures broad { OnErr result (BackwardBreaks (length x.old) (factor_entry f.now) (λ j. at x.old j *ℤ pos (2 ^ digits))) }
{
    let scale = power_of_two(digits);
    let mut j = x.len();
    while j > 0 {
        j -= 1;
        let position = j as u32;
        let (rows, values) = f.column(position);
        let numerator = gather(rows, values, position, scale, x)?;
        x[j] = quotient(numerator, f.get(position, position));
    }
    Ok(())
}

/// `2^digits`.
pub fn power_of_two(digits: u32) -> i128
    requires { digits ≤ 88 }
    ensures { result ≡ pos (2 ^ digits) }
{
    1 << digits
}

/// The scaled number at position `j` less a column's entries past it, each times the unknown of its row.
fn gather(rows: &[u32], values: &[i64], j: u32, scale: i128, x: &[i128]) -> Result<GuardedSum, Wide>
    requires aligned { length values.now ≡ length rows.now }
    requires in_range { All (λ row. row < length x.now) rows.now }
    requires position { j < length x.now }
    ensures value { IfOk result (λ n. n.value ≡ (at x.now j *ℤ scale) -ℤ gathered rows.now values.now x.now j (length rows.now)) }
    ensures size { IfOk result (λ n. pos n.size ≡ absolute (at x.now j *ℤ scale) +ℤ gathered_size rows.now values.now x.now j (length rows.now)) }
    ensures broad { OnErr result (pos (2 ^ 126) ≤ℤ (absolute (at x.now j *ℤ scale) +ℤ gathered_size rows.now values.now x.now j (length rows.now))) }
{
    let mut numerator = product(x[j as usize], scale)?;
    for v in 0..rows.len() {
        numerator = less_past(numerator, j, rows[v], values[v], x[rows[v] as usize])?;
    }
    Ok(numerator)
}
