ghost use Rattle.std.specs.Prelude.{◌≡◌, ℕ, ◌*◌, ◌^◌, ◌<◌, ◌≤◌, ℤ, pos, ◌≤ℤ◌, ◌<ℤ◌, unsigned_abs, length, IsTrue, MatchOption, false};
ghost use Rattle.certificate.specs.RowSums.{IsClear};
ghost use Rattle.certificate.specs.RowLists.{SumsRow, IsRowBeyond};
ghost use Rattle.sym_blocks.specs.Matrix.{node_count, entry};
ghost use Rattle.lists.specs.Order.{IsOrder};
ghost use Rattle.factor_data.specs.Columns.{IsFactor};
ghost use Rattle.certificate.specs.RowResidual.{HasResidual, IsRowLost};
ghost use Rattle.bound_laws.specs.Definiteness.{row_margin};
ghost use Rattle.certificate.specs.Space.{AreListsOf};
ghost use Rattle.certificate.specs.Checker.{test_of, RowIsRefused, IsVerdict, Proves};

use crate::blocks::{freedom_at, radius_sum, take_residuals};
use crate::margin::margin;
use crate::row_lists::RowEntry;
use crate::row_sums::RowSums;
use crate::space::CheckSpace;
use bound_laws::passed_test_is_proof;
use factor_data::Factor;
use sym_blocks::SymBlocks;

/// Whether the test shows that a matrix is positive definite.
#[derive(Clone, Copy, PartialEq, Eq)]
pub enum Verdict {
    /// No matrix within the radii has an eigenvalue below `lambda`, which is 1 or more.
    Yes { lambda: i128 },
    /// The first row that leaves no margin of 1, or whose products with some row reach 2^126 in size.
    No { row: u32 },
}

/// Sums the products of a row, given by its entries, with all rows. `false` where the sizes of some reach the limit.
fn add_row(g: &Factor, row: &[RowEntry], sums: &mut RowSums) -> bool
    requires positions { length sums.old ≡ 6 * length g.now.order }
    requires clear { IsClear sums.old }
    ensures summed { IsTrue result → SumsRow g.now row.now sums.new }
    ensures limit { result ≡ false → IsRowBeyond g.now row.now }
    ensures length_kept { length sums.new ≡ length sums.old }
{
    for entry in row {
        let (rows, values) = g.column(entry.column);
        if !sums.add_column(rows, values, entry.value) {
            return false;
        }
    }
    true
}

/// The size of a row's residual, by its entries. `None` where a sum of sizes reaches the limit.
fn residual_size(
    middle: &SymBlocks,
    shift: u64,
    g: &Factor,
    entries: &[RowEntry],
    places: &[u32],
    row: u32,
    sums: &mut RowSums,
) -> Option<u128>
    requires row { row < 6 * node_count middle.now }
    requires numbered { 6 * node_count middle.now ≤ 2 ^ 32 }
    requires small { (i j : ℕ) → unsigned_abs (entry middle.now i j) < 2 ^ 60 }
    requires shift { shift ≤ 2 ^ 44 }
    requires same_size { length g.now.order ≡ node_count middle.now }
    requires places { IsOrder places.now }
    requires nodes { length places.now ≡ node_count middle.now }
    requires positions { length sums.old ≡ 6 * node_count middle.now }
    ensures cases { MatchOption result
        (IsRowLost g.now entries.now middle.now (pos shift) places.now row)
        (λ r. HasResidual g.now entries.now middle.now (pos shift) places.now row (pos r)) }
    ensures length_kept { length sums.new ≡ length sums.old }
{
    sums.clear();
    if !add_row(g, entries, sums) {
        return None;
    }
    let taken = take_residuals(middle, shift, places, row, sums)?;
    sums.drain(taken)
}

/// The margin of a row. `None` where the row is refused.
fn row_margin(
    middle: &SymBlocks,
    radii: &SymBlocks,
    g: &Factor,
    shift: u64,
    row: u32,
    space: &mut CheckSpace,
) -> Option<u128>
    requires row { row < 6 * node_count middle.now }
    requires factor { IsFactor g.now }
    requires space { AreListsOf g.now space.old }
    requires same_size { length g.now.order ≡ node_count middle.now }
    requires same_radii { node_count radii.now ≡ node_count middle.now }
    requires middle { (i j : ℕ) → unsigned_abs (entry middle.now i j) < 2 ^ 60 }
    requires not_negative { (i j : ℕ) → pos 0 ≤ℤ entry radii.now i j }
    requires radii { (i j : ℕ) → entry radii.now i j <ℤ pos (2 ^ 60) }
    requires shift { shift ≤ 2 ^ 44 }
    ensures cases { let t = test_of middle.now radii.now g.now (pos shift) in
        MatchOption result (RowIsRefused t row) (λ m. ((RowIsRefused t row → ⊥) × (pos m ≡ row_margin t row)) × (2 ^ 52 ≤ m)) }
    ensures kept { space.new ≡ space.old }
{
    let position = freedom_at(space.order.places(), row as usize);
    let entries = space.rows[position as usize].as_slice();
    let residual = residual_size(
        middle,
        shift,
        g,
        entries,
        space.order.places(),
        row,
        &mut space.sums,
    )?;
    margin(shift, residual, radius_sum(radii, row))
}

/// The verdict over so many rows.
fn check_rows(
    middle: &SymBlocks,
    radii: &SymBlocks,
    g: &Factor,
    shift: u64,
    rows: usize,
    space: &mut CheckSpace,
) -> Verdict
    requires one_row { 0 < rows }
    requires rows { rows ≡ 6 * node_count middle.now }
    requires factor { IsFactor g.now }
    requires space { AreListsOf g.now space.old }
    requires same_size { length g.now.order ≡ node_count middle.now }
    requires same_radii { node_count radii.now ≡ node_count middle.now }
    requires middle { (i j : ℕ) → unsigned_abs (entry middle.now i j) < 2 ^ 60 }
    requires not_negative { (i j : ℕ) → pos 0 ≤ℤ entry radii.now i j }
    requires radii { (i j : ℕ) → entry radii.now i j <ℤ pos (2 ^ 60) }
    requires shift { shift ≤ 2 ^ 44 }
    ensures verdict { IsVerdict (test_of middle.now radii.now g.now (pos shift)) result }
    ensures proof { Proves (test_of middle.now radii.now g.now (pos shift)) result }
    ensures kept { space.new ≡ space.old }
{
    passed_test_is_proof();
    let mut lambda = u128::MAX;
    for row in 0..rows {
        match row_margin(middle, radii, g, shift, row as u32, space) {
            Some(margin) => lambda = lambda.min(margin >> 52),
            None => return Verdict::No { row: row as u32 },
        }
    }
    Verdict::Yes {
        lambda: lambda as i128,
    }
}

/// Whether every symmetric matrix within the radii `rd` of the middle matrix `km` is positive definite, by the verified
/// Cholesky test with `g` as a factor of the middle matrix less the shift `mu` on its diagonal. Nothing is asked of the
/// factor's values. Entries, radii, shift and `lambda` are in units of `2^-20` N/m. It takes no memory, and time with the
/// products of the factor's columns by themselves.
pub fn check_definite(
    km: &SymBlocks,
    rd: &SymBlocks,
    g: &Factor,
    mu: i128,
    space: &mut CheckSpace,
) -> Verdict
    requires one_row { 0 < node_count km.now }
    requires space { AreListsOf g.now space.old }
    requires same_size { length g.now.order ≡ node_count km.now }
    requires same_radii { node_count rd.now ≡ node_count km.now }
    requires middle { (i j : ℕ) → unsigned_abs (entry km.now i j) < 2 ^ 60 }
    requires not_negative { (i j : ℕ) → pos 0 ≤ℤ entry rd.now i j }
    requires radii { (i j : ℕ) → entry rd.now i j <ℤ pos (2 ^ 60) }
    requires shift_not_negative { pos 0 ≤ℤ mu }
    requires shift { mu ≤ℤ pos (2 ^ 44) }

    // Which answer, exactly, and what a yes means.
    ensures verdict { IsVerdict (test_of km.now rd.now g.now mu) result }
    ensures proof { Proves (test_of km.now rd.now g.now mu) result }
    ensures kept { space.new ≡ space.old }
{
    let rows = 6 * g.order().len();
    check_rows(km, rd, g, mu as u64, rows, space)
}
