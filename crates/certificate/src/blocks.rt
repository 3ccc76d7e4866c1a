ghost use Rattle.std.specs.Prelude.{◌≡◌, ℕ, ◌+◌, ◌*◌, ◌/◌, ◌^◌, ◌<◌, ◌≤◌, ℤ, pos, ◌-ℤ◌, ◌+ℤ◌, ◌*ℤ◌, ◌≤ℤ◌, ◌<ℤ◌, unsigned_abs, length, All, IfSome, IsNone};
ghost use Rattle.int_laws.specs.Sums.{sum_below};
ghost use Rattle.sym_blocks.specs.Matrix.{entry, node_count};
ghost use Rattle.int_laws.specs.Matrices.{scalar_matrix};
ghost use Rattle.lists.specs.Rows.{freedom_at};
ghost use Rattle.lists.specs.Order.{IsOrder};
ghost use Rattle.certificate.specs.RowSums.{sizes_total};
ghost use Rattle.flex_num.specs.Guarded.{value_at};
ghost use Rattle.certificate.specs.RowResidual.{missed, missed_total};

use crate::margin::SCALE;
use crate::row_sums::{RowSums, with_size};
use sym_blocks::SymBlocks;

/// The row of freedom `s % 6` of the node at place `s / 6` of a list.
pub fn freedom_at(nodes: &[u32], s: usize) -> u32
    requires inside { s < 6 * length nodes.now }
    requires numbered { All (λ node. 6 * node + 6 ≤ 2 ^ 32) nodes.now }
    ensures { result ≡ freedom_at nodes.now s }
{
    6 * nodes[s / 6] + (s % 6) as u32
}

/// The sum of a row's radii.
pub fn radius_sum(radii: &SymBlocks, row: u32) -> u128
    requires row { row < 6 * node_count radii.now }
    requires numbered { 6 * node_count radii.now ≤ 2 ^ 32 }
    requires not_negative { (i j : ℕ) → pos 0 ≤ℤ entry radii.now i j }
    requires small { (i j : ℕ) → entry radii.now i j <ℤ pos (2 ^ 60) }
    ensures { pos result ≡ sum_below (6 * node_count radii.now) (λ j. entry radii.now row j) }
{
    let nodes = radii.pattern(row / 6);
    let mut total = 0;
    for s in 0..6 * nodes.len() {
        total += radii.get(row, freedom_at(nodes, s)) as u128;
    }
    total
}

/// What an entry of the middle matrix less the shift, in units of the factor's products, has beyond a product.
fn residual(entry: i128, shift: u64, product: i128) -> i128
    requires entry { unsigned_abs entry < 2 ^ 60 }
    requires shift { shift ≤ 2 ^ 44 }
    requires product { unsigned_abs product < 2 ^ 126 }
    ensures { result ≡ (pos (2 ^ 52) *ℤ (entry -ℤ pos shift)) -ℤ product }
{
    (SCALE as i128) * (entry - shift as i128) - product
}

/// The shift on the diagonal, and 0 outside.
fn shift_at(shift: u64, row: u32, column: u32) -> u64
    ensures value { pos result ≡ scalar_matrix (pos shift) row column }
    ensures bound { result ≤ shift }
{
    if row == column { shift } else { 0 }
}

/// Takes the sum for a column, and returns by how much it misses the middle matrix less the shift.
fn take_residual(
    middle: &SymBlocks,
    shift: u64,
    places: &[u32],
    row: u32,
    column: u32,
    sums: &mut RowSums,
) -> i128
    requires column { column < 6 * length places.now }
    requires small { (i j : ℕ) → unsigned_abs (entry middle.now i j) < 2 ^ 60 }
    requires shift { shift ≤ 2 ^ 44 }
    requires numbered { All (λ place. 6 * place + 6 ≤ 2 ^ 32) places.now }
    requires inside { freedom_at places.now column < length sums.old }
    ensures value { result ≡ missed middle.now (pos shift) places.now sums.old row column }
    ensures length_kept { length sums.new ≡ length sums.old }
    ensures here { value_at sums.new (freedom_at places.now column) ≡ pos 0 }
    ensures others { (j : ℕ) → (j ≡ freedom_at places.now column → ⊥) → value_at sums.new j ≡ value_at sums.old j }
{
    let product = sums.take(freedom_at(places, column as usize));
    residual(
        middle.get(row, column),
        shift_at(shift, row, column),
        product,
    )
}

/// Takes what stands in the columns of the middle matrix's pattern from the sums of a row, and adds up by how much it
/// misses the matrix less the shift; what is left in the sums is missed as it stands. `None` where this reaches the limit.
pub fn take_residuals(
    middle: &SymBlocks,
    shift: u64,
    places: &[u32],
    row: u32,
    sums: &mut RowSums,
) -> Option<u128>
    requires row { row < 6 * node_count middle.now }
    requires numbered { 6 * node_count middle.now ≤ 2 ^ 32 }
    requires small { (i j : ℕ) → unsigned_abs (entry middle.now i j) < 2 ^ 60 }
    requires shift { shift ≤ 2 ^ 44 }
    requires places { IsOrder places.now }
    requires nodes { length places.now ≡ node_count middle.now }
    requires positions { length sums.old ≡ 6 * node_count middle.now }
    ensures some { IfSome result (λ total. (total < 2 ^ 126) × (pos total +ℤ sizes_total sums.new ≡ missed_total middle.now (pos shift) places.now sums.old row)) }
    ensures none { IsNone result → pos (2 ^ 126) ≤ℤ missed_total middle.now (pos shift) places.now sums.old row }
    ensures length_kept { length sums.new ≡ length sums.old }
{
    let nodes = middle.pattern(row / 6);
    let mut total = 0;
    for s in 0..6 * nodes.len() {
        let missed = take_residual(middle, shift, places, row, freedom_at(nodes, s), sums);
        total = with_size(total, missed)?;
    }
    Some(total)
}
