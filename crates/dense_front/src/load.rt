ghost use Rattle.std.specs.Prelude.{◌≡◌, ℕ, ◌*◌, ◌<◌, ◌≤◌, All, length, slice_index_or, pos};
ghost use Rattle.sym_blocks.specs.Matrix.{entry};
ghost use Rattle.lists.specs.Rows.{freedom_at};
ghost use Rattle.cholesky_laws.specs.Recurrence.{scaled_stiffness};
ghost use Rattle.dense_front.specs.Square.{at_square, PutsFrom};
ghost use Rattle.dense_front.specs.Tree.{IsLoad};

use sym_blocks::SymBlocks;

// Stiffnesses are scaled by this.
const SCALE: i128 = 1 << 52;

// Puts the entries of a matrix less a shift into the own columns of a front, whose rows have these nodes, and zeros into the
// later ones.
pub fn load_own(square: &mut [i128], nodes: &[u32], k: &SymBlocks, shift: i128)
    requires own { 0 < length nodes.now }
    requires few { length nodes.now ≤ 32 }
    requires nodes_small { All (λ n. n < 8000) nodes.now }
    requires square_whole { length square.old ≡ (6 * length nodes.now) * (6 * length nodes.now) }
    requires load { IsLoad k.now shift }
    ensures whole { length square.new ≡ length square.old }
    ensures own { (r c : ℕ) → c < 6 → r < 6 * length nodes.now → at_square (6 * length nodes.now) square.new r c ≡ scaled_stiffness (entry k.now) nodes.now shift r c }
    ensures zero { (r c : ℕ) → 6 ≤ c → r < 6 * length nodes.now → at_square (6 * length nodes.now) square.new r c ≡ pos 0 }
{
    clear(square);
    for column in 0..6 {
        load_column(square, nodes, k, shift, column);
    }
}

// Zeros throughout.
fn clear(square: &mut [i128])
    ensures whole { length square.new ≡ length square.old }
    ensures zero { (s : ℕ) → slice_index_or square.new s (pos 0) ≡ pos 0 }
{
    for s in 0..square.len() {
        square[s] = 0;
    }
}

// Puts the entries of one own column.
fn load_column(square: &mut [i128], nodes: &[u32], k: &SymBlocks, shift: i128, column: usize)
    requires nodes_small { All (λ n. n < 8000) nodes.now }
    requires few { length nodes.now ≤ 32 }
    requires column_in { column < 6 * length nodes.now }
    requires square_whole { length square.old ≡ (6 * length nodes.now) * (6 * length nodes.now) }
    requires load { IsLoad k.now shift }
    ensures whole { length square.new ≡ length square.old }
    ensures put { PutsFrom square.old square.new (6 * length nodes.now * column) (6 * length nodes.now) (λ r. scaled_stiffness (entry k.now) nodes.now shift r column) }
{
    let size = 6 * nodes.len();
    for row in 0..size {
        square[size * column + row] = scaled_entry(k, nodes, shift, row, column);
    }
}

// The entry of two rows of a front, scaled and with the shift taken off the diagonal.
fn scaled_entry(k: &SymBlocks, nodes: &[u32], shift: i128, row: usize, column: usize) -> i128
    requires nodes_small { All (λ n. n < 8000) nodes.now }
    requires row_in { row < 6 * length nodes.now }
    requires column_in { column < 6 * length nodes.now }
    requires load { IsLoad k.now shift }
    ensures { result ≡ scaled_stiffness (entry k.now) nodes.now shift row column }
{
    let stiffness = k.get(freedom(nodes, row), freedom(nodes, column));
    if row == column {
        SCALE * (stiffness - shift)
    } else {
        SCALE * stiffness
    }
}

// The freedom of a row.
fn freedom(nodes: &[u32], row: usize) -> u32
    requires nodes_small { All (λ n. n < 8000) nodes.now }
    requires row_in { row < 6 * length nodes.now }
    ensures { result ≡ freedom_at nodes.now row }
{
    6 * nodes[row / 6] + (row % 6) as u32
}
