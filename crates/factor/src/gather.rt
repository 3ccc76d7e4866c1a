ghost use Rattle.std.specs.Prelude.{◌≡◌, ◌⊎◌, ℕ, ◌+◌, ◌*◌, ◌/◌, ◌%◌, ◌^◌, ◌<◌, ◌≤◌, All, Contains, length, slice_index_or, pos, ◌+ℤ◌, ◌-ℤ◌, ◌≤ℤ◌};
ghost use Rattle.std.specs.Int.RustNames.{unsigned_abs};
ghost use Rattle.lists.specs.Rising.{IsRising};
ghost use Rattle.factor.specs.Panel.{AllSmall, kept_for};
ghost use Rattle.factor.specs.Gather.{entry_products, block_product, UpdatesBlock};

use crate::dot::dot;
use lists::find_rising;

// Takes what an earlier node's columns give off what is left for a node's rows: the products of its rows for the later
// nodes with its rows for this node.
pub fn gather(work: &mut [i128], nodes: &[u32], reached: &[u32], entries: &[i64], node: u32)
    requires nodes_rising { IsRising nodes.now }
    requires reached_rising { IsRising reached.now }
    requires listed { Contains reached.now node }
    requires within { (q : ℕ) → Contains reached.now q → node ≤ q → Contains nodes.now q }
    requires work_whole { length work.old ≡ 36 * length nodes.now }
    requires entries_whole { length entries.now ≡ 36 * length reached.now }
    requires entries_small { AllSmall entries.now }
    requires work_small { All (λ x. unsigned_abs x < 2 ^ 126) work.old }
    ensures { (q t : ℕ) → node ≤ q → t < 36 →
        kept_for 36 nodes.now work.new q t ≡ kept_for 36 nodes.now work.old q t -ℤ block_product reached.now entries.now node q t }
{
    if let Some(column) = find_rising(reached, node) {
        for place in column..reached.len() {
            if let Some(target) = find_rising(nodes, reached[place]) {
                gather_block(work, target, entries, place, column);
            }
        }
    }
}

fn gather_block(work: &mut [i128], target: usize, entries: &[i64], row: usize, column: usize)
    requires target_in { 36 * target + 36 ≤ length work.old }
    requires row_in { 36 * row + 36 ≤ length entries.now }
    requires column_in { 36 * column + 36 ≤ length entries.now }
    requires entries_small { AllSmall entries.now }
    requires work_small { (t : ℕ) → t < 36 → unsigned_abs (slice_index_or work.old (36 * target + t) (pos 0)) < 2 ^ 126 }
    ensures { UpdatesBlock 36 work.old work.new target (entry_products entries.now row column) }
{
    for t in 0..36 {
        let left = 36 * row + 6 * (t / 6);
        let right = 36 * column + 6 * (t % 6);
        work[36 * target + t] -= dot(&entries[left..left + 6], &entries[right..right + 6]);
    }
}

// Adds the squares of an earlier node's subtree to those of a node's rows.
pub fn add_squares(sums: &mut [i128], nodes: &[u32], reached: &[u32], squares: &[i128], node: u32)
    requires nodes_rising { IsRising nodes.now }
    requires reached_rising { IsRising reached.now }
    requires listed { Contains reached.now node }
    requires within { (q : ℕ) → Contains reached.now q → node ≤ q → Contains nodes.now q }
    requires sums_whole { length sums.old ≡ 6 * length nodes.now }
    requires squares_whole { length squares.now ≡ 6 * length reached.now }
    requires squares_small { (q r : ℕ) → Contains reached.now q → node ≤ q → r < 6 → unsigned_abs (kept_for 6 reached.now squares.now q r) < 2 ^ 120 }
    requires sums_small { All (λ x. unsigned_abs x < 2 ^ 126) sums.old }
    ensures { (q r : ℕ) → node ≤ q → r < 6 →
        kept_for 6 nodes.now sums.new q r ≡ kept_for 6 nodes.now sums.old q r +ℤ kept_for 6 reached.now squares.now q r }
{
    if let Some(column) = find_rising(reached, node) {
        for place in column..reached.len() {
            if let Some(target) = find_rising(nodes, reached[place]) {
                add_block(sums, target, squares, place);
            }
        }
    }
}

fn add_block(sums: &mut [i128], target: usize, squares: &[i128], row: usize)
    requires target_in { 6 * target + 6 ≤ length sums.old }
    requires row_in { 6 * row + 6 ≤ length squares.now }
    requires squares_small { (r : ℕ) → r < 6 → unsigned_abs (slice_index_or squares.now (6 * row + r) (pos 0)) < 2 ^ 120 }
    requires sums_small { (r : ℕ) → r < 6 → unsigned_abs (slice_index_or sums.old (6 * target + r) (pos 0)) < 2 ^ 126 }
    ensures { UpdatesBlock 6 sums.old sums.new target (λ r. slice_index_or squares.now (6 * row + r) (pos 0)) }
{
    for r in 0..6 {
        sums[6 * target + r] += squares[6 * row + r];
    }
}
