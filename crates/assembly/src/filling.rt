ghost use Rattle.std.specs.Prelude.{◌≡◌, ℕ, ◌+◌, ◌*◌, ◌/◌, ◌^◌, ◌<◌, ◌≤◌, length, unsigned_abs, OnOk, OnErr, IsErr};
ghost use Rattle.member_set.specs.Members.{IsBuilt, row_count, built_nodes};
ghost use Rattle.member_set.specs.States.{under};
ghost use Rattle.sym_blocks.specs.Matrix.{HasBlock};
ghost use Rattle.assembly.specs.Stiffness.{HasPatternOf, upper_entry};
ghost use Rattle.assembly.specs.Filling.{PutsAt, IsFilled, KeepsFilled, IsScaled, IsWideFrom};

use crate::entries::{ScaledRow, upper_entry};
use crate::scaling::scale;
use flex_interval::{Iv, IvFault, middle, radius};
use member_set::{Built, states_select_members};
use sym_blocks::SymBlocks;

/// Fills a row from the diagonal on; `scaled` is a working place for each member.
pub(crate) fn fill_row(
    b: &Built,
    closed: &[bool],
    scaled: &mut [Iv],
    middles: &mut SymBlocks,
    radii: &mut SymBlocks,
    row: u32,
) -> Result<(), IvFault>
    requires built { IsBuilt b.now }
    requires row_in_range { row < row_count b.now }
    requires one_each { length scaled.old ≡ length b.now.members }
    requires middles_pattern { HasPatternOf middles.old (under b.now closed.now) }
    requires radii_pattern { HasPatternOf radii.old (under b.now closed.now) }
    ensures one_each { length scaled.new ≡ length b.now.members }
    ensures kept { OnOk result (KeepsFilled (under b.now closed.now) middles.old radii.old middles.new radii.new) }
    ensures filled { OnOk result ((col : ℕ) → HasBlock middles.old (row / 6) (col / 6) → row ≤ col →
        IsFilled (under b.now closed.now) middles.new radii.new row col) }
    ensures fault { OnErr result (IsWideFrom (under b.now closed.now) row) }
{
    scale(b, closed, row, scaled)?;
    let number = row;
    fill_blocks(
        &ScaledRow {
            b,
            closed,
            number,
            scaled,
        },
        middles,
        radii,
    )
}

/// Fills the blocks of a row.
fn fill_blocks(
    row: &ScaledRow,
    middles: &mut SymBlocks,
    radii: &mut SymBlocks,
) -> Result<(), IvFault>
    requires built { IsBuilt row.now.b.now }
    requires row_in_range { row.now.number < row_count row.now.b.now }
    requires scaled { IsScaled (under row.now.b.now row.now.closed.now) row.now.number row.now.scaled.now }
    requires middles_pattern { HasPatternOf middles.old (under row.now.b.now row.now.closed.now) }
    requires radii_pattern { HasPatternOf radii.old (under row.now.b.now row.now.closed.now) }
    ensures kept { OnOk result (KeepsFilled (under row.now.b.now row.now.closed.now) middles.old radii.old middles.new radii.new) }
    ensures filled { OnOk result ((col : ℕ) → HasBlock middles.old (row.now.number / 6) (col / 6) → row.now.number ≤ col →
        IsFilled (under row.now.b.now row.now.closed.now) middles.new radii.new row.now.number col) }
    ensures fault { OnErr result (IsWideFrom (under row.now.b.now row.now.closed.now) row.now.number) }
{
    states_select_members();
    for t in 0..middles.pattern(row.number / 6).len() {
        let node = middles.pattern(row.number / 6)[t];
        fill_block(row, middles, radii, node)?;
    }
    Ok(())
}

/// Fills what a row has of a block, from the diagonal on.
fn fill_block(
    row: &ScaledRow,
    middles: &mut SymBlocks,
    radii: &mut SymBlocks,
    node: u32,
) -> Result<(), IvFault>
    requires built { IsBuilt row.now.b.now }
    requires row_in_range { row.now.number < row_count row.now.b.now }
    requires node_in_range { node < built_nodes row.now.b.now }
    requires scaled { IsScaled (under row.now.b.now row.now.closed.now) row.now.number row.now.scaled.now }
    requires middles_pattern { HasPatternOf middles.old (under row.now.b.now row.now.closed.now) }
    requires radii_pattern { HasPatternOf radii.old (under row.now.b.now row.now.closed.now) }
    requires joined { HasBlock middles.old (row.now.number / 6) node }
    ensures kept { OnOk result (KeepsFilled (under row.now.b.now row.now.closed.now) middles.old radii.old middles.new radii.new) }
    ensures filled { OnOk result ((f : ℕ) → f < 6 → row.now.number ≤ 6 * node + f →
        IsFilled (under row.now.b.now row.now.closed.now) middles.new radii.new row.now.number (6 * node + f)) }
    ensures fault { OnErr result (IsWideFrom (under row.now.b.now row.now.closed.now) row.now.number) }
{
    for freedom in 0..6 {
        let col = 6 * node + freedom;
        if row.number <= col {
            fill(row, middles, radii, col)?;
        }
    }
    Ok(())
}

/// Fills an entry, the lesser row first, and its mirror.
fn fill(
    row: &ScaledRow,
    middles: &mut SymBlocks,
    radii: &mut SymBlocks,
    col: u32,
) -> Result<(), IvFault>
    requires built { IsBuilt row.now.b.now }
    requires order { row.now.number ≤ col }
    requires col_in_range { col < row_count row.now.b.now }
    requires scaled { IsScaled (under row.now.b.now row.now.closed.now) row.now.number row.now.scaled.now }
    requires middles_pattern { HasPatternOf middles.old (under row.now.b.now row.now.closed.now) }
    requires radii_pattern { HasPatternOf radii.old (under row.now.b.now row.now.closed.now) }
    requires joined { HasBlock middles.old (row.now.number / 6) (col / 6) }
    ensures kept { OnOk result (KeepsFilled (under row.now.b.now row.now.closed.now) middles.old radii.old middles.new radii.new) }
    ensures filled { OnOk result (IsFilled (under row.now.b.now row.now.closed.now) middles.new radii.new row.now.number col) }
    ensures fault { OnErr result (IsErr (upper_entry (under row.now.b.now row.now.closed.now) row.now.number col)) }
{
    let e = upper_entry(row, col)?;
    put(middles, row.number, col, middle(e));
    put(radii, row.number, col, radius(e));
    Ok(())
}

/// Makes an entry and its mirror `v`.
fn put(matrix: &mut SymBlocks, row: u32, col: u32, v: i128)
    requires in_pattern { HasBlock matrix.old (row / 6) (col / 6) }
    requires small { unsigned_abs v < 2 ^ 126 }
    ensures { PutsAt matrix.old matrix.new row col v }
{
    let change = v - matrix.get(row, col);
    matrix.add(row, col, change);
}
