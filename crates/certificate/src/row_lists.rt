ghost use Rattle.std.specs.Prelude.{◌≡◌, ◌<◌, length, All, OnOk};
ghost use Rattle.certificate.specs.RowLists.{ListsColumn};

use lists::Sequence;
use std::alloc::AllocError;

/// A column with an entry in a row, and that entry.
#[derive(Clone, Copy)]
pub struct RowEntry {
    pub column: u32,
    pub value: i64,
}

/// Puts each entry of a column into the list of its row.
pub fn list_column(
    lists: &mut [Sequence<RowEntry>],
    column: u32,
    rows: &[u32],
    values: &[i64],
) -> Result<(), AllocError>
    requires aligned { length values.now ≡ length rows.now }
    requires in_range { All (λ r. r < length lists.old) rows.now }
    ensures { OnOk result (ListsColumn lists.old lists.new column rows.now values.now) }
{
    for place in 0..rows.len() {
        lists[rows[place] as usize].push(RowEntry {
            column,
            value: values[place],
        })?;
    }
    Ok(())
}
