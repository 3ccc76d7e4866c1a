ghost use Rattle.std.specs.Prelude.{◌≡◌, ℕ, ◌*◌, ◌^◌, ◌<◌, ◌≤◌, length, IfOk, [], replicate};
ghost use Rattle.certificate.specs.RowLists.{ListsRow};
ghost use Rattle.lists.specs.Lists.{list_of};

use crate::row_lists::{RowEntry, list_column};
use crate::row_sums::RowSums;
use factor_data::{Factor, NoMemory};
use lists::{Permutation, Sequence};
use std::alloc::{AllocError, Global};
use std::marker::Model;

/// Past this many nodes some row has no number of 32 bits.
const MAX_NODES: usize = u32::MAX as usize / 6;

/// The rows of a factor, whose columns a `Factor` has, and the room for the sums of one row.
#[derive(Drop)]
pub struct CheckSpace {
    pub(crate) order: Permutation,
    pub(crate) rows: Vec<Sequence<RowEntry>>,
    pub(crate) sums: RowSums,
}

impl Model for CheckSpace {
    ghost use Rattle.std.specs.Prelude.{◌≡◌, length};
    ghost use Rattle.certificate.specs.Space.{CheckLists};

    ghost Value = { CheckLists };

    ghost view = { λ s. record { order = s.order; rows = s.rows.items } };

    ghost invariant = { λ s. length s.sums ≡ length s.rows.items };
}

impl CheckSpace {
    ghost use Rattle.certificate.specs.Space.{AreListsOf};

    /// The space for checks by this factor. Where its rows have no numbers of 32 bits there is none.
    pub fn new(alloc: Global, g: &Factor) -> Result<CheckSpace, NoMemory>
        ensures { IfOk result (AreListsOf g.now) }
    {
        if g.order().len() > MAX_NODES {
            return Err(AllocError);
        }
        let order = Permutation::new(alloc, Vec::from_slice(alloc, g.order())?)?;
        let rows = row_lists(alloc, g)?;
        let sums = RowSums::new(alloc, rows.len())?;
        Ok(CheckSpace { order, rows, sums })
    }
}

/// The entries of a factor, row by row.
fn row_lists(alloc: Global, g: &Factor) -> Result<Vec<Sequence<RowEntry>>, AllocError>
    requires { 6 * length g.now.order ≤ 2 ^ 32 }
    ensures { IfOk result (λ lists. (length lists.items ≡ 6 * length g.now.order) × ((i : ℕ) → i < 6 * length g.now.order → ListsRow g.now i (list_of lists.items i))) }
{
    let mut lists = no_entries(alloc, 6 * g.order().len())?;
    for column in 0..lists.len() {
        let (rows, values) = g.column(column as u32);
        list_column(&mut lists, column as u32, rows, values)?;
    }
    Ok(lists)
}

fn no_entries(alloc: Global, rows: usize) -> Result<Vec<Sequence<RowEntry>>, AllocError>
    ensures { IfOk result (λ lists. lists.items ≡ replicate rows []) }
{
    let mut lists = Vec::with_capacity(alloc, rows)?;
    for _ in 0..rows {
        lists.push(Sequence::new(Vec::new(alloc)))?;
    }
    Ok(lists)
}
