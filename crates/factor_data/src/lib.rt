//! A factor of a symmetric matrix, kept by columns in the order of elimination.
#![tactic(auto)]

ghost use Rattle.std.specs.Prelude.{◌≡◌, IfOk};
ghost use Rattle.lists.specs.Lists.{contents};

use lists::find_rising;
use std::alloc::{AllocError, Global};
use std::marker::Model;

/// Memory ran out.
pub type NoMemory = AllocError;

/// The columns of a lower triangular factor G of a matrix with six rows for each node. Column j has the positions of its
/// entries, rising from j on, and a value for each. Position `6 p + f` is that of freedom f of the node at place p of the
/// elimination order. The values are in units of `2^-26` of the square root of a stiffness; they may be any.
#[derive(Drop)]
pub struct Factor {
    order: Vec<u32>,
    rows: Vec<Vec<u32>>,
    values: Vec<Vec<i64>>,
}

impl Model for Factor {
    ghost use Rattle.factor_data.specs.Columns.{IsFactor};
    ghost use Rattle.factor_data.specs.Columns.{ColumnLists};
    ghost use Rattle.lists.specs.Lists.{contents};

    ghost Value = { ColumnLists };

    ghost view = { λ f. record { order = f.order.items; rows = contents f.rows.items; values = contents f.values.items } };

    ghost invariant = { λ f. IsFactor (record { order = f.order.items; rows = contents f.rows.items; values = contents f.values.items }) };
}

impl Factor {
    ghost use Rattle.factor_data.specs.Columns.{columns_of, column_rows, column_values, factor_entry, IsFactor};

    /// The factor with these columns, which it takes over.
    pub fn of_parts(order: Vec<u32>, rows: Vec<Vec<u32>>, values: Vec<Vec<i64>>) -> Factor
        requires { IsFactor (columns_of order.items (contents rows.items) (contents values.items)) }
        ensures { result ≡ columns_of order.items (contents rows.items) (contents values.items) }
    {
        Factor {
            order,
            rows,
            values,
        }
    }

    /// The factor with copies of these columns.
    pub fn of_lists(
        alloc: Global,
        order: &[u32],
        rows: &[Vec<u32>],
        values: &[Vec<i64>],
    ) -> Result<Factor, NoMemory>
        requires { IsFactor (columns_of order.now (contents rows.now) (contents values.now)) }
        ensures { IfOk result (λ f. f ≡ columns_of order.now (contents rows.now) (contents values.now)) }
    {
        let order = Vec::from_slice(alloc, order)?;
        let rows = copies(alloc, rows)?;
        let values = copies(alloc, values)?;
        Ok(Factor::of_parts(order, rows, values))
    }

    /// The entry at positions i and j, and 0 outside the lists.
    pub fn get(&self, i: u32, j: u32) -> i64
        ensures { result ≡ factor_entry self.now i j }
    {
        let (rows, values) = self.column(j);
        match find_rising(rows, i) {
            Some(place) => values[place],
            None => 0,
        }
    }

    /// The positions and the values of a column; none past the last column.
    pub fn column(&self, j: u32) -> (&[u32], &[i64])
        ensures rows { result.0.now ≡ column_rows self.now j }
        ensures values { result.1.now ≡ column_values self.now j }
        ensures kept { IsFactor self.now }
    {
        match (self.rows.get(j as usize), self.values.get(j as usize)) {
            (Some(rows), Some(values)) => (rows.as_slice(), values.as_slice()),
            _ => (&[], &[]),
        }
    }

    /// The nodes in the order of elimination.
    pub fn order(&self) -> &[u32]
        ensures value { result.now ≡ self.now.order }
        ensures kept { IsFactor self.now }
    {
        self.order.as_slice()
    }
}

/// Copies of lists.
fn copies<T: Copy>(alloc: Global, lists: &[Vec<T>]) -> Result<Vec<Vec<T>>, AllocError>
    ensures { IfOk result (λ v. contents v.items ≡ contents lists.now) }
{
    let mut copies = Vec::with_capacity(alloc, lists.len())?;
    for list in lists {
        copies.push(Vec::from_slice(alloc, list)?)?;
    }
    Ok(copies)
}
