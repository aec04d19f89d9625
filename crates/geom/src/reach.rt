// A column for each row that only grows.

ghost use Rattle.std.specs.Prelude.{◌≡◌, ◌^◌, ◌<ℤ◌, ◌≤ℤ◌, ℤ, pos, neg_ℤ, IfOk, OnOk};
ghost use Rattle.geom.specs.RowTrees.{column_at};
ghost use Rattle.geom.specs.Reaches.{IsLevel, IsReached, Raises};

use crate::row_tree::{Band, RowTree};
use crate::span::Span;
use rx_text::NoMemory;
use std::alloc::Global;
use std::marker::Model;

/// The column of each row at first, in lambda: no edge of a box is further left.
pub const LOWEST_EDGE: i64 = -0x100_0000_0000;

/// Rows with one column: that column, and the row at which they end.
#[derive(Clone, Copy, Debug, PartialEq, Eq)]
pub struct Level {
    pub value: i64,
    pub end: i64,
}

/// A column for each row that only grows. Each call takes a time that grows as the logarithm of the number of rows given
/// to `new`, if it names no others.
#[derive(Drop)]
pub struct Reach {
    alloc: Global,
    tree: RowTree,
}

impl Model for Reach {
    ghost use Rattle.geom.specs.declared.row_tree.RowTree.{RowTree};
    ghost use Rattle.geom.specs.contracts.row_tree.RowTree.{the_row};

    ghost Value = { RowTree };

    ghost coded = { the_row.coded };

    ghost use Rattle.geom.specs.RowTrees.{IsSound};

    ghost view = { λ r. r.tree };

    ghost invariant = { λ r. IsSound r.tree };
}

impl Reach {
    /// `LOWEST_EDGE` at every row. The rows are those at which the column may change later, in order.
    pub fn new(alloc: Global, rows: &[i64]) -> Result<Reach, NoMemory>
        ensures { IfOk result (λ reach. (y : ℤ) → column_at reach y ≡ neg_ℤ (pos (2 ^ 40))) }
    {
        Ok(Reach {
            alloc,
            tree: RowTree::flat(alloc, LOWEST_EDGE, rows)?,
        })
    }

    /// The column of the row, and the first row up to `limit` at which it is another.
    pub fn level(&self, row: i64, limit: i64) -> Level
        requires { row <ℤ limit }
        ensures level { IsLevel self.now row result }
        ensures within { result.end ≤ℤ limit }
    {
        let value = self.tree.column(row);
        let alike = Band {
            least: value,
            greatest: value,
        };
        Level {
            value,
            end: self.tree.leaving(alike, row, limit),
        }
    }

    /// The first row up to `limit` that does not reach the column, which this row does.
    pub fn reached(&self, column: i64, row: i64, limit: i64) -> i64
        requires order { row <ℤ limit }
        requires reached { column ≤ℤ column_at self.now row }
        ensures { IsReached self.now column row limit result }
    {
        let right = Band {
            least: column,
            greatest: self.tree.greatest(),
        };
        self.tree.leaving(right, row, limit)
    }

    /// Raises the rows from one up to another to the column, where theirs is less.
    pub fn raise(&mut self, from: i64, to: i64, column: i64) -> Result<(), NoMemory>
        ensures { OnOk result (Raises self.old from to column self.new) }
    {
        self.tree.cut(self.alloc, from)?;
        self.tree.cut(self.alloc, to)?;
        let rows = Span {
            from: Some(from),
            to: Some(to),
        };
        self.tree.raise(Some(rows), column);
        Ok(())
    }
}
