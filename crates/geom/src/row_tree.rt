// A column for each row, as a tree over the rows.

ghost use Rattle.std.specs.Prelude.{◌≡◌, ◌≤ℤ◌, ◌<ℤ◌, ℤ, IsTrue, ◌↔◌, IfOk, OnOk};
ghost use Rattle.std.specs.Int.{int_max, int_min};
ghost use Rattle.geom.specs.Spans.{InRows, IsEdge};
ghost use Rattle.geom.specs.RowTrees.{InBand, IsCut, IsEven, IsSound, Leaves, column_at, greatest_of, least_of, lifted, settled};

use crate::span::Span;
use rx_text::NoMemory;
use std::alloc::Global;

/// Columns from `least` to `greatest`, both included.
#[derive(Clone, Copy, Debug, PartialEq, Eq)]
pub struct Band {
    pub least: i64,
    pub greatest: i64,
}

impl Band {
    /// The column belongs to the band.
    fn holds(self, column: i64) -> bool
        ensures { IsTrue result ↔ InBand self column }
    {
        self.least <= column && column <= self.greatest
    }
}

/// A column for each row: the greatest of the columns on the way from the root to the row.
#[cycle(tree)]
#[derive(Drop)]
pub enum RowTree {
    /// Rows of one column.
    Flat(i64),
    Parted(Box<Parts>),
}

/// The rows below the middle, and those from there on. All have at least the column `floor`; `least` and `greatest` are
/// the least and the greatest of their columns.
#[cycle(tree)]
#[derive(Drop)]
pub struct Parts {
    floor: i64,
    least: i64,
    greatest: i64,
    middle: i64,
    low: RowTree,
    high: RowTree,
}

impl RowTree {
    /// One column for all rows, with a place to change it at each of these rows, which are in order.
    pub fn flat(alloc: Global, column: i64, rows: &[i64]) -> Result<RowTree, NoMemory>
        ensures { IfOk result (λ tree. IsEven tree column) }
    {
        let half = rows.len() / 2;
        match rows.get(half) {
            Some(middle) => {
                let low = RowTree::flat(alloc, column, &rows[..half])?;
                let high = RowTree::flat(alloc, column, &rows[half + 1..])?;
                RowTree::parted(alloc, column, *middle, low, high)
            }
            None => Ok(RowTree::Flat(column)),
        }
    }

    /// Two trees of one column, with their rows below the middle and from there on.
    fn parted(
        alloc: Global,
        column: i64,
        middle: i64,
        low: RowTree,
        high: RowTree,
    ) -> Result<RowTree, NoMemory>
        requires low { IsEven low column }
        requires high { IsEven high column }
        ensures even { IfOk result (λ tree. IsEven tree column) }
        ensures cut { IfOk result (λ tree. IsCut tree middle) }
    {
        let parts = Parts {
            floor: column,
            least: column,
            greatest: column,
            middle,
            low,
            high,
        };
        Ok(RowTree::Parted(Box::new(alloc, parts)?))
    }

    /// The column of the row.
    pub fn column(&self, row: i64) -> i64
        ensures { result ≡ column_at self.now row }
    {
        match self {
            RowTree::Flat(column) => *column,
            RowTree::Parted(parts) => {
                let column = if row < parts.middle {
                    parts.low.column(row)
                } else {
                    parts.high.column(row)
                };
                column.max(parts.floor)
            }
        }
    }

    /// The least column of the rows.
    fn least(&self) -> i64
        ensures { result ≡ least_of self.now }
    {
        match self {
            RowTree::Flat(column) => *column,
            RowTree::Parted(parts) => parts.least,
        }
    }

    /// The greatest column of the rows.
    pub fn greatest(&self) -> i64
        ensures { result ≡ greatest_of self.now }
    {
        match self {
            RowTree::Flat(column) => *column,
            RowTree::Parted(parts) => parts.greatest,
        }
    }

    /// The first row from `row` on whose column leaves the band, or `limit` where that is lower.
    pub fn leaving(&self, band: Band, row: i64, limit: i64) -> i64
        requires sound { IsSound self.now }
        requires order { row ≤ℤ limit }
        ensures { Leaves (column_at self.now) band row limit result }
    {
        self.leaving_above(self.least(), band, row, limit)
    }

    /// The first row from `row` on whose column, raised to `floor`, leaves the band, or `limit` where that is lower.
    fn leaving_above(&self, floor: i64, band: Band, row: i64, limit: i64) -> i64
        requires sound { IsSound self.now }
        requires order { row ≤ℤ limit }
        ensures { Leaves (λ y. int_max (column_at self.now y) floor) band row limit result }
    {
        if self.stays(floor, band) {
            return limit;
        }
        match self {
            RowTree::Flat(_) => row,
            RowTree::Parted(parts) => {
                let parts: &Parts = parts;
                let floor = floor.max(parts.floor);
                if row < parts.middle {
                    let end = limit.min(parts.middle);
                    let found = parts.low.leaving_above(floor, band, row, end);
                    if found < parts.middle {
                        found
                    } else {
                        parts.high.leaving_above(floor, band, parts.middle, limit)
                    }
                } else {
                    parts.high.leaving_above(floor, band, row, limit)
                }
            }
        }
    }

    /// The least and the greatest column, raised to `floor`, belong to the band.
    fn stays(&self, floor: i64, band: Band) -> bool
        ensures { IsTrue result ↔ InBand band (int_max (least_of self.now) floor)
            × InBand band (int_max (greatest_of self.now) floor) }
    {
        band.holds(self.least().max(floor)) && band.holds(self.greatest().max(floor))
    }

    /// Makes a place at the row where the column can change, if there is none.
    pub fn cut(&mut self, alloc: Global, row: i64) -> Result<(), NoMemory>
        requires sound { IsSound self.old }
        ensures sound { IsSound self.new }
        ensures same { (y : ℤ) → column_at self.new y ≡ column_at self.old y }
        ensures least { least_of self.new ≡ least_of self.old }
        ensures greatest { greatest_of self.new ≡ greatest_of self.old }
        ensures kept { (y : ℤ) → IsCut self.old y → IsCut self.new y }
        ensures cut { OnOk result (IsCut self.new row) }
    {
        match self {
            RowTree::Flat(column) => {
                let column = *column;
                *self = RowTree::parted(
                    alloc,
                    column,
                    row,
                    RowTree::Flat(column),
                    RowTree::Flat(column),
                )?;
                Ok(())
            }
            RowTree::Parted(parts) => {
                if row < parts.middle {
                    parts.low.cut(alloc, row)
                } else if parts.middle < row {
                    parts.high.cut(alloc, row)
                } else {
                    Ok(())
                }
            }
        }
    }

    /// Raises these rows to the column, where theirs is less.
    pub fn raise(&mut self, rows: Option<Span>, column: i64)
        requires sound { IsSound self.old }
        requires cut { (y : ℤ) → IsEdge rows y → IsCut self.old y }
        ensures sound { IsSound self.new }
        ensures inside { (y : ℤ) → InRows rows y
            → column_at self.new y ≡ int_max (column_at self.old y) column }
        ensures outside { (y : ℤ) → (InRows rows y → ⊥)
            → column_at self.new y ≡ column_at self.old y }
    {
        let Some(span) = rows else {
            return;
        };
        if column <= self.least() {
            return;
        }
        match self {
            RowTree::Flat(all) => *all = (*all).max(column),
            RowTree::Parted(parts) => {
                if span.is_all() {
                    parts.lift(column);
                } else {
                    let middle = parts.middle;
                    parts.low.raise(span.below(middle), column);
                    parts.high.raise(span.above(middle), column);
                    parts.settle();
                }
            }
        }
    }
}

impl Parts {
    /// Raises all rows to the column, where theirs is less.
    fn lift(&mut self, column: i64)
        ensures { self.new ≡ lifted self.old column }
    {
        self.floor = self.floor.max(column);
        self.settle();
    }

    /// Finds the least and the greatest column of the rows anew.
    fn settle(&mut self)
        ensures { self.new ≡ settled self.old }
    {
        let least = self.low.least().min(self.high.least());
        let greatest = self.low.greatest().max(self.high.greatest());
        self.least = least.max(self.floor);
        self.greatest = greatest.max(self.floor);
    }
}
