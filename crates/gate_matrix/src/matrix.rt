// The tiles of a gate matrix.

ghost use Rattle.std.specs.Prelude.{◌≡◌, ◌<◌, ◌≤◌, ◌^◌, length, IfOk};
ghost use Rattle.gate_matrix.specs.Columns.{AreWires};
ghost use Rattle.gate_matrix.specs.Cells.{matrix_tile};

use crate::column::{Column, columns_of};
use crate::row::{Row, cell};
use micro_tiles::Tile;
use rx_text::NoMemory;
use std::alloc::Global;
use std::marker::Model;

/// Rows and columns of a gate matrix, and the columns of the poly of its nets. Its tiles are made one by one, so that a layout that
/// is larger than a grid may be drawn row by row.
#[derive(Drop)]
pub struct Matrix {
    rows: Vec<Row>,
    at: Vec<u32>,
    columns: Vec<Column>,
}

impl Model for Matrix {
    ghost use Rattle.std.specs.Prelude.{◌≡◌, length, map};
    ghost use Rattle.std.specs.List.{range_with_len};
    ghost use Rattle.gate_matrix.specs.Columns.{column_of};
    ghost use Rattle.gate_matrix.specs.Cells as cells;

    ghost Value = { cells.Matrix };

    ghost view = { λ m. record { rows = m.rows.items; at = m.at.items; cols = length m.columns.items } };

    ghost invariant = { λ m. m.columns.items ≡ map (column_of m.at.items) (range_with_len 0 (length m.columns.items)) };
}

impl Matrix {
    /// The matrix of these rows, whose nets have their poly in the columns `at`.
    pub fn new(alloc: Global, rows: Vec<Row>, at: Vec<u32>, cols: u32) -> Result<Matrix, NoMemory>
        requires { AreWires at.items cols }
        ensures { IfOk result (λ matrix. matrix ≡ record { rows = rows.items; at = at.items; cols = cols }) }
    {
        let columns = columns_of(alloc, &at, cols)?;
        Ok(Matrix { rows, at, columns })
    }

    /// How many nets have poly in it.
    pub fn nets(&self) -> u32
        requires { length self.now.at ≤ 2 ^ 16 }
        ensures { result ≡ length self.now.at }
    {
        self.at.len() as u32
    }

    /// The tile in this row and column.
    pub fn tile(&self, row: usize, col: usize) -> Tile
        requires is_row { row < length self.now.rows }
        requires is_col { col < self.now.cols }
        ensures { result ≡ matrix_tile self.now row col }
    {
        cell(
            &self.rows[row],
            self.columns[col],
            col + 1 == self.columns.len(),
        )
        .tile()
    }
}
