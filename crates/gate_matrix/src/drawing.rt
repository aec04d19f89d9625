// Parts drawn as grids of tiles.

ghost use Rattle.std.specs.Prelude.{◌≡◌, ◌≤◌, ◌^◌, ◌++◌, IfOk, OnOk};
ghost use Rattle.stick_grid.specs.Windows.{tiling_of};
ghost use Rattle.gate_matrix.specs.Cells.{row_tiles};
ghost use Rattle.gate_matrix.specs.Drawn.{FitsPart, part_plan};
ghost use Rattle.gate_matrix.specs.Modules.{IsPartGrid};

use crate::column::{Column, columns_of};
use crate::laws::{matrices_are_plans, parts_are_modules};
use crate::part_rows::part_rows;
use crate::row::{Row, cell};
use micro_tiles::Tile;
use nor_net::Part;
use rx_text::NoMemory;
use std::alloc::Global;
use stick_grid::Grid;
use stick_grid::laws::same_tiles_agree;

/// The part as a grid of tiles. Each net has poly from the north to the south border in the column that `at` has for it, and the
/// devices that it gates in the column behind; columns 0 and 1 hold loads. Rows that the part does not need stand north. The nets and
/// devices of the tiles are the part's.
///
/// # Errors
///
/// `NoMemory` where an allocation was refused.
pub fn draw(alloc: Global, part: &Part, at: &[u32], rows: u32, cols: u32) -> Result<Grid, NoMemory>
    requires few_rows { rows ≤ 2 ^ 20 }
    requires few_cols { cols ≤ 2 ^ 20 }
    requires room { FitsPart part.now at.now rows cols }
    ensures tiles { IfOk result (λ grid. grid ≡ tiling_of (part_plan part.now at.now rows cols)) }
    ensures network { IfOk result (IsPartGrid part.now at.now rows cols) }
{
    same_tiles_agree();
    matrices_are_plans();
    parts_are_modules();
    let columns = columns_of(alloc, at, cols)?;
    let list = part_rows(alloc, part, rows)?;
    let mut tiles = Vec::new(alloc);
    for row in &list {
        add_tiles(row, &columns, &mut tiles)?;
    }
    Ok(Grid::new(alloc, rows, cols, tiles)?)
}

/// Adds the tiles of a row.
fn add_tiles(row: &Row, columns: &[Column], tiles: &mut Vec<Tile>) -> Result<(), NoMemory>
    ensures { OnOk result (tiles.new.items ≡ tiles.old.items ++ row_tiles row.now columns.now) }
{
    for col in 0..columns.len() {
        tiles.push(cell(row, columns[col], col + 1 == columns.len()).tile())?;
    }
    Ok(())
}
