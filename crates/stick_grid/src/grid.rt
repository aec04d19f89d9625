// Rows and columns of tiles.

ghost use Rattle.std.specs.Prelude.{◌≡◌, ◌*◌, ◌<◌, ◌≤◌, ◌^◌, Ok};
ghost use Rattle.stick_grid.specs.Tilings.{Tiling, IsTiling, tile_at};

use micro_tiles::Tile;
use rx_text::NoMemory;
use std::alloc::Global;
use std::marker::Model;

/// Rows and columns of tiles in which each port meets the same port. Row 0 is the northernmost, column 0 the
/// westernmost. There are at least one row and one column, and at most 2^20 of each. The lower left corner of the
/// squares is at (0, 0).
#[derive(Drop)]
pub struct Grid {
    rows: u32,
    cols: u32,
    tiles: Vec<Tile>,
}

impl Model for Grid {
    ghost use Rattle.stick_grid.specs.Tilings.{Tiling, IsTiling};

    ghost Value = { Tiling };

    ghost view = { λ g. record { rows = g.rows; cols = g.cols; tiles = g.tiles.items } };

    ghost invariant = { λ g. IsTiling (record { rows = g.rows; cols = g.cols; tiles = g.tiles.items }) };
}

impl Grid {
    /// The grid of these tiles, row by row: as many as `rows` times `cols`, both from 1 to 2^20, of which neighbours carry
    /// the same port on their common side.
    ///
    /// # Errors
    ///
    /// None: it takes no memory, since the tiles stay where they are.
    pub fn new(_alloc: Global, rows: u32, cols: u32, tiles: Vec<Tile>) -> Result<Grid, NoMemory>
        requires { IsTiling (record { rows = rows; cols = cols; tiles = tiles.items }) }
        ensures { result ≡ Ok (record { rows = rows; cols = cols; tiles = tiles.items }) }
    {
        Ok(Grid { rows, cols, tiles })
    }

    /// How many rows it has.
    pub fn rows(&self) -> u32
        ensures number { result ≡ self.now.rows }
        ensures tiling { IsTiling self.now }
    {
        self.rows
    }

    /// How many columns it has.
    pub fn cols(&self) -> u32
        ensures number { result ≡ self.now.cols }
        ensures tiling { IsTiling self.now }
    {
        self.cols
    }

    /// How many tiles it has.
    pub(crate) fn size(&self) -> usize
        ensures number { result ≡ self.now.rows * self.now.cols }
        ensures few { result ≤ 2 ^ 40 }
        ensures tiling { IsTiling self.now }
    {
        self.tiles.len()
    }

    /// The tile in this row and column.
    pub fn tile_at(&self, row: u32, col: u32) -> Tile
        requires is_row { row < self.now.rows }
        requires is_col { col < self.now.cols }
        ensures { result ≡ tile_at self.now row col }
    {
        self.tiles[row as usize * self.cols as usize + col as usize]
    }

    /// Its tiles, row by row.
    pub(crate) fn into_tiles(self) -> Vec<Tile>
        ensures { result.items ≡ self.tiles }
    {
        self.tiles
    }
}
