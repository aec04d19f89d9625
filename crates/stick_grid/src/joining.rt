// Grids made of others.

ghost use Rattle.std.specs.Prelude.{◌≡◌, ◌+◌, ◌<◌, IfOk};
ghost use Rattle.stick_grid.specs.Joins.{IsTransposed, MeetsRight, MeetsBelow, IsBeside, IsAbove, tile_of_two};

use crate::grid::Grid;
use crate::place::{Place, place_of};
use micro_tiles::{Tile, transposed};
use rx_text::NoMemory;
use std::alloc::Global;

impl Grid {
    /// Its mirror image over the diagonal from north-west to south-east: the tile in row `r` and column `c` is the
    /// transpose of the tile that this grid has in row `c` and column `r`.
    ///
    /// # Errors
    ///
    /// `NoMemory` where an allocation was refused.
    pub fn transpose(&self, alloc: Global) -> Result<Grid, NoMemory>
        ensures { IfOk result (λ made. IsTransposed self.now made) }
    {
        let (rows, cols) = (self.cols(), self.rows());
        let mut tiles = Vec::new(alloc);
        for before in 0..self.size() {
            let at = place_of(before, cols);
            tiles.push(transposed(self.tile_at(at.col, at.row)))?;
        }
        Grid::new(alloc, rows, cols, tiles)
    }

    /// The grid with the other to the east of it. The sides that meet are equal in length and port by port, and the two
    /// have at most 2^20 columns together.
    ///
    /// # Errors
    ///
    /// `NoMemory` where an allocation was refused.
    pub fn beside(self, alloc: Global, right: Grid) -> Result<Grid, NoMemory>
        requires { MeetsRight self right }
        ensures { IfOk result (λ made. IsBeside self right made) }
    {
        let (rows, cols) = (self.rows(), self.cols() + right.cols());
        let mut tiles = Vec::new(alloc);
        for before in 0..self.size() + right.size() {
            tiles.push(tile_of_two(&self, &right, place_of(before, cols)))?;
        }
        Grid::new(alloc, rows, cols, tiles)
    }

    /// The grid with the other to the south of it. The sides that meet are equal in length and port by port, and the two
    /// have at most 2^20 rows together.
    ///
    /// # Errors
    ///
    /// `NoMemory` where an allocation was refused.
    pub fn above(self, alloc: Global, below: Grid) -> Result<Grid, NoMemory>
        requires { MeetsBelow self below }
        ensures { IfOk result (λ made. IsAbove self below made) }
    {
        let (rows, cols) = (self.rows() + below.rows(), self.cols());
        let mut tiles = self.into_tiles();
        tiles.extend_from_slice(&below.into_tiles())?;
        Grid::new(alloc, rows, cols, tiles)
    }
}

/// The tile at the place in two grids side by side.
fn tile_of_two(left: &Grid, right: &Grid, at: Place) -> Tile
    requires rows { left.now.rows ≡ right.now.rows }
    requires is_row { at.row < left.now.rows }
    requires is_col { at.col < left.now.cols + right.now.cols }
    ensures { result ≡ tile_of_two left.now right.now at.row at.col }
{
    if at.col < left.cols() {
        left.tile_at(at.row, at.col)
    } else {
        right.tile_at(at.row, at.col - left.cols())
    }
}
