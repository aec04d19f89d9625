// The tiles of an array.

ghost use Rattle.std.specs.Prelude.{◌≡◌, ◌<◌, ◌++◌, map, IfOk, OnOk};
ghost use Rattle.std.specs.List.{range_with_len};
ghost use Rattle.stick_grid.specs.Windows.{tiling_of};
ghost use Rattle.pla_plan.specs.Planes.{plane_rows, plane_tile, planes_tile, planes_plan};
ghost use Rattle.pla_plan.specs.Fits.{IsArray};

use crate::laws::planes_are_plans;
use crate::plane_parts::{caps, left_matrix, lower_matrix, right_matrix};
use crate::planes::Planes;
use gate_matrix::Matrix;
use gate_matrix::laws::parts_fill_rows;
use micro_tiles::{Basic, Tile, transposed};
use rx_text::NoMemory;
use std::alloc::Global;
use std::marker::Model;
use stick_grid::Grid;
use stick_grid::laws::same_tiles_agree;

/// A programmable logic array as rows and columns of tiles, each of which is told by its row and column: the two planes, the row
/// between them and the part, and the part.
#[derive(Drop)]
pub struct Pla {
    planes: Planes,
    left: Matrix,
    right: Matrix,
    caps: Vec<Basic>,
    part: Matrix,
}

impl Model for Pla {
    ghost use Rattle.pla_plan.specs.Planes.{PlaneTables};
    ghost use Rattle.pla_plan.specs.Made.{MakesTiles};

    ghost Value = { PlaneTables };

    ghost view = { λ p. p.planes };

    ghost invariant = { λ p. MakesTiles p.planes p.left p.right p.caps.items p.part };
}

impl Pla {
    /// The array with these planes.
    ///
    /// # Errors
    ///
    /// `NoMemory` where an allocation was refused.
    pub fn new(alloc: Global, planes: Planes) -> Result<Pla, NoMemory>
        ensures { IfOk result (λ pla. pla ≡ planes) }
    {
        let left = left_matrix(alloc, &planes)?;
        let right = right_matrix(alloc, &planes)?;
        let caps = caps(alloc, &planes)?;
        let part = lower_matrix(alloc, &planes)?;
        Ok(Pla {
            planes,
            left,
            right,
            caps,
            part,
        })
    }

    /// How many rows of tiles it has.
    pub fn rows(&self) -> u32
        ensures number { result ≡ self.now.rows }
        ensures array { IsArray self.now }
    {
        self.planes.rows()
    }

    /// How many columns of tiles it has.
    pub fn cols(&self) -> u32
        ensures number { result ≡ self.now.cols }
        ensures array { IsArray self.now }
    {
        self.planes.cols()
    }

    /// The tile in this row and column, from the north and from the west.
    pub fn tile_at(&self, row: u32, col: u32) -> Tile
        requires is_row { row < self.now.rows }
        requires is_col { col < self.now.cols }
        ensures { result ≡ planes_tile self.now row col }
    {
        parts_fill_rows();
        let height = self.planes.plane_rows();
        if row < height {
            self.plane_tile(row, col)
        } else if row == height {
            self.caps[col as usize].tile()
        } else {
            self.part
                .tile(row as usize - height as usize - 1, col as usize)
        }
    }

    /// The tile in a row of the planes.
    fn plane_tile(&self, row: u32, col: u32) -> Tile
        requires { row < plane_rows self.now }
        ensures { result ≡ plane_tile self.now row col }
    {
        let from = self.planes.right_from() as usize;
        let col = col as usize;
        if col < from {
            self.left.tile(row as usize, col)
        } else if col < from + 8 * self.planes.sums().len() {
            transposed(self.right.tile(col - from, row as usize))
        } else {
            Basic::Empty.tile()
        }
    }

    /// Its tiles as a grid.
    ///
    /// # Errors
    ///
    /// `NoMemory` where an allocation was refused.
    pub fn grid(&self, alloc: Global) -> Result<Grid, NoMemory>
        ensures { IfOk result (λ grid. grid ≡ tiling_of (planes_plan self.now)) }
    {
        same_tiles_agree();
        planes_are_plans();
        let mut tiles = Vec::new(alloc);
        for row in 0..self.rows() {
            self.add_row(row, &mut tiles)?;
        }
        Ok(Grid::new(alloc, self.rows(), self.cols(), tiles)?)
    }

    /// Adds the tiles of a row.
    pub(crate) fn add_row(&self, row: u32, tiles: &mut Vec<Tile>) -> Result<(), NoMemory>
        requires { row < self.now.rows }
        ensures { OnOk result (tiles.new.items ≡ tiles.old.items ++ map (planes_tile self.now row) (range_with_len 0 self.now.cols)) }
    {
        for col in 0..self.cols() {
            tiles.push(self.tile_at(row, col))?;
        }
        Ok(())
    }
}
