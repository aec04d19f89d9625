// The boxes of grids.

ghost use Rattle.std.specs.Prelude.{◌≡◌, ◌↔◌, ◌^◌, ◌<◌, ◌++◌, ℤ, map, IfOk, OnOk};
ghost use Rattle.geom.specs.declared.layer.Layer.{Layer};
ghost use Rattle.geom.specs.Squares.{Covered};
ghost use Rattle.micro_tiles.specs.Boxes.{IsInTile};
ghost use Rattle.micro_tiles.specs.Table.{boxes};
ghost use Rattle.stick_grid.specs.PlanBoxes.{boxes_in_row, boxes_of_plan, tile_box};
ghost use Rattle.stick_grid.specs.Plans.{plan_of, Covers};

use crate::grid::Grid;
use geom::{Box2, Orient, place};
use micro_tiles::{TILE_SIDE, Tile, box_at, box_count};
use rx_text::NoMemory;
use std::alloc::Global;

/// No turn.
const STRAIGHT: Orient = Orient {
    swap: false,
    neg_x: false,
    neg_y: false,
};

impl Grid {
    /// The boxes of its tiles, in lambda: those of each tile in order, tile by tile, row by row from the north. The tile in row
    /// `r` and column `c` has its lower left corner at (14 `c`, 14 (`rows` - 1 - `r`)).
    ///
    /// # Errors
    ///
    /// `NoMemory` where an allocation was refused.
    pub fn boxes(&self, alloc: Global) -> Result<Vec<Box2>, NoMemory>
        ensures boxes { IfOk result (λ drawn. drawn.items ≡ boxes_of_plan (plan_of self.now)) }
        ensures squares { IfOk result (λ drawn. (layer : Layer) (x y : ℤ) → Covered drawn.items layer x y ↔ Covers (plan_of self.now) layer x y) }
    {
        let mut drawn = Vec::new(alloc);
        for row in 0..self.rows() {
            self.add_row(row, &mut drawn)?;
        }
        Ok(drawn)
    }

    /// Adds the boxes of the tiles of a row.
    fn add_row(&self, row: u32, drawn: &mut Vec<Box2>) -> Result<(), NoMemory>
        requires { row < self.now.rows }
        ensures { OnOk result (drawn.new.items ≡ drawn.old.items ++ boxes_in_row (plan_of self.now) row) }
    {
        let north = self.rows() - 1 - row;
        for col in 0..self.cols() {
            add_tile(self.tile_at(row, col), col, north, drawn)?;
        }
        Ok(())
    }
}

/// Adds the boxes of the tile, which lies so many tiles to the east and to the north of the origin.
fn add_tile(tile: Tile, east: u32, north: u32, drawn: &mut Vec<Box2>) -> Result<(), NoMemory>
    requires east { east < 2 ^ 20 }
    requires north { north < 2 ^ 20 }
    ensures { OnOk result (drawn.new.items ≡ drawn.old.items ++ map (tile_box east north) (boxes tile)) }
{
    for index in 0..box_count(tile) {
        drawn.push(moved(box_at(tile, index), east, north))?;
    }
    Ok(())
}

/// The box of a tile, moved by so many tiles to the east and to the north.
fn moved(b: Box2, east: u32, north: u32) -> Box2
    requires within { IsInTile b }
    requires east { east < 2 ^ 20 }
    requires north { north < 2 ^ 20 }
    ensures { result ≡ tile_box east north b }
{
    place(
        b,
        STRAIGHT,
        TILE_SIDE * i64::from(east),
        TILE_SIDE * i64::from(north),
    )
    .unwrap()
}
