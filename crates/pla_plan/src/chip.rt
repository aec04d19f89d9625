// The chip of an array, row by row.

ghost use Rattle.std.specs.Prelude.{◌≡◌, ◌≢◌, ◌↔◌, ◌<◌, ◌*◌, ◌^◌, ℤ, pos, length, slice_get, All, IsTrue, IfOk, IfSome, IfNone};
ghost use Rattle.geom.specs.declared.layer.Layer.{Layer};
ghost use Rattle.geom.specs.Chips.{ChipCovers};
ghost use Rattle.stick_grid.specs.Plans.{Covers};
ghost use Rattle.pla_plan.specs.Planes.{planes_plan};
ghost use Rattle.pla_plan.specs.RowChips.{DrawsRow, IsRowChip, KindsAreRows};
ghost use Rattle.pla_plan.specs.Numbered.{IsNumbered};

use crate::laws::{planes_are_plans, row_chips_cover_plans, row_chips_have_rows};
use crate::pla::Pla;
use geom::{Box2, Call, Chip, Kind, Label, merge_runs};
use micro_tiles::TILE_SIDE;
use rx_text::NoMemory;
use std::alloc::Global;
use stick_grid::Grid;
use stick_grid::laws::{same_tiles_agree, windows_keep_plans};

impl Pla {
    /// The array as a chip with these labels. It draws each row of tiles by one call, at x = 0 and a multiple of 14 as y, from the north
    /// to the south; rows of the same squares share one kind, whose boxes are merged.
    ///
    /// # Errors
    ///
    /// `NoMemory` where an allocation was refused.
    pub fn chip(&self, alloc: Global, labels: Vec<Label>) -> Result<Chip, NoMemory>
        ensures rows { IfOk result (λ chip. IsRowChip (planes_plan self.now) chip) }
        ensures squares { IfOk result (λ chip. (layer : Layer) (x y : ℤ) → ChipCovers chip layer x y ↔ Covers (planes_plan self.now) layer x y) }
        ensures within { IfOk result (λ chip. KindsAreRows chip) }
        ensures labels { IfOk result (λ chip. chip.labels ≡ labels.items) }
    {
        planes_are_plans();
        row_chips_cover_plans();
        row_chips_have_rows();
        let rows = self.rows();
        let mut kinds = Vec::new(alloc);
        let mut calls = Vec::new(alloc);
        for row in 0..rows {
            let boxes = self.row_boxes(alloc, row)?;
            let kind = number_of(&mut kinds, boxes)?;
            calls.push(row_call(kind, rows - 1 - row))?;
        }
        Ok(Chip::new(kinds, calls, labels))
    }

    /// The merged boxes of a row, with its lower edge at y = 0.
    fn row_boxes(&self, alloc: Global, row: u32) -> Result<Vec<Box2>, NoMemory>
        requires { row < self.now.rows }
        ensures { IfOk result (λ boxes. DrawsRow (planes_plan self.now) row boxes.items) }
    {
        planes_are_plans();
        same_tiles_agree();
        windows_keep_plans();
        let mut tiles = Vec::new(alloc);
        self.add_row(row, &mut tiles)?;
        let grid = Grid::new(alloc, 1, self.cols(), tiles)?;
        let boxes = grid.boxes(alloc)?;
        let merged = merge_runs(alloc, &boxes)?;
        Ok(merged)
    }
}

/// The call of this kind for the row with so many rows to the south of it.
fn row_call(kind: u32, south: u32) -> Call
    requires { south < 2 ^ 20 }
    ensures { result ≡ record { kind = kind; x = pos 0; y = pos (14 * south) } }
{
    Call {
        kind,
        x: 0,
        y: TILE_SIDE * i64::from(south),
    }
}

/// The number of the kind of these boxes, which is added where there is none.
fn number_of(kinds: &mut Vec<Kind>, boxes: Vec<Box2>) -> Result<u32, NoMemory>
    requires { length kinds.old.items < 2 ^ 20 }
    ensures { IfOk result (λ number. IsNumbered kinds.old.items boxes.items number kinds.new.items) }
{
    match find(kinds, &boxes) {
        Some(number) => Ok(number),
        None => {
            let number = kinds.len() as u32;
            kinds.push(Kind::new(boxes))?;
            Ok(number)
        }
    }
}

/// The number of the kind of these boxes, where there is one.
fn find(kinds: &[Kind], boxes: &[Box2]) -> Option<u32>
    requires { length kinds.now < 2 ^ 20 }
    ensures found { IfSome result (λ number. slice_get kinds.now number ≡ Some boxes.now) }
    ensures none { IfNone result (All (λ kind. kind ≢ boxes.now) kinds.now) }
{
    for number in 0..kinds.len() {
        if same_boxes(kinds[number].boxes(), boxes) {
            return Some(number as u32);
        }
    }
    None
}

/// Whether the two lists are of the same boxes.
fn same_boxes(one: &[Box2], other: &[Box2]) -> bool
    ensures { IsTrue result ↔ (one.now ≡ other.now) }
{
    if one.len() != other.len() {
        return false;
    }
    for at in 0..one.len() {
        if !same_box(one[at], other[at]) {
            return false;
        }
    }
    true
}

/// Whether the two are one box.
fn same_box(one: Box2, other: Box2) -> bool
    ensures { IsTrue result ↔ (one ≡ other) }
{
    one.layer == other.layer
        && one.x1 == other.x1
        && one.y1 == other.y1
        && one.x2 == other.x2
        && one.y2 == other.y2
}
