// The boxes of tiles.

ghost use Rattle.std.specs.Prelude.{◌≡◌, ◌<◌, ◌≤ℤ◌, pos, length, slice_get};
ghost use Rattle.micro_tiles.specs.Boxes.{near_edge, far_edge, upright, level, boxes_of, mirrored_box, IsInTile};
ghost use Rattle.micro_tiles.specs.Slots.{present, listed, pad_if, cut_if, wires};
ghost use Rattle.micro_tiles.specs.Table.{boxes};

use crate::design::{Arms, Design};
use crate::table::NO_ARMS;
use crate::tile::Tile;
use geom::{Box2, Layer, Orient, place};

/// How wide and high a tile is, in lambda.
pub const TILE_SIDE: i64 = 14;

/// The mirror over the diagonal from north-west to south-east, but for a move by the side of a tile.
const MIRROR: Orient = Orient {
    swap: true,
    neg_x: true,
    neg_y: true,
};

/// The greatest number of boxes that a design may have.
const SLOTS: usize = 6;

/// How many boxes the tile has.
pub fn box_count(tile: Tile) -> usize
    ensures { result ≡ length (boxes tile) }
{
    let mut count = 0;
    for slot in slots(tile.design()) {
        if slot.is_some() {
            count += 1;
        }
    }
    count
}

/// One of the boxes of the tile, in lambda from the tile's lower left corner.
pub fn box_at(tile: Tile, index: usize) -> Box2
    requires { index < length (boxes tile) }
    ensures drawn { slice_get (boxes tile) index ≡ Some result }
    ensures within { IsInTile result }
{
    let drawn = box_of(tile.design(), index);
    if tile.is_transpose() {
        mirrored(drawn.unwrap())
    } else {
        drawn.unwrap()
    }
}

/// One of the boxes of the design, if it has so many.
fn box_of(design: Design, index: usize) -> Option<Box2>
    ensures { result ≡ slice_get (boxes_of design) index }
{
    let mut left = index;
    for slot in slots(design) {
        if slot.is_some() {
            if left == 0 {
                return slot;
            }
            left -= 1;
        }
    }
    None
}

/// The mirror image of a box of a tile over the tile's diagonal from north-west to south-east.
fn mirrored(b: Box2) -> Box2
    requires { IsInTile b }
    ensures { result ≡ mirrored_box b }
{
    place(b, MIRROR, TILE_SIDE, TILE_SIDE).unwrap()
}

/// The boxes of the design in order; a slot is empty where the design has no such box.
fn slots(design: Design) -> [Option<Box2>; SLOTS]
    ensures { present result ≡ boxes_of design }
{
    match design {
        Design::Empty => wires(NO_ARMS, Layer::Poly, NO_ARMS, false),
        Design::Metal(arms) => wires(arms, Layer::Poly, NO_ARMS, false),
        Design::Poly(arms) => wires(NO_ARMS, Layer::Poly, arms, false),
        Design::Crossing(metal, arms) => wires(metal, Layer::Poly, arms, false),
        Design::Contact(metal, layer, arms) => wires(metal, layer, arms, true),
        Design::Pass => [
            Box2::new(Layer::Diffusion, 5, 0, 9, 14),
            Box2::new(Layer::Poly, 0, 6, 11, 8),
            None,
            None,
            None,
            None,
        ],
        Design::Load => [
            Box2::new(Layer::Diffusion, 6, 0, 8, 14),
            Box2::new(Layer::Poly, 4, 3, 10, 11),
            Box2::new(Layer::Poly, 10, 6, 14, 8),
            Box2::new(Layer::Implant, 4, 1, 10, 13),
            None,
            None,
        ],
    }
}

/// The boxes of wires of metal and of another layer, which may meet under a cut.
fn wires(metal: Arms, layer: Layer, arms: Arms, cut: bool) -> [Option<Box2>; SLOTS]
    ensures { present result ≡ wires metal layer arms cut }
{
    [
        upright(Layer::Metal, metal),
        level(Layer::Metal, metal),
        upright(layer, arms),
        level(layer, arms),
        pad(cut, layer),
        hole(cut),
    ]
}

/// The box that widens a wire of the layer under a cut: poly is narrower than a contact.
fn pad(cut: bool, layer: Layer) -> Option<Box2>
    ensures { listed result ≡ pad_if cut layer }
{
    match (cut, layer) {
        (true, Layer::Poly) => Box2::new(Layer::Poly, 5, 5, 9, 9),
        _ => None,
    }
}

/// The box of a cut.
fn hole(cut: bool) -> Option<Box2>
    ensures { listed result ≡ cut_if cut }
{
    if cut {
        Box2::new(Layer::Cut, 6, 6, 8, 8)
    } else {
        None
    }
}

/// The box of wires that lead north and south, if any do.
fn upright(layer: Layer, arms: Arms) -> Option<Box2>
    ensures { listed result ≡ upright layer arms }
{
    if arms.north || arms.south {
        let (low, high) = (near_edge(layer, arms.south), far_edge(layer, arms.north));
        Box2::new(
            layer,
            near_edge(layer, false),
            low,
            far_edge(layer, false),
            high,
        )
    } else {
        None
    }
}

/// The box of wires that lead east and west, if any do.
fn level(layer: Layer, arms: Arms) -> Option<Box2>
    ensures { listed result ≡ level layer arms }
{
    if arms.east || arms.west {
        let (low, high) = (near_edge(layer, arms.west), far_edge(layer, arms.east));
        Box2::new(
            layer,
            low,
            near_edge(layer, false),
            high,
            far_edge(layer, false),
        )
    } else {
        None
    }
}

/// The south or west edge of a wire, which reaches the border where `out` is set.
fn near_edge(layer: Layer, out: bool) -> i64
    ensures value { result ≡ near_edge layer out }
    ensures low { pos 0 ≤ℤ result }
    ensures high { result ≤ℤ pos 6 }
{
    match (out, layer) {
        (true, _) => 0,
        (false, Layer::Poly) => 6,
        (false, _) => 5,
    }
}

/// The north or east edge of a wire, which reaches the border where `out` is set.
fn far_edge(layer: Layer, out: bool) -> i64
    ensures value { result ≡ far_edge layer out }
    ensures low { pos 8 ≤ℤ result }
    ensures high { result ≤ℤ pos 14 }
{
    match (out, layer) {
        (true, _) => TILE_SIDE,
        (false, Layer::Poly) => 8,
        (false, _) => 9,
    }
}
