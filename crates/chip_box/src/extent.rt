// The box of a chip.

ghost use Rattle.std.specs.Prelude.{◌≡◌, ◌≢◌, ◌⊎◌, ◌<ℤ◌, ◌≤ℤ◌, ◌+ℤ◌, pos, List, [], ◌∷◌, ◌++◌, length, map, All};
ghost use Rattle.geom.specs.Squares.{BoxShape};
ghost use Rattle.geom.specs.Chips.{IsBoxOf};
ghost use Rattle.cif_write.specs.WrittenChips.{chip_boxes, shifted};
ghost use Rattle.chip_box.specs.Extents.{IsEdgeBefore, IsEdgeBehind, IsExtent, IsMeasured, IsNear, IsNumber, IsReached, IsWithinReach, Measures};

use geom::{Box2, Call, Chip, Rect};

/// The edges of the least rectangle round some boxes.
#[derive(Clone, Copy, Debug, PartialEq, Eq)]
pub(crate) struct Extent {
    pub west: i64,
    pub south: i64,
    pub east: i64,
    pub north: i64,
}

/// The least rectangle with corners at multiples of 14 lambda, the side of a tile, that contains all boxes of the chip. Each call's
/// kind is one of the chip's, the places of calls are within 2^41 of the origin, and some called kind has a box. It takes no memory.
pub fn box_of(chip: &Chip) -> Rect
    requires calls { All (IsMeasured (length chip.now.kinds)) chip.now.calls }
    requires some { chip_boxes chip.now ≢ [] }
    ensures { IsBoxOf (chip_boxes chip.now) result }
{
    let mut extent = None;
    for call in chip.calls() {
        extent = with_boxes(extent, chip.kinds()[call.kind as usize].boxes(), *call);
    }
    tiles_round(extent.unwrap())
}

/// The extent of what was measured and of these boxes at the place of a call.
fn with_boxes(extent: Option<Extent>, boxes: &[Box2], call: Call) -> Option<Extent>
    requires x { IsNear call.x }
    requires y { IsNear call.y }
    ensures { (measured : List BoxShape) → IsExtent measured extent → IsExtent (measured ++ map (shifted call.x call.y) boxes.now) result }
{
    let mut extent = extent;
    for b in boxes {
        extent = Some(with_box(extent, *b, call));
    }
    extent
}

/// The extent of what was measured and of the box at the place of a call.
fn with_box(extent: Option<Extent>, b: Box2, call: Call) -> Extent
    requires x { IsNear call.x }
    requires y { IsNear call.y }
    ensures { (measured : List BoxShape) → IsExtent measured extent → Measures (measured ++ shifted call.x call.y b ∷ []) result }
{
    let own = placed(b, call);
    match extent {
        None => own,
        Some(so_far) => joined(so_far, own),
    }
}

/// The extent of the box at the place of a call.
fn placed(b: Box2, call: Call) -> Extent
    requires x { IsNear call.x }
    requires y { IsNear call.y }
    ensures { Measures (shifted call.x call.y b ∷ []) result }
{
    Extent {
        west: moved(b.x1, call.x),
        south: moved(b.y1, call.y),
        east: moved(b.x2, call.x),
        north: moved(b.y2, call.y),
    }
}

/// An edge, moved.
fn moved(edge: i64, by: i64) -> i64
    requires edge { IsNear edge }
    requires by { IsNear by }
    ensures value { result ≡ edge +ℤ by }
    ensures reached { IsReached result }
{
    edge + by
}

/// The extent of the boxes of both.
fn joined(one: Extent, other: Extent) -> Extent
    ensures { (boxes more : List BoxShape) → Measures boxes one → Measures more other → Measures (boxes ++ more) result }
{
    Extent {
        west: lesser(one.west, other.west),
        south: lesser(one.south, other.south),
        east: greater(one.east, other.east),
        north: greater(one.north, other.north),
    }
}

/// The lesser one of two numbers.
fn lesser(one: i64, other: i64) -> i64
    ensures first { result ≤ℤ one }
    ensures second { result ≤ℤ other }
    ensures either { (result ≡ one) ⊎ (result ≡ other) }
{
    if one <= other { one } else { other }
}

/// The greater one of two numbers.
fn greater(one: i64, other: i64) -> i64
    ensures first { one ≤ℤ result }
    ensures second { other ≤ℤ result }
    ensures either { (result ≡ one) ⊎ (result ≡ other) }
{
    if one <= other { other } else { one }
}

/// The least rectangle of whole tiles round the extent.
fn tiles_round(extent: Extent) -> Rect
    requires within { IsWithinReach extent }
    requires across { extent.west <ℤ extent.east }
    requires upward { extent.south <ℤ extent.north }
    ensures west { IsEdgeBefore extent.west result.x }
    ensures south { IsEdgeBefore extent.south result.y }
    ensures east { IsEdgeBehind extent.east (result.x +ℤ pos result.width) }
    ensures north { IsEdgeBehind extent.north (result.y +ℤ pos result.height) }
{
    let (x, y) = (edge_before(extent.west), edge_before(extent.south));
    Rect {
        x,
        y,
        width: distance(x, edge_behind(extent.east)),
        height: distance(y, edge_behind(extent.north)),
    }
}

/// How far the second number lies behind the first.
fn distance(from: i64, to: i64) -> u64
    requires order { from ≤ℤ to }
    requires from { IsNumber from }
    requires to { IsNumber to }
    ensures { from +ℤ pos result ≡ to }
{
    (to - from) as u64
}

/// The last multiple of 14 that is not behind the edge.
fn edge_before(edge: i64) -> i64
    requires { IsReached edge }
    ensures { IsEdgeBefore edge result }
{
    edge - edge.rem_euclid(14)
}

/// The first multiple of 14 that is not before the edge.
fn edge_behind(edge: i64) -> i64
    requires { IsReached edge }
    ensures { IsEdgeBehind edge result }
{
    -edge_before(-edge)
}
