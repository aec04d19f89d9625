// The frame of a raster: the least rectangle round boxes, with an empty square on all sides.

ghost use Rattle.std.specs.Prelude.{◌≡◌, ◌<◌, ◌≤◌, ◌+◌, ◌*◌, ◌∷◌, ◌++◌, [], ℕ, List, None, Some, IfSome, IfNone, ℤ, pos, ◌+ℤ◌, ◌≤ℤ◌, neg_ℤ, ◌^◌};
ghost use Rattle.geom.specs.Squares.{BoxShape, IsBox, IsSide};
ghost use Rattle.geom.specs.Rows.{Among};
ghost use Rattle.nmos_model.specs.Extents.{IsExtent, IsFrameOf, IsFramed, IsTooWide, IsWide, around, edges_of};

use crate::raster::Frame;
use geom::Box2;

/// The most squares of the least rectangle.
const MOST_SQUARES: u128 = 4_000_000;

/// A rectangle by its edges, in lambda.
#[derive(Clone, Copy, Debug, PartialEq, Eq)]
pub(crate) struct Extent {
    pub x1: i64,
    pub y1: i64,
    pub x2: i64,
    pub y2: i64,
}

/// The frame of the boxes; `None` exactly where the least rectangle round them has more than 4,000,000 squares.
pub(crate) fn frame_of(boxes: &[Box2]) -> Option<Frame>
    ensures frame { IfSome result (IsFrameOf boxes.now) }
    ensures narrow { IfSome result (λ frame. IsTooWide boxes.now → ⊥) }
    ensures wide { IfNone result (IsTooWide boxes.now) }
{
    match least_extent(boxes) {
        Some(extent) => framed(extent),
        None => Some(Frame {
            x: 0,
            y: 0,
            width: 2,
            height: 2,
        }),
    }
}

/// The least rectangle round the boxes, if there are any.
fn least_extent(boxes: &[Box2]) -> Option<Extent>
    ensures some { IfSome result (IsExtent boxes.now) }
    ensures none { IfNone result (boxes.now ≡ []) }
    ensures valid { (b : BoxShape) → Among boxes.now b → IsBox b }
{
    let mut extent = None;
    for b in boxes {
        extent = Some(grown(extent, b));
    }
    extent
}

/// The least rectangle round one more box.
fn grown(extent: Option<Extent>, b: &Box2) -> Extent
    ensures first { extent ≡ None → result ≡ edges_of b.now }
    ensures more { (e : Extent) → extent ≡ Some e → result ≡ around e (edges_of b.now) }
    ensures valid { IsBox b.now }
{
    let edges = edges(b);
    match extent {
        None => edges,
        Some(e) => around(e, edges),
    }
}

/// The edges of the box.
fn edges(b: &Box2) -> Extent
    ensures edges { result ≡ edges_of b.now }
    ensures valid { IsBox b.now }
{
    Extent {
        x1: b.x1,
        y1: b.y1,
        x2: b.x2,
        y2: b.y2,
    }
}

/// The least rectangle round two.
fn around(one: Extent, other: Extent) -> Extent
    ensures { result ≡ around one other }
{
    Extent {
        x1: one.x1.min(other.x1),
        y1: one.y1.min(other.y1),
        x2: one.x2.max(other.x2),
        y2: one.y2.max(other.y2),
    }
}

/// The frame round the rectangle, if that has not too many squares.
fn framed(e: Extent) -> Option<Frame>
    requires across { IsSide e.x1 e.x2 }
    requires upward { IsSide e.y1 e.y2 }
    ensures framed { IfSome result (IsFramed e) }
    ensures wide { IfNone result (IsWide e) }
{
    let width = side(e.x1, e.x2);
    let height = side(e.y1, e.y2);
    if u128::from(width) * u128::from(height) > MOST_SQUARES {
        return None;
    }
    Some(Frame {
        x: before(e.x1),
        y: before(e.y1),
        width: width as u32 + 2,
        height: height as u32 + 2,
    })
}

/// How far the second edge is from the first.
fn side(from: i64, to: i64) -> u64
    requires { IsSide from to }
    ensures side { to ≡ from +ℤ pos result }
    ensures some { 0 < result }
{
    (to - from) as u64
}

/// The edge before this one.
fn before(edge: i64) -> i64
    requires { neg_ℤ (pos (2 ^ 40)) ≤ℤ edge }
    ensures { edge ≡ result +ℤ pos 1 }
{
    edge - 1
}
