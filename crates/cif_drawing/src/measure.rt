// How many boxes there are, and how far they reach.

ghost use Rattle.std.specs.Prelude.{◌≡◌, true, ℕ, ◌+◌, ◌^◌};
ghost use Rattle.geom.specs.Squares.{IsBox};
ghost use Rattle.cif_drawing.specs.Placements.{placed, IsNear};
ghost use Rattle.cif_drawing.specs.Measures.{is_side, is_box, extent_box, RoundBoth};

use crate::placement::Placement;
use crate::wide_point::WidePoint;
use geom::{Box2, Layer};

/// The most boxes that a drawing may draw.
pub const MOST_BOXES: u64 = 8_000_000;

/// The farthest edge of a box, in lambda.
const FARTHEST_EDGE: i128 = 0x100_0000_0000;

/// A rectangle by its lower left and its upper right corner.
#[derive(Clone, Copy, Debug, PartialEq, Eq)]
pub struct Extent {
    pub low: WidePoint,
    pub high: WidePoint,
}

/// The number of boxes, or one more than may be drawn, and the least rectangle round them.
#[derive(Clone, Copy, Debug, PartialEq, Eq)]
pub struct Measure {
    pub count: u64,
    pub extent: Extent,
}

impl Extent {
    /// That of a box.
    pub fn of(b: Box2) -> Extent
        ensures reach { IsBox b }
        ensures low { result.low ≡ record { x = b.x1; y = b.y1 } }
        ensures high { result.high ≡ record { x = b.x2; y = b.y2 } }
    {
        Extent {
            low: WidePoint {
                x: i128::from(b.x1),
                y: i128::from(b.y1),
            },
            high: WidePoint {
                x: i128::from(b.x2),
                y: i128::from(b.y2),
            },
        }
    }

    /// The least rectangle round both.
    pub fn with(self, other: Extent) -> Extent
        ensures { RoundBoth self other result }
    {
        Extent {
            low: self.low.least(other.low),
            high: self.high.greatest(other.high),
        }
    }

    /// Its edges are in order and no farther from the origin than those of boxes may be.
    pub fn is_box(self) -> bool
        ensures { result ≡ is_box (extent_box self) }
    {
        is_side(self.low.x, self.high.x) && is_side(self.low.y, self.high.y)
    }

    /// The box of this layer.
    pub fn boxed(self, layer: Layer) -> Box2
        requires { is_box (extent_box self) ≡ true }
        ensures { result ≡ record { layer = layer; x1 = self.low.x; y1 = self.low.y; x2 = self.high.x; y2 = self.high.y } }
    {
        Box2 {
            layer,
            x1: self.low.x as i64,
            y1: self.low.y as i64,
            x2: self.high.x as i64,
            y2: self.high.y as i64,
        }
    }

    /// The rectangle, placed.
    pub fn placed(self, placement: Placement) -> Extent
        requires low_near { IsNear (2 ^ 120) self.low }
        requires high_near { IsNear (2 ^ 120) self.high }
        requires near { IsNear (2 ^ 120) placement.by }
        ensures placed { extent_box result ≡ placed placement (extent_box self) }
        ensures low_near { (m n : ℕ) → IsNear m self.low → IsNear m self.high → IsNear n placement.by → IsNear (m + n) result.low }
        ensures high_near { (m n : ℕ) → IsNear m self.low → IsNear m self.high → IsNear n placement.by → IsNear (m + n) result.high }
    {
        let first = self.low.turned(placement.turn);
        let last = self.high.turned(placement.turn);
        Extent {
            low: first.least(last).plus(placement.by),
            high: first.greatest(last).plus(placement.by),
        }
    }
}

/// The two edges are in order and no farther from the origin than those of boxes may be.
fn is_side(from: i128, to: i128) -> bool
    ensures { result ≡ is_side from to }
{
    -FARTHEST_EDGE <= from && from < to && to <= FARTHEST_EDGE
}
