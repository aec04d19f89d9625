// The boxes of wires.

ghost use Rattle.std.specs.Prelude.{◌≡◌, ℤ, pos, ◌+ℤ◌, ◌-ℤ◌, ◌*ℤ◌, IfOk};
ghost use Rattle.std.specs.Int.{int_min, int_max};
ghost use Rattle.geom.specs.Squares.{IsSide};
ghost use Rattle.cif_shapes.specs.Wires.{IsWire, AreWireBoxes};
ghost use Rattle.cif_shapes.specs.Spans.{IsSpan, AreEdges};

use geom::{Box2, Layer, Point};
use rx_text::NoMemory;
use std::alloc::Global;

/// The boxes of the wire of this width through these points: for each segment, in order, the least rectangle round the
/// two squares of the width that are centred at its ends. A wire of one point is one such square. The width is in
/// lambda, and the points in half lambda.
///
/// # Errors
///
/// `NoMemory` where an allocation was refused.
pub fn wire_boxes(
    alloc: Global,
    layer: Layer,
    width: i64,
    points: &[Point],
) -> Result<Vec<Box2>, NoMemory>
    requires { IsWire width points.now }
    ensures { IfOk result (λ boxes. AreWireBoxes layer width points.now boxes.items) }
{
    let mut boxes = Vec::new(alloc);
    if points.len() == 1 {
        boxes.push(segment_box(layer, width, points[0], points[0]))?;
        return Ok(boxes);
    }
    for at in 1..points.len() {
        boxes.push(segment_box(layer, width, points[at - 1], points[at]))?;
    }
    Ok(boxes)
}

/// The least rectangle round the two squares of the width that are centred at these points.
fn segment_box(layer: Layer, width: i64, start: Point, stop: Point) -> Box2
    requires across { IsSpan start.x stop.x width }
    requires upward { IsSpan start.y stop.y width }
    ensures layer { result.layer ≡ layer }
    ensures across { AreEdges start.x stop.x width result.x1 result.x2 }
    ensures upward { AreEdges start.y stop.y width result.y1 result.y2 }
{
    let (x1, x2) = edges(start.x, stop.x, width);
    let (y1, y2) = edges(start.y, stop.y, width);
    Box2 {
        layer,
        x1,
        y1,
        x2,
        y2,
    }
}

/// The edges round the squares of this width at two coordinates in half lambda.
fn edges(one: i64, other: i64, width: i64) -> (i64, i64)
    requires { IsSpan one other width }
    ensures edges { AreEdges one other width result.0 result.1 }
    ensures side { IsSide result.0 result.1 }
{
    (half(low(one, other, width)), half(high(one, other, width)))
}

/// Twice the lower edge.
fn low(one: i64, other: i64, width: i64) -> i64
    requires { IsSpan one other width }
    ensures { result ≡ int_min one other -ℤ width }
{
    one.min(other) - width
}

/// Twice the upper edge.
fn high(one: i64, other: i64, width: i64) -> i64
    requires { IsSpan one other width }
    ensures { result ≡ int_max one other +ℤ width }
{
    one.max(other) + width
}

/// Half of an even number.
fn half(even: i64) -> i64
    requires { (half : ℤ) × (even ≡ pos 2 *ℤ half) }
    ensures { pos 2 *ℤ result ≡ even }
{
    even / 2
}
