// The points of wires, and the edges between them.

ghost use Rattle.std.specs.Prelude.{◌≡◌, ℕ, ◌+◌, ◌≤◌, ◌<◌, ◌^◌, ◌<ℤ◌, ℤ, pos, ◌+ℤ◌, ◌-ℤ◌, ◌*ℤ◌, List, [], ◌∷◌, ◌++◌, length};
ghost use Rattle.std.specs.Bool.{Decides};
ghost use Rattle.std.specs.Int.RustNames.{unsigned_abs};
ghost use Rattle.geom.specs.declared.point.Point.{Point};
ghost use Rattle.geom.specs.CifCommands.{CifPart, point_parts};
ghost use Rattle.geom.specs.CifShapes.{segment_outline, is_axis_segment};
ghost use Rattle.geom.specs.CifDrawings.{doubled};
ghost use Rattle.cif_values.specs.Parts.{PartsAt};
ghost use Rattle.cif_values.specs.Numbers.{StandsFor};
ghost use Rattle.cif_values.specs.Values.{IsNearNumber, NumberBegins};
ghost use Rattle.cif_codes.specs.Scales.{grid_of, IsScale};
ghost use Rattle.cif_codes.specs.Bends.{IsNearCoordinate, IsNearBend, NumberAt, BendAt, SpanStands, EdgesStand, AreNearEdges};

use crate::edges::Edges;
use crate::points::shares;
use crate::scale::{Scale, is_great};
use crate::truths::either;
use cif_values::{is_less, number_here};

/// A coordinate of a point, and where it stands in the text.
#[derive(Clone, Copy, Debug, PartialEq, Eq)]
pub struct Coordinate {
    pub value: i64,
    pub at: usize,
}

/// A point of a wire, and where it stands in the text.
#[derive(Clone, Copy, Debug, PartialEq, Eq)]
pub struct Bend {
    pub x: Coordinate,
    pub y: Coordinate,
}

/// The point that stands here, in numbers that stand for its own by the grid of the scale; and the place behind it and blanks.
pub fn bend_here(text: &[u8], at: usize, scale: Scale) -> (Bend, usize)
    requires place { at ≤ length text.now }
    requires scale { IsScale scale }
    ensures parts { (stop : ℕ) (point : Point) (parts : List CifPart) → PartsAt text.now at stop (point_parts point ++ parts)
        → BendAt text.now (grid_of scale) point result.0 × PartsAt text.now result.1 stop parts }
    ensures near { IsNearBend text.now result.0 }
    ensures later { NumberBegins text.now at → at < result.1 }
    ensures within { result.1 ≤ length text.now }
{
    let (x, middle) = number_here(text, at, scale.grid());
    let (y, next) = number_here(text, middle, scale.grid());
    let bend = Bend {
        x: Coordinate { value: x, at },
        y: Coordinate {
            value: y,
            at: middle,
        },
    };
    (bend, next)
}

/// Twice the edges of the least rectangle round two squares of this width that are centred at these points. Points that are too great
/// are put in order by their digits in the text.
pub fn segment_edges(text: &[u8], width: i64, start: Bend, stop: Bend) -> Edges
    requires width { IsNearNumber width }
    requires start { IsNearBend text.now start }
    requires stop { IsNearBend text.now stop }
    ensures stand { (divisor w : ℕ) (p q : Point) → StandsFor divisor (pos w) width → BendAt text.now divisor p start → BendAt text.now divisor q stop
        → EdgesStand divisor (pos w ∷ p.x ∷ p.y ∷ q.x ∷ q.y ∷ []) (segment_outline w (record { start = doubled p; stop = doubled q })) result }
    ensures near { AreNearEdges result }
{
    let (left, right) = span(text, width, start.x, stop.x);
    let (bottom, top) = span(text, width, start.y, stop.y);
    Edges {
        left,
        bottom,
        right,
        top,
    }
}

/// The same in one direction.
fn span(text: &[u8], width: i64, one: Coordinate, other: Coordinate) -> (i64, i64)
    requires width { IsNearNumber width }
    requires one { IsNearCoordinate text.now one }
    requires other { IsNearCoordinate text.now other }
    ensures stand { (divisor w : ℕ) (a b : ℤ) → StandsFor divisor (pos w) width → NumberAt text.now divisor a one → NumberAt text.now divisor b other
        → SpanStands divisor w a b result.0 result.1 }
    ensures low_near { unsigned_abs result.0 ≤ 2 ^ 55 }
    ensures high_near { unsigned_abs result.1 ≤ 2 ^ 55 }
{
    if is_below(text, other, one) {
        (lower(other.value, width), upper(one.value, width))
    } else {
        (lower(one.value, width), upper(other.value, width))
    }
}

/// Twice the lower edge of a square of this width round a coordinate.
fn lower(value: i64, width: i64) -> i64
    requires value { IsNearNumber value }
    requires width { IsNearNumber width }
    ensures edge { result ≡ pos 2 *ℤ value -ℤ width }
    ensures near { unsigned_abs result ≤ 2 ^ 55 }
{
    2 * value - width
}

/// Twice the upper edge.
fn upper(value: i64, width: i64) -> i64
    requires value { IsNearNumber value }
    requires width { IsNearNumber width }
    ensures edge { result ≡ pos 2 *ℤ value +ℤ width }
    ensures near { unsigned_abs result ≤ 2 ^ 55 }
{
    2 * value + width
}

/// The first coordinate is below the other one.
fn is_below(text: &[u8], one: Coordinate, other: Coordinate) -> bool
    requires one { IsNearCoordinate text.now one }
    requires other { IsNearCoordinate text.now other }
    ensures { (divisor : ℕ) (a b : ℤ) → NumberAt text.now divisor a one → NumberAt text.now divisor b other → Decides result (a <ℤ b) }
{
    let far = either(is_great(one.value), is_great(other.value));
    if far {
        is_less(text, one.at, other.at)
    } else {
        one.value < other.value
    }
}

/// The points share a coordinate.
pub fn is_straight(start: Bend, stop: Bend) -> bool
    requires start_across { IsNearNumber start.x.value }
    requires start_upward { IsNearNumber start.y.value }
    requires stop_across { IsNearNumber stop.x.value }
    requires stop_upward { IsNearNumber stop.y.value }
    ensures { result ≡ is_axis_segment (record { start = record { x = start.x.value; y = start.y.value }; stop = record { x = stop.x.value; y = stop.y.value } }) }
{
    let across = shares(start.x.value, stop.x.value);
    let upward = shares(start.y.value, stop.y.value);
    either(across, upward)
}
