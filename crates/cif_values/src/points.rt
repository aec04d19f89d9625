// Points.

ghost use Rattle.std.specs.Prelude.{ℕ, ◌≤◌, ◌<◌, ◌*◌, ◌^◌, ◌++◌, Option, List, length};
ghost use Rattle.geom.specs.declared.point.Point.{Point};
ghost use Rattle.geom.specs.CifCommands.{CifPart, point_parts, direction_parts};
ghost use Rattle.cif_values.specs.Parts.{PartsAt};
ghost use Rattle.cif_values.specs.Values.{PointStands, DirectionStands, IsNearPoint, IsNearDirection, NumberBegins};

use crate::next::{Next, next_here};
use crate::numbers::number_here;
use geom::Point;

/// The point that stands here, in numbers that stand for its own by the divisor; and the place behind it and blanks.
pub fn point_here(text: &[u8], at: usize, divisor: u64) -> (Point, usize)
    requires place { at ≤ length text.now }
    requires some { 0 < divisor }
    requires few { divisor ≤ 400 * 2 ^ 40 }
    ensures parts { (stop : ℕ) (point : Point) (parts : List CifPart) → PartsAt text.now at stop (point_parts point ++ parts)
        → PointStands divisor point result.0 × PartsAt text.now result.1 stop parts }
    ensures near { IsNearPoint result.0 }
    ensures later { NumberBegins text.now at → at < result.1 }
    ensures within { result.1 ≤ length text.now }
{
    let (x, middle) = number_here(text, at, divisor);
    let (y, next) = number_here(text, middle, divisor);
    (Point { x, y }, next)
}

/// The direction that stands here, if one does, in numbers that stand for its own by the divisor.
pub fn direction_here(text: &[u8], at: usize, divisor: u64) -> Option<Point>
    requires place { at ≤ length text.now }
    requires some { 0 < divisor }
    requires few { divisor ≤ 400 * 2 ^ 40 }
    ensures parts { (stop : ℕ) (direction : Option Point) → PartsAt text.now at stop (direction_parts direction) → DirectionStands divisor direction result }
    ensures near { IsNearDirection result }
{
    match next_here(text, at) {
        Next::Number => {
            let (direction, _) = point_here(text, at, divisor);
            Some(direction)
        }
        _ => None,
    }
}
