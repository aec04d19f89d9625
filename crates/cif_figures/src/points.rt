// Points in lambda.

ghost use Rattle.std.specs.Prelude.{pos, ◌*ℤ◌};
ghost use Rattle.cif_codes.specs.Scales.{ratio, IsScale};
ghost use Rattle.cif_figures.specs.Rectangles.{IsDrawnEdge};
ghost use Rattle.cif_figures.specs.Scaling.{IsScaled, IsScaledPoint};

use cif_codes::Scale;
use geom::Point;

/// The point in lambda.
pub fn scaled_point(scale: Scale, point: Point) -> Point
    requires scale { IsScale scale }
    requires across { IsDrawnEdge (ratio scale) (pos 2 *ℤ point.x) }
    requires upward { IsDrawnEdge (ratio scale) (pos 2 *ℤ point.y) }
    ensures { IsScaledPoint scale point result }
{
    Point {
        x: in_lambda(scale, point.x),
        y: in_lambda(scale, point.y),
    }
}

/// The coordinate in lambda.
fn in_lambda(scale: Scale, units: i64) -> i64
    requires scale { IsScale scale }
    requires drawn { IsDrawnEdge (ratio scale) (pos 2 *ℤ units) }
    ensures { IsScaled scale units result }
{
    scale.scaled(2 * units)
}
