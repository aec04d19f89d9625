// The sides of polygons, and the squares inside.

ghost use Rattle.std.specs.Prelude.{◌≡◌, ◌<◌, ◌+◌, ◌&&◌, ◌-ℤ◌, int_lt, int_le, length, drop, ◌∷◌};
ghost use Rattle.std.specs.Int.{int_min, int_max};
ghost use Rattle.geom.specs.CifShapes.{polygon_sides, is_zero, meets_ray, is_inside_polygon};

use geom::Point;

/// Whether the square with its lower left corner at (x, y) lies inside the polygon: the ray from its centre to the east
/// meets an odd number of the polygon's vertical sides. The last point is joined to the first. Takes no memory.
pub fn inside(points: &[Point], x: i64, y: i64) -> bool
    ensures { result ≡ is_inside_polygon points.now x y }
{
    let mut met: usize = 0;
    for at in 0..points.len() {
        let (start, stop) = side(points, at);
        if meets_ray(start, stop, x, y) {
            met += 1;
        }
    }
    met % 2 == 1
}

/// The two ends of the polygon's side of this number.
pub fn side(points: &[Point], at: usize) -> (Point, Point)
    requires { at < length points.now }
    ensures { drop at (polygon_sides points.now)
        ≡ record { start = result.0; stop = result.1 } ∷ drop (at + 1) (polygon_sides points.now) }
{
    let next = if at + 1 < points.len() { at + 1 } else { 0 };
    (points[at], points[next])
}

/// The side is vertical.
pub fn is_vertical(start: Point, stop: Point) -> bool
    ensures { result ≡ is_zero (stop.x -ℤ start.x) }
{
    start.x == stop.x
}

/// One end is in the row or below it, and the other above it.
fn crosses_row(start: Point, stop: Point, row: i64) -> bool
    ensures { result ≡ (int_le (int_min start.y stop.y) row && int_lt row (int_max start.y stop.y)) }
{
    if start.y <= row {
        row < stop.y
    } else {
        stop.y <= row
    }
}

/// The ray from the centre of the square (x, y) to the east meets the side, which is vertical.
fn meets_ray(start: Point, stop: Point, x: i64, y: i64) -> bool
    ensures { result ≡ meets_ray x y (record { start = start; stop = stop }) }
{
    is_vertical(start, stop) && x < start.x && crosses_row(start, stop, y)
}
