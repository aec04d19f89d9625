// The corners and the heights of polygons.

ghost use Rattle.std.specs.Prelude.{◌≡◌, IfOk, OnOk};
ghost use Rattle.std.specs.List.Sorted.{IsPermutation};
ghost use Rattle.geom.specs.CifShapes.{AreHeights};
ghost use Rattle.cif_shapes.specs.Changes.{AreCorners, Rise, side_ends};

use crate::sides::{is_vertical, side};
use geom::Point;
use rx_text::NoMemory;
use std::alloc::Global;

/// The ends of the vertical sides of the polygon, from low to high.
pub fn corners(alloc: Global, points: &[Point]) -> Result<Vec<Point>, NoMemory>
    ensures { IfOk result (λ corners. AreCorners points.now corners.items) }
{
    let mut ends = side_ends(alloc, points)?;
    sort_by_height(&mut ends)?;
    Ok(ends)
}

/// The ends of the vertical sides of the polygon, side by side.
fn side_ends(alloc: Global, points: &[Point]) -> Result<Vec<Point>, NoMemory>
    ensures { IfOk result (λ ends. ends.items ≡ side_ends points.now) }
{
    let mut ends = Vec::new(alloc);
    for at in 0..points.len() {
        let (start, stop) = side(points, at);
        if is_vertical(start, stop) {
            ends.push(start)?;
            ends.push(stop)?;
        }
    }
    Ok(ends)
}

/// Sorts points from low to high.
fn sort_by_height(points: &mut Vec<Point>) -> Result<(), NoMemory>
    ensures same { OnOk result (IsPermutation points.old.items points.new.items) }
    ensures rise { OnOk result (Rise points.new.items) }
{
    points.sort_by_key(|p| height(p))?;
    Ok(())
}

/// The height of the point.
fn height(p: &Point) -> i64
    ensures { result ≡ p.now.y }
{
    p.y
}

/// The heights of the points, from low to high, each once.
pub fn heights(alloc: Global, points: &[Point]) -> Result<Vec<i64>, NoMemory>
    ensures { IfOk result (λ heights. AreHeights points.now heights.items) }
{
    let mut heights = Vec::new(alloc);
    for p in points {
        heights.push(p.y)?;
    }
    heights.sort()?;
    heights.dedup();
    Ok(heights)
}
