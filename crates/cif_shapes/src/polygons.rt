// The boxes of polygons.

ghost use Rattle.std.specs.Prelude.{◌≡◌, IfOk};
ghost use Rattle.geom.specs.CifShapes.{ArePolygonBoxes};
ghost use Rattle.cif_shapes.specs.Polygons.{IsPolygon};

use crate::changes::{add_runs, raised};
use crate::corners::{corners, heights};
use geom::{Box2, Layer, Point};
use rx_text::NoMemory;
use std::alloc::Global;

/// The boxes of the polygon with these points, in lambda: between each two neighbouring heights of its points, from low to
/// high, the maximal runs of the squares inside, from left to right. The last point is joined to the first. Takes a time
/// that grows as n log n in the number of points and boxes.
///
/// # Errors
///
/// `NoMemory` where an allocation was refused.
pub fn polygon_boxes(alloc: Global, layer: Layer, points: &[Point]) -> Result<Vec<Box2>, NoMemory>
    requires { IsPolygon points.now }
    ensures { IfOk result (λ boxes. ArePolygonBoxes layer points.now boxes.items) }
{
    let heights = heights(alloc, points)?;
    let corners = corners(alloc, points)?;
    let mut boxes = Vec::new(alloc);
    let mut columns = Vec::new(alloc);
    let mut count = 0;
    for upper in 1..heights.len() {
        let low = heights[upper - 1];
        let (changes, reached) = raised(alloc, columns, &corners, count, low)?;
        add_runs(layer, low, heights[upper], &changes, &mut boxes)?;
        columns = changes;
        count = reached;
    }
    Ok(boxes)
}
