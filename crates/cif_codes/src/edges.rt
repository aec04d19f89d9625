// Edges of rectangles.

ghost use Rattle.std.specs.Prelude.{ℤ, ◌++◌, List};
ghost use Rattle.geom.specs.CifShapes.{Outline};
ghost use Rattle.geom.specs.CifCodes.{outline_distances};
ghost use Rattle.cif_codes.specs.Scales.{ratio, grid_of, IsScale};
ghost use Rattle.cif_codes.specs.Checks.{Checked};
ghost use Rattle.cif_codes.specs.Bends.{EdgesStand, AreNearEdges};

use crate::checks::Checks;
use crate::scale::Scale;

/// Twice the edges of a rectangle.
#[derive(Clone, Copy, Debug, PartialEq, Eq)]
pub struct Edges {
    pub left: i64,
    pub bottom: i64,
    pub right: i64,
    pub top: i64,
}

/// With the edges of a rectangle more.
pub fn with_edges(scale: Scale, checks: Checks, edges: Edges) -> Checks
    requires scale { IsScale scale }
    requires near { AreNearEdges edges }
    ensures { (numbers distances : List ℤ) (o : Outline) → Checked (ratio scale) numbers distances checks → EdgesStand (grid_of scale) numbers o edges
        → Checked (ratio scale) numbers (distances ++ outline_distances o) result }
{
    let left = checks.with_distance(scale, edges.left);
    let bottom = left.with_distance(scale, edges.bottom);
    let right = bottom.with_distance(scale, edges.right);
    right.with_distance(scale, edges.top)
}
