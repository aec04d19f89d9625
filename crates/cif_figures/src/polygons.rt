// Polygons.

ghost use Rattle.std.specs.Prelude.{ℕ, ◌≤◌, List, length, IfOk, IfErr};
ghost use Rattle.geom.specs.declared.point.Point.{Point};
ghost use Rattle.geom.specs.Squares.{BoxShape};
ghost use Rattle.geom.specs.CifShapes.{ArePolygonBoxes};
ghost use Rattle.geom.specs.CifDrawings.{CifState, drawn_in};
ghost use Rattle.cif_shapes.specs.Polygons.{IsPolygon};
ghost use Rattle.cif_kinds.specs.declared.kinds.CommandKind.TheVariants as kind;
ghost use Rattle.cif_codes.specs.Scales.{ratio, IsScale};
ghost use Rattle.cif_figures.specs.Figures.{CommandOf, command_of, Leads, Draws, IsFaultOf};
ghost use Rattle.cif_figures.specs.Scaling.{AreScaledPoints};
ghost use Rattle.cif_figures.specs.Polygons.{AreClearPoints};

use crate::fault::FigureFault;
use crate::points::scaled_point;
use cif_codes::{Scale, corners_here, points_stand, polygon_code};
use cif_kinds::parts_stand;
use cif_values::{behind_letters, point_here};
use geom::{CifCode, Layer, Point};
use rx_text::NoMemory;
use std::alloc::Global;

/// A polygon of a layer, by its points in lambda.
#[derive(Drop)]
pub struct Polygon {
    pub layer: Layer,
    pub points: Vec<Point>,
}

/// The polygon that stands here, in a definition of this scale, where this layer is set.
///
/// # Errors
///
/// The least code that it meets: C3 where no layer is set, C7 where a point is off the grid, C8 where a number or a point is too far
/// from 0, C9 where the points are not rectilinear, C15 where there are more than 4,096. Or `NoMemory` where an allocation was
/// refused.
pub fn polygon_drawn(
    alloc: Global,
    text: &[u8],
    first: usize,
    scale: Scale,
    layer: Option<Layer>,
) -> Result<Polygon, FigureFault>
    requires command { (end : ℕ) × CommandOf text.now first end kind.Polygon }
    requires scale { IsScale scale }
    ensures polygon { IfOk result (λ found. IsPolygon found.points.items) }
    ensures drawn { IfOk result (λ found. (s : CifState) (end : ℕ) (c : CommandOf text.now first end kind.Polygon) → Draws s (ratio scale) layer
        → (boxes : List BoxShape) → ArePolygonBoxes found.layer found.points.items boxes
        → Leads s (command_of text.now first end kind.Polygon c) (λ place. drawn_in s place boxes 0 s.opening)) }
    ensures fault { IfErr result (λ fault. (s : CifState) (end : ℕ) (c : CommandOf text.now first end kind.Polygon) → Draws s (ratio scale) layer
        → IsFaultOf s (command_of text.now first end kind.Polygon c) fault) }
{
    parts_stand();
    let at = behind_letters(text, first, 1);
    let corners = corners_here(text, at, scale);
    match polygon_code(layer, corners) {
        Some(code) => Err(FigureFault::Meets(code)),
        None => match layer {
            Some(layer) => Ok(Polygon {
                layer,
                points: scaled_points(alloc, text, at, scale)?,
            }),
            None => Err(FigureFault::Meets(CifCode::C3)),
        },
    }
}

/// The points that stand here up to the semicolon, in lambda.
fn scaled_points(
    alloc: Global,
    text: &[u8],
    at: usize,
    scale: Scale,
) -> Result<Vec<Point>, NoMemory>
    requires place { at ≤ length text.now }
    requires scale { IsScale scale }
    requires clear { (points : List Point) × AreClearPoints text.now at (ratio scale) points }
    ensures { IfOk result (λ found. (points : List Point) → AreClearPoints text.now at (ratio scale) points
        → AreScaledPoints scale points found.items) }
{
    let mut points = Vec::new(alloc);
    let mut from = at;
    while points_stand(text, from) {
        let (point, next) = point_here(text, from, scale.grid());
        points.push(scaled_point(scale, point))?;
        from = next;
    }
    Ok(points)
}
