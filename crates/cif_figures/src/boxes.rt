// Boxes.

ghost use Rattle.std.specs.Prelude.{◌≡◌, ℕ, [], ◌∷◌, map, Some, Option, IfOk, IfErr};
ghost use Rattle.geom.specs.declared.point.Point.{Point};
ghost use Rattle.geom.specs.CifShapes.{outlined_box};
ghost use Rattle.geom.specs.CifDrawings.{CifState, scaled, box_outlines, direction_or_east, drawn_in};
ghost use Rattle.cif_kinds.specs.declared.kinds.CommandKind.TheVariants as kind;
ghost use Rattle.cif_values.specs.Values.{AreNearSides, IsNearPoint, IsNearNumber};
ghost use Rattle.cif_codes.specs.Scales.{ratio, IsScale};
ghost use Rattle.cif_codes.specs.Least.{IsLeastCode};
ghost use Rattle.cif_figures.specs.Figures.{CommandOf, command_of, Leads, Draws};
ghost use Rattle.cif_figures.specs.Boxes.{IsClearBox, is_upright, centred_edges};

use crate::rectangles::scaled_box;
use cif_codes::{Edges, Scale, box_code};
use cif_kinds::parts_stand;
use cif_values::{Sides, box_here};
use geom::{Box2, CifCode, Layer, Point};

/// The box that stands here, in a definition of this scale, where this layer is set.
///
/// # Errors
///
/// The least code that it meets: C3 where no layer is set, C7 where an edge is off the grid, C8 where a number or an edge is too far
/// from 0, C9 where a side is 0 or the direction is along no axis.
pub fn box_drawn(
    text: &[u8],
    first: usize,
    scale: Scale,
    layer: Option<Layer>,
) -> Result<Box2, CifCode>
    requires command { (end : ℕ) × CommandOf text.now first end kind.Box }
    requires scale { IsScale scale }
    ensures drawn { IfOk result (λ b. (s : CifState) (end : ℕ) (c : CommandOf text.now first end kind.Box) → Draws s (ratio scale) layer
        → Leads s (command_of text.now first end kind.Box c) (λ place. drawn_in s place (b ∷ []) 0 s.opening)) }
    ensures fault { IfErr result (λ code. (s : CifState) (end : ℕ) (c : CommandOf text.now first end kind.Box) → Draws s (ratio scale) layer
        → IsLeastCode s (command_of text.now first end kind.Box c) (Some code)) }
{
    parts_stand();
    let sides = box_here(text, first, scale.grid());
    match box_code(scale, layer, sides) {
        Some(code) => Err(code),
        None => match layer {
            Some(layer) => Ok(box_of(scale, layer, sides)),
            None => Err(CifCode::C3),
        },
    }
}

/// The box of these sides.
fn box_of(scale: Scale, layer: Layer, sides: Sides) -> Box2
    requires scale { IsScale scale }
    requires near { AreNearSides sides }
    requires clear { (along across : ℕ) × (centre : Point) × (direction : Option Point)
        × IsClearBox scale layer along across centre direction sides }
    ensures { (along across : ℕ) (centre : Point) (direction : Option Point) → IsClearBox scale layer along across centre direction sides
        → result ∷ [] ≡ map (outlined_box layer (scaled (ratio scale))) (box_outlines along across centre (direction_or_east direction)) }
{
    let centre = sides.centre;
    if is_upright(sides.direction) {
        scaled_box(scale, layer, edges(centre, sides.across, sides.along))
    } else {
        scaled_box(scale, layer, edges(centre, sides.along, sides.across))
    }
}

/// The direction is not along the x axis.
fn is_upright(direction: Option<Point>) -> bool
    ensures { result ≡ is_upright direction }
{
    match direction {
        Some(d) => d.y != 0,
        None => false,
    }
}

/// Twice the edges by the centre and by the sides from west to east and from south to north.
fn edges(centre: Point, wide: i64, high: i64) -> Edges
    requires centre { IsNearPoint centre }
    requires wide { IsNearNumber wide }
    requires high { IsNearNumber high }
    ensures { result ≡ centred_edges centre wide high }
{
    Edges {
        left: 2 * centre.x - wide,
        bottom: 2 * centre.y - high,
        right: 2 * centre.x + wide,
        top: 2 * centre.y + high,
    }
}
