// Wires.

ghost use Rattle.std.specs.Prelude.{◌≡◌, ℕ, ◌≤◌, List, length, map, IfOk, IfErr};
ghost use Rattle.geom.specs.declared.point.Point.{Point};
ghost use Rattle.geom.specs.CifShapes.{outlined_box, wire_outlines};
ghost use Rattle.geom.specs.CifDrawings.{CifState, scaled, doubled, drawn_in};
ghost use Rattle.cif_kinds.specs.declared.kinds.CommandKind.TheVariants as kind;
ghost use Rattle.cif_codes.specs.Scales.{ratio, IsScale};
ghost use Rattle.cif_figures.specs.Figures.{CommandOf, command_of, Leads, Draws, IsFaultOf};
ghost use Rattle.cif_figures.specs.Wires.{IsClearWire};

use crate::fault::FigureFault;
use crate::rectangles::scaled_box;
use cif_codes::{Scale, bend_here, points_stand, segment_edges, wire_checks, wire_code};
use cif_kinds::parts_stand;
use cif_values::{behind_letters, number_here};
use geom::{Box2, CifCode, Layer};
use rx_text::NoMemory;
use std::alloc::Global;

/// The boxes of the wire that stands here, in a definition of this scale, where this layer is set.
///
/// # Errors
///
/// The least code that it meets: C3 where no layer is set, C7 where an edge is off the grid, C8 where a number or an edge is too far
/// from 0, C9 where the width is 0 or a segment lies along no axis, C15 where there are more than 4,096 points. Or `NoMemory` where
/// an allocation was refused.
pub fn wire_drawn(
    alloc: Global,
    text: &[u8],
    first: usize,
    scale: Scale,
    layer: Option<Layer>,
) -> Result<Vec<Box2>, FigureFault>
    requires command { (end : ℕ) × CommandOf text.now first end kind.Wire }
    requires scale { IsScale scale }
    ensures drawn { IfOk result (λ boxes. (s : CifState) (end : ℕ) (c : CommandOf text.now first end kind.Wire) → Draws s (ratio scale) layer
        → Leads s (command_of text.now first end kind.Wire c) (λ place. drawn_in s place boxes.items 0 s.opening)) }
    ensures fault { IfErr result (λ fault. (s : CifState) (end : ℕ) (c : CommandOf text.now first end kind.Wire) → Draws s (ratio scale) layer
        → IsFaultOf s (command_of text.now first end kind.Wire c) fault) }
{
    parts_stand();
    let found = wire_checks(text, first, scale);
    match wire_code(layer, found) {
        Some(code) => Err(FigureFault::Meets(code)),
        None => match layer {
            Some(layer) => Ok(boxes_of(alloc, text, first, scale, layer)?),
            None => Err(FigureFault::Meets(CifCode::C3)),
        },
    }
}

/// The boxes of the wire that stands here, one for each segment.
fn boxes_of(
    alloc: Global,
    text: &[u8],
    first: usize,
    scale: Scale,
    layer: Layer,
) -> Result<Vec<Box2>, NoMemory>
    requires place { first ≤ length text.now }
    requires scale { IsScale scale }
    requires clear { (w : ℕ) × (points : List Point) × IsClearWire text.now first (ratio scale) w points }
    ensures { IfOk result (λ boxes. (w : ℕ) (points : List Point) → IsClearWire text.now first (ratio scale) w points
        → boxes.items ≡ map (outlined_box layer (scaled (ratio scale))) (wire_outlines w (map doubled points))) }
{
    let (width, from) = number_here(text, behind_letters(text, first, 1), scale.grid());
    let (start, next) = bend_here(text, from, scale);
    let mut boxes = Vec::new(alloc);
    if !points_stand(text, next) {
        let edges = segment_edges(text, width, start, start);
        boxes.push(scaled_box(scale, layer, edges))?;
        return Ok(boxes);
    }
    let mut last = start;
    let mut from = next;
    while points_stand(text, from) {
        let (bend, next) = bend_here(text, from, scale);
        let edges = segment_edges(text, width, last, bend);
        boxes.push(scaled_box(scale, layer, edges))?;
        last = bend;
        from = next;
    }
    Ok(boxes)
}
