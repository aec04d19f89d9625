// The transistors of a drawing, whatever else is in it.

ghost use Rattle.std.specs.Prelude.{◌≡◌, List, IfOk};
ghost use Rattle.geom.specs.Squares.{BoxShape, Covered};
ghost use Rattle.nmos_extract.specs.Layers.{AreLayers};
ghost use Rattle.nmos_extract.specs.Terminals.{AreChannelSquares, AreTerminals};
ghost use Rattle.nmos_extract.specs.Transistors.{AreTransistors, transistor_of};

use crate::channels::channel_of;
use crate::layers::Layers;
use crate::regions::covers_of;
use crate::sides::{Sides, direction, free_beside, held_beside, sides_at};
use canonical_boxes::Canonical;
use canonical_boxes::laws::{boxes_are_numbered, boxes_stand_for_squares};
use geom::Box2;
use nmos_model::Channel;
use rx_text::NoMemory;
use std::alloc::Global;

/// For each box of the squares of channels the transistor whose channel it is, or `None` where it is not all of a region, lies partly under
/// implant, or has not conducting diffusion along two opposite sides and nowhere along the others. Takes n log n steps.
///
/// # Errors
///
/// `NoMemory` where an allocation was refused.
pub fn transistors_of(
    alloc: Global,
    layers: &Layers,
    squares: &Canonical,
    terminals: &Canonical,
) -> Result<Vec<Option<Channel>>, NoMemory>
    ensures { (boxes : List BoxShape) → AreLayers (Covered boxes) layers.now → AreChannelSquares (Covered boxes) squares.now
        → AreTerminals (Covered boxes) terminals.now → IfOk result (λ found. AreTransistors (Covered boxes) squares.now found.items) }
{
    boxes_are_numbered();
    boxes_stand_for_squares();
    let boxes = squares.boxes();
    let alone = free_beside(alloc, squares, boxes)?;
    let covers = covers_of(alloc, squares, &layers.implant)?;
    let held = held_beside(alloc, terminals, boxes)?;
    let free = free_beside(alloc, &layers.diffusion, boxes)?;
    let mut found = Vec::new(alloc);
    for at in 0..boxes.len() {
        let upright = direction(sides_at(&held, at), sides_at(&free, at));
        let lone = sides_at(&alone, at);
        let under = covers.under[at];
        let beside = covers.beside[at];
        found.push(transistor_of(lone, under, beside, upright, &boxes[at]))?;
    }
    Ok(found)
}

/// The transistor of a box of channel squares: there is one where no others lie above and below it, it lies wholly under implant or wholly
/// beside it, and it has terminals.
fn transistor_of(
    lone: Sides,
    under: bool,
    beside: bool,
    upright: Option<bool>,
    b: &Box2,
) -> Option<Channel>
    ensures { result ≡ transistor_of lone under beside upright b.now }
{
    let upright = upright?;
    if lone.above && lone.below && (under || beside) {
        Some(channel_of(upright, under, b))
    } else {
        None
    }
}
