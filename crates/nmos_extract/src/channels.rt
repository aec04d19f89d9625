// The channels of a drawing: boxes of squares with diffusion and poly, between terminals.

ghost use Rattle.std.specs.Prelude.{◌≡◌, List, length, IfOk, IfErr, OnOk};
ghost use Rattle.geom.specs.Rows.{Among, Pairwise};
ghost use Rattle.geom.specs.Squares.{BoxShape, Covered};
ghost use Rattle.nmos_model.specs.declared.channel.Channel.{Channel};
ghost use Rattle.nmos_model.specs.declared.refusal.ExtractCode.TheVariants.{X2};
ghost use Rattle.nmos_model.specs.Channels.{AreChannels, IsEarlier};
ghost use Rattle.nmos_model.specs.Devices.{IsNear};
ghost use Rattle.nmos_model.specs.Refusals.{HasChannels, IsOddBy};
ghost use Rattle.nmos_extract.specs.Layers.{AreLayers};
ghost use Rattle.nmos_extract.specs.Regions.{AreChannelsOf, HasSomeSides, IsFaultAt, channel_of};
ghost use Rattle.nmos_extract.specs.Terminals.{AreTerminals};

use crate::layers::Layers;
use crate::regions::{depletion_of, fault_at};
use crate::sides::{direction, free_beside, held_beside, sides_at};
use canonical_boxes::laws::{boxes_are_numbered, boxes_stand_for_squares};
use canonical_boxes::{Canonical, both};
use geom::Box2;
use nmos_model::{Channel, ExtractCode, ReadChipFault};
use std::alloc::Global;

/// The channels of the drawing with these layers and this diffusion without poly, in row order of their first squares. Takes n log n
/// steps in the boxes of the sets and of their combinations.
///
/// # Errors
///
/// `Fault` with the first region that is no full rectangle or lies partly under implant (`X1`), else the first that has not
/// conducting diffusion along two opposite sides and nowhere along the others (`X2`), by its first square; `NoMemory` where an
/// allocation was refused.
pub(crate) fn channels_of(
    alloc: Global,
    layers: &Layers,
    terminals: &Canonical,
) -> Result<Vec<Channel>, ReadChipFault>
    ensures channels { (boxes : List BoxShape) → AreLayers (Covered boxes) layers.now → AreTerminals (Covered boxes) terminals.now
        → IfOk result (λ channels. AreChannels (Covered boxes) channels.items) }
    ensures near { IfOk result (λ channels. (c : Channel) → Among channels.items c → IsNear c) }
    ensures order { IfOk result (λ channels. Pairwise IsEarlier channels.items) }
    ensures even { (boxes : List BoxShape) → AreLayers (Covered boxes) layers.now → AreTerminals (Covered boxes) terminals.now
        → OnOk result (HasChannels (Covered boxes)) }
    ensures fault { (boxes : List BoxShape) → AreLayers (Covered boxes) layers.now → AreTerminals (Covered boxes) terminals.now
        → IfErr result (IsOddBy (Covered boxes)) }
{
    boxes_are_numbered();
    boxes_stand_for_squares();
    let squares = both(alloc, &layers.diffusion, &layers.poly)?;
    let boxes = squares.boxes();
    let depletion = depletion_of(alloc, &squares, &layers.implant)?;
    with_terminals(alloc, boxes, &depletion, &layers.diffusion, terminals)
}

/// The channels of the boxes, in their order, of which there is whether they lie under implant.
///
/// # Errors
///
/// `Fault` with the first box that has no terminals (`X2`), by its first square; `NoMemory` where an allocation was refused.
fn with_terminals(
    alloc: Global,
    boxes: &[Box2],
    depletion: &[bool],
    diffusion: &Canonical,
    terminals: &Canonical,
) -> Result<Vec<Channel>, ReadChipFault>
    requires { length depletion.now ≡ length boxes.now }
    ensures channels { IfOk result (λ channels. AreChannelsOf boxes.now depletion.now diffusion.now terminals.now channels.items) }
    ensures fault { IfErr result (IsFaultAt X2 (HasSomeSides terminals.now diffusion.now) boxes.now) }
{
    let held = held_beside(alloc, terminals, boxes)?;
    let free = free_beside(alloc, diffusion, boxes)?;
    let mut channels = Vec::new(alloc);
    for at in 0..boxes.len() {
        match direction(sides_at(&held, at), sides_at(&free, at)) {
            Some(upright) => channels.push(channel_of(upright, depletion[at], &boxes[at]))?,
            None => return Err(fault_at(ExtractCode::X2, &boxes[at])),
        }
    }
    Ok(channels)
}

/// The channel of the box.
pub(crate) fn channel_of(upright: bool, depletion: bool, b: &Box2) -> Channel
    ensures { result ≡ channel_of upright depletion b.now }
{
    Channel {
        x1: b.x1,
        y1: b.y1,
        x2: b.x2,
        y2: b.y2,
        upright,
        depletion,
    }
}
