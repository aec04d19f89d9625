// The plain extractor: the network of a drawing, by flooding its squares.

ghost use Rattle.std.specs.Prelude.{◌≡◌, ◌<◌, ◌+◌, ◌*◌, ◌^◌, List, length, IfOk, IfErr, OnOk, IsErrOf};
ghost use Rattle.geom.specs.Squares.{BoxShape, Covered};
ghost use Rattle.nmos_model.specs.Extents.{IsNear, IsTooWide};
ghost use Rattle.nmos_model.specs.Networks.{StandsFor};
ghost use Rattle.nmos_model.specs.Rasters.{Shows};
ghost use Rattle.nmos_model.specs.Refusals.{IsRefused, IsRefusedBy};

use crate::frame::frame_of;
use crate::nets::nets_of;
use crate::network::network_of;
use crate::raster::{Cover, Frame, painted};
use crate::refusal::{ExtractFault, ReadChipFault};
use crate::regions::channels_of;
use geom::{Box2, Label, merge_runs};
use rx_text::NoMemory;
use std::alloc::Global;
use switch_net::Network;
use thiserror::Error;

/// Why the plain extractor gives no network.
#[derive(Clone, Copy, Debug, PartialEq, Eq, Error)]
pub enum PlainFault {
    /// The least rectangle round all boxes has more than 4,000,000 squares.
    #[error("the drawing is too wide")]
    TooWide,
    /// The drawing and its labels stand for no network.
    #[error("the drawing stands for no network")]
    Fault(ExtractFault),
    /// An allocation was refused.
    #[error("no memory")]
    NoMemory,
}

impl From<NoMemory> for PlainFault {
    ghost use Rattle.nmos_model.specs.declared.plain.PlainFault.TheVariants as plain;

    ghost from_gives = { λ _ e. e ≡ plain.NoMemory };

    fn from(_refused: NoMemory) -> PlainFault {
        PlainFault::NoMemory
    }
}

impl From<ReadChipFault> for PlainFault {
    ghost use Rattle.nmos_model.specs.Refusals.{plain_fault};

    ghost from_gives = { λ fault e. e ≡ plain_fault fault };

    fn from(fault: ReadChipFault) -> PlainFault {
        match fault {
            ReadChipFault::Fault(fault) => PlainFault::Fault(fault),
            ReadChipFault::NoMemory => PlainFault::NoMemory,
        }
    }
}

/// The network that the boxes and labels stand for. Takes time and memory in proportion to the squares of the least rectangle
/// round the boxes, beside n log n steps in the boxes and the labels.
///
/// # Errors
///
/// `TooWide` exactly where the least rectangle round the boxes has more than 4,000,000 squares; else `Fault` exactly where the
/// drawing is refused, with its code and place; `NoMemory` where an allocation was refused.
pub fn extract_plain(alloc: Global, boxes: &[Box2], labels: &[Label]) -> Result<Network, PlainFault>
    ensures network { IfOk result (StandsFor (Covered boxes.now) labels.now) }
    ensures fault { (fault : ExtractFault) → IsErrOf result (PlainFault.Fault fault) → IsRefused (Covered boxes.now) labels.now fault.code fault.place }
    ensures wide { IsErrOf result PlainFault.TooWide → IsTooWide boxes.now }
    ensures narrow { IsTooWide boxes.now → OnOk result ⊥ }
    ensures first { (fault : ExtractFault) → IsTooWide boxes.now → IsErrOf result (PlainFault.Fault fault) → ⊥ }
{
    let Some(frame) = frame_of(boxes) else {
        return Err(PlainFault::TooWide);
    };
    let Ok(merged) = merge_runs(alloc, boxes) else {
        return Err(PlainFault::NoMemory);
    };
    let squares = painted(alloc, frame, &merged)?;
    Ok(network_in(alloc, frame, squares, labels)?)
}

/// The network that the squares and labels stand for.
fn network_in(
    alloc: Global,
    frame: Frame,
    squares: Vec<Cover>,
    labels: &[Label],
) -> Result<Network, ReadChipFault>
    requires near { IsNear frame }
    requires few { 3 * (length squares.items + frame.width + 1) < 2 ^ 32 }
    requires shows { (boxes : List BoxShape) × Shows frame squares.items (Covered boxes) }
    ensures network { (boxes : List BoxShape) → Shows frame squares.items (Covered boxes) → IfOk result (StandsFor (Covered boxes) labels.now) }
    ensures fault { (boxes : List BoxShape) → Shows frame squares.items (Covered boxes) → IfErr result (IsRefusedBy (Covered boxes) labels.now) }
{
    let channels = channels_of(alloc, frame, &squares)?;
    let nets = nets_of(alloc, frame, squares)?;
    network_of(alloc, nets.count(), &nets, &channels, labels)
}
