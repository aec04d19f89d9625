// Layouts, from bytes to networks.

ghost use Rattle.std.specs.Prelude.{◌≡◌, ◌-◌, ◌<◌, ◌^◌, length, IfErr, IfOk};
ghost use Rattle.layout_network.specs.Layouts.{DrawsFew, IsLayout};
ghost use Rattle.layout_network.specs.Reading.{IsReadLayoutFault, cif_stop, extract_stop};

use crate::fault::{LayoutCode, LayoutFault, ReadLayoutFault};
use cif_read::{Flat, ReadCifFault, flatten, read_cif};
use nmos_extract::extract;
use nmos_model::ReadChipFault;
use std::alloc::Global;
use switch_net::Network;

/// The network that the layout stands for. Takes time and memory in proportion to the text, and to n log n in the boxes that it draws,
/// calls and all, whatever their sizes.
///
/// # Errors
///
/// `Fault` where the layout is refused, with its code and place; one that stands for a network never gets it. `NoMemory` where an
/// allocation was refused.
pub fn read_layout(alloc: Global, text: &[u8]) -> Result<Network, ReadLayoutFault>
    requires { length text.now < 2 ^ 32 - 1 }
    ensures layout { IfOk result (λ network. IsLayout text.now network) }
    ensures fault { IfErr result (λ fault. IsReadLayoutFault text.now fault) }
{
    let flat = drawn_boxes(alloc, text)?;
    match extract(alloc, &flat.boxes, &flat.labels) {
        Ok(network) => Ok(network),
        Err(fault) => Err(network_fault(fault)),
    }
}

/// All boxes and labels that the text draws.
fn drawn_boxes(alloc: Global, text: &[u8]) -> Result<Flat, ReadLayoutFault>
    requires { length text.now < 2 ^ 32 - 1 }
    ensures drawn { IfOk result (λ flat. DrawsFew text.now flat.boxes.items flat.labels.items) }
    ensures fault { IfErr result (λ fault. IsReadLayoutFault text.now fault) }
{
    match read_cif(alloc, text) {
        Ok(drawing) => match flatten(alloc, &drawing) {
            Ok(flat) => Ok(flat),
            Err(fault) => Err(drawing_fault(fault)),
        },
        Err(fault) => Err(drawing_fault(fault)),
    }
}

/// The fault of a text that draws nothing, or boxes too far away or too many.
fn drawing_fault(fault: ReadCifFault) -> ReadLayoutFault
    ensures { result ≡ cif_stop fault }
{
    match fault {
        ReadCifFault::Fault(fault) => ReadLayoutFault::Fault(LayoutFault {
            code: LayoutCode::Drawing(fault.code),
            place: fault.place,
        }),
        ReadCifFault::NoMemory => ReadLayoutFault::NoMemory,
    }
}

/// The fault of boxes and labels that stand for no network.
fn network_fault(fault: ReadChipFault) -> ReadLayoutFault
    ensures { result ≡ extract_stop fault }
{
    match fault {
        ReadChipFault::Fault(fault) => ReadLayoutFault::Fault(LayoutFault {
            code: LayoutCode::Network(fault.code),
            place: fault.place,
        }),
        ReadChipFault::NoMemory => ReadLayoutFault::NoMemory,
    }
}
