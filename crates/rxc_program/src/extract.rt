// The command `extract`: a layout in, the text of the network that it stands for out.

ghost use Rattle.std.specs.Prelude.{◌≡◌, ◌≤◌, length, IfErr, IfOk};
ghost use Rattle.layout_network.specs.Layouts.{IsLayout};
ghost use Rattle.rxc_program.specs.Behaviour.{most_input_bytes};
ghost use Rattle.rxc_program.specs.Endings.{change, CommandRun};
ghost use Rattle.rxc_program.specs.Extracting.{BreaksLayout, extracting};
ghost use Rattle.rxc_program.specs.LayoutCodes.{layout_code};
ghost use Rattle.rxc_program.specs.Serving.{AnswersText, StopsBy};

use crate::input::read_input;
use crate::net::write_network;
use crate::status::{Code, Status};
use layout_network::{
    LayoutCode, ReadLayoutFault, layouts_have_one_reading, layouts_stand_for_networks, read_layout,
};
use rx_io::{Sink, Source};
use std::alloc::Global;
use switch_net::Network;

/// Reads a layout and writes the text of the network that it stands for.
pub(crate) fn extract<S: Source, O: Sink>(alloc: Global, src: &mut S, out: &mut O) -> Status
    ensures { CommandRun extracting (change S.left S.faults src.old src.new) (change O.held O.faults out.old out.new) result }
{
    match read_input(alloc, src) {
        Ok(text) => answer(alloc, &text, out),
        Err(status) => status,
    }
}

/// Writes the text of the network that the layout stands for.
fn answer<O: Sink>(alloc: Global, text: &[u8], out: &mut O) -> Status
    requires { length text.now ≤ most_input_bytes }
    ensures answers { AnswersText extracting (change O.held O.faults out.old out.new) text.now result }
    ensures count { O.faults out.old ≤ O.faults out.new }
{
    layouts_have_one_reading();
    layouts_stand_for_networks();
    match layout_of(alloc, text) {
        Ok(network) => write_network(&network, out),
        Err(status) => status,
    }
}

/// The network that the layout stands for.
pub(crate) fn layout_of(alloc: Global, text: &[u8]) -> Result<Network, Status>
    requires { length text.now ≤ most_input_bytes }
    ensures layout { IfOk result (λ network. IsLayout text.now network) }
    ensures status { IfErr result (StopsBy (BreaksLayout text.now)) }
{
    match read_layout(alloc, text) {
        Ok(network) => Ok(network),
        Err(ReadLayoutFault::Fault(fault)) => Err(Status::Refused {
            code: code_of(fault.code),
            place: fault.place,
        }),
        Err(ReadLayoutFault::NoMemory) => Err(Status::NoMemory),
    }
}

/// The code of a fault in a layout.
fn code_of(code: LayoutCode) -> Code
    ensures { result ≡ layout_code code }
{
    match code {
        LayoutCode::Drawing(code) => Code::of_cif(code),
        LayoutCode::Network(code) => Code::of_extract(code),
    }
}
