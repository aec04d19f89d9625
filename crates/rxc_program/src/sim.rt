// The command `sim`: a trace and a chip in, the levels of the outputs after each clock out.

ghost use Rattle.std.specs.Prelude.{ℕ, ◌≡◌, ◌<◌, ◌≤◌, ◌+◌, ◌^◌, length, IfErr, IfOk};
ghost use Rattle.rx_text.specs.declared.place.Place.TheVariants.{Text};
ghost use Rattle.net_text.specs.NetworkText.{IsNetworkText};
ghost use Rattle.switch_sim.specs.TraceTexts.{IsTrace};
ghost use Rattle.rxc_program.specs.Behaviour.{most_input_bytes};
ghost use Rattle.rxc_program.specs.Chips.{BreaksNetwork, IsChip, IsNoChip};
ghost use Rattle.rxc_program.specs.Endings.{change, CommandRun};
ghost use Rattle.rxc_program.specs.Serving.{AnswersText, StopsBy, TakesLines};
ghost use Rattle.rxc_program.specs.Simulating.{BreaksBehind, BreaksDriven, BreaksTrace, IsDrivenBy, lower, simulating};

use crate::extract::layout_of;
use crate::input::read_input;
use crate::plain_run::run_plain;
use crate::status::{Code, Status};
use layout_network::layout_refusals_stand_in_the_text;
use net_text::{ReadNetFault, read_net, refusals_stand_in_the_text};
use rx_io::{Sink, Source};
use rx_text::Place;
use std::alloc::Global;
use switch_net::Network;
use switch_sim::{ReadTraceFault, RunFault, Trace, read_trace};

/// How a network text begins.
const NETWORK_FRONT: &[u8] = b"rxnet 1\n";

/// Reads a trace and a chip, runs the chip through the trace, and writes a line after each clock.
pub(crate) fn sim<S: Source, O: Sink>(alloc: Global, src: &mut S, out: &mut O) -> Status
    ensures { CommandRun simulating (change S.left S.faults src.old src.new) (change O.held O.faults out.old out.new) result }
{
    match read_input(alloc, src) {
        Ok(text) => answer(alloc, &text, out),
        Err(status) => status,
    }
}

/// Runs the chip of the text through the trace before it.
fn answer<O: Sink>(alloc: Global, text: &[u8], out: &mut O) -> Status
    requires { length text.now ≤ most_input_bytes }
    ensures answers { AnswersText simulating (change O.held O.faults out.old out.new) text.now result }
    ensures count { O.faults out.old ≤ O.faults out.new }
{
    match read_driven(alloc, text) {
        Ok((trace, network)) => run_through(alloc, &network, &trace, out),
        Err(status) => status,
    }
}

/// The trace and the network that it drives.
fn read_driven(alloc: Global, text: &[u8]) -> Result<(Trace, Network), Status>
    requires { length text.now ≤ most_input_bytes }
    ensures driven { IfOk result (λ read. IsDrivenBy text.now read.0 read.1) }
    ensures status { IfErr result (StopsBy (BreaksDriven text.now)) }
{
    let (trace, at) = trace_of(alloc, text)?;
    let (_, chip) = text.split_at(at);
    let network = chip_behind(alloc, chip, trace.len() as u32 + 1)?;
    Ok((trace, network))
}

/// The trace at the front of the text, and the place behind it.
fn trace_of(alloc: Global, text: &[u8]) -> Result<(Trace, usize), Status>
    requires { length text.now ≤ most_input_bytes }
    ensures trace { IfOk result (λ read. IsTrace text.now read.0 read.1) }
    ensures within { IfOk result (λ read. read.1 ≤ length text.now) }
    ensures status { IfErr result (StopsBy (BreaksTrace text.now)) }
{
    match read_trace(alloc, text) {
        Ok(read) => Ok(read),
        Err(ReadTraceFault::Fault(fault)) => Err(Status::Refused {
            code: Code::of_trace(fault.code),
            place: fault.place,
        }),
        Err(ReadTraceFault::NoMemory) => Err(Status::NoMemory),
    }
}

/// The network of the chip whose text stands behind so many lines.
fn chip_behind(alloc: Global, chip: &[u8], lines: u32) -> Result<Network, Status>
    requires within { length chip.now ≤ most_input_bytes }
    requires few { lines ≤ 10001 }
    ensures network { IfOk result (λ network. IsChip chip.now network) }
    ensures status { IfErr result (StopsBy (BreaksBehind chip.now lines)) }
{
    refusals_stand_in_the_text();
    layout_refusals_stand_in_the_text();
    match chip_of(alloc, chip) {
        Err(Status::Refused { code, place }) => Err(Status::Refused {
            code,
            place: lower(place, lines),
        }),
        other => other,
    }
}

/// The network that the chip stands for: a network text where it begins as one, else a layout.
fn chip_of(alloc: Global, chip: &[u8]) -> Result<Network, Status>
    requires { length chip.now ≤ most_input_bytes }
    ensures network { IfOk result (λ network. IsChip chip.now network) }
    ensures status { IfErr result (StopsBy (IsNoChip chip.now)) }
{
    if chip.starts_with(NETWORK_FRONT) {
        network_of(alloc, chip)
    } else {
        layout_of(alloc, chip)
    }
}

/// The network that the network text stands for.
fn network_of(alloc: Global, text: &[u8]) -> Result<Network, Status>
    requires { length text.now ≤ most_input_bytes }
    ensures network { IfOk result (λ network. IsNetworkText text.now network) }
    ensures status { IfErr result (StopsBy (BreaksNetwork text.now)) }
{
    match read_net(alloc, text) {
        Ok(network) => Ok(network),
        Err(ReadNetFault::Fault(fault)) => Err(Status::Refused {
            code: Code::of_net(fault.code),
            place: fault.place,
        }),
        Err(ReadNetFault::NoMemory) => Err(Status::NoMemory),
    }
}

/// The place so many lines lower.
fn lower(place: Place, lines: u32) -> Place
    requires { (line column : ℕ) → place ≡ Text line column → line + lines < 2 ^ 32 }
    ensures { result ≡ lower lines place }
{
    match place {
        Place::Text { line, column } => Place::Text {
            line: line + lines,
            column,
        },
        Place::Square { .. } | Place::Whole => place,
    }
}

/// Runs the network through the trace.
fn run_through<O: Sink>(alloc: Global, network: &Network, trace: &Trace, out: &mut O) -> Status
    requires { length trace.now ≤ 10000 }
    ensures taken { TakesLines (change O.held O.faults out.old out.new) network.now trace.now result }
    ensures count { O.faults out.old ≤ O.faults out.new }
{
    match run_plain(alloc, network, trace, out) {
        Ok(()) => Status::Done,
        Err(RunFault::WrongWidth { vector }) => Status::Refused {
            code: Code::V2,
            place: Place::Text {
                line: vector + 1,
                column: 1,
            },
        },
        Err(RunFault::WriteFault) => Status::WriteFault,
        Err(RunFault::NoMemory) => Status::NoMemory,
    }
}
