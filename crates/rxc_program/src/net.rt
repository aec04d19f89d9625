// The command `net`: a specification in, the text of its switch network out.

ghost use Rattle.std.specs.Prelude.{◌≡◌, ◌≤◌, length, IfErr, IfOk};
ghost use Rattle.rx_lang.specs.Specification.{Specification};
ghost use Rattle.rx_lang.specs.Tables.{specification};
ghost use Rattle.rx_syntax.specs.Accepted.{Accepted};
ghost use Rattle.switch_net.specs.Validity.{IsNetwork};
ghost use Rattle.net_text.specs.NetworkText.{network_text};
ghost use Rattle.rxc_program.specs.Behaviour.{most_input_bytes};
ghost use Rattle.rxc_program.specs.Compiling.{BreaksSpecification, compiling};
ghost use Rattle.rxc_program.specs.Endings.{change, CommandRun};
ghost use Rattle.rxc_program.specs.Files.{IsNetworkOf, most_leaves, network_file};
ghost use Rattle.rxc_program.specs.Serving.{AnswersText, StopsBy, TakesPiece};

use crate::input::{read_input, specification};
use crate::status::Status;
use cell_network::cells;
use net_text::write_net;
use nor_net::to_switch;
use rx_io::{Sink, Source};
use rx_lang::Spec;
use rx_syntax::laws::accepted_names_are_names;
use star_normal::normalize;
use std::alloc::Global;
use switch_net::Network;

/// The most symbols in the expressions of a specification.
const MOST_LEAVES: u32 = 4096;

/// Reads a specification and writes the text of its network.
pub(crate) fn net<S: Source, O: Sink>(alloc: Global, src: &mut S, out: &mut O) -> Status
    ensures { CommandRun (compiling network_file) (change S.left S.faults src.old src.new) (change O.held O.faults out.old out.new) result }
{
    match read_input(alloc, src) {
        Ok(text) => answer(alloc, &text, out),
        Err(status) => status,
    }
}

/// Writes the text of the network of the specification that the text is.
fn answer<O: Sink>(alloc: Global, text: &[u8], out: &mut O) -> Status
    requires { length text.now ≤ most_input_bytes }
    ensures answers { AnswersText (compiling network_file) (change O.held O.faults out.old out.new) text.now result }
    ensures count { O.faults out.old ≤ O.faults out.new }
{
    accepted_names_are_names();
    match compile(alloc, text) {
        Ok(network) => write_network(&network, out),
        Err(status) => status,
    }
}

/// The network of the specification that the text is.
fn compile(alloc: Global, text: &[u8]) -> Result<Network, Status>
    requires { length text.now ≤ most_input_bytes }
    ensures network { IfOk result (λ network. (spec : Specification) × Accepted text.now (most_leaves network_file) spec × IsNetworkOf spec network) }
    ensures valid { IfOk result (λ network. IsNetwork network × (network.nets ≤ 16777216)) }
    ensures status { IfErr result (StopsBy (BreaksSpecification (most_leaves network_file) text.now)) }
{
    let spec = specification(alloc, text, MOST_LEAVES)?;
    network_of(alloc, &spec)
}

/// The network of the cells of the specification's normal form.
fn network_of(alloc: Global, spec: &Spec) -> Result<Network, Status>
    ensures network { IfOk result (λ network. IsNetworkOf (specification spec.now) network) }
    ensures valid { IfOk result (λ network. IsNetwork network × (network.nets ≤ 16777216)) }
    ensures status { IfErr result (λ status. status ≡ Status.NoMemory) }
{
    let Ok(tree) = normalize(alloc, spec) else {
        return Err(Status::NoMemory);
    };
    let Ok(netlist) = cells(alloc, &tree, spec) else {
        return Err(Status::NoMemory);
    };
    match to_switch(alloc, &netlist) {
        Ok(network) => Ok(network),
        Err(_) => Err(Status::NoMemory),
    }
}

/// Writes the text of the network.
pub(crate) fn write_network<O: Sink>(network: &Network, out: &mut O) -> Status
    ensures taken { TakesPiece (change O.held O.faults out.old out.new) (network_text network.now) result }
    ensures count { O.faults out.old ≤ O.faults out.new }
{
    match write_net(network, out) {
        Ok(()) => Status::Done,
        Err(_) => Status::WriteFault,
    }
}
