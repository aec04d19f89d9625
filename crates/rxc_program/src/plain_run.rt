// Runs that serve no probes.

ghost use Rattle.std.specs.Prelude.{◌≡◌, ◌≢◌, ◌≤◌, None, OnOk, OnErr, IsErrOf};
ghost use Rattle.rx_io.specs.Causes.{Rose};
ghost use Rattle.switch_sim.specs.TraceLines.{GainsLines, GainsFront, first_wrong, named_wrong};

use rx_io::Sink;
use std::alloc::Global;
use switch_net::Network;
use switch_sim::{Asked, RunFault, Trace, run_trace, unserved_runs_write_lines};

/// Runs the network through the trace, and writes a line after each clock and nothing else.
pub(crate) fn run_plain<O: Sink>(
    alloc: Global,
    network: &Network,
    trace: &Trace,
    out: &mut O,
) -> Result<(), RunFault>
    ensures ok { OnOk result (GainsLines (O.held out.old) (O.held out.new) network.now trace.now) }
    ensures width { named_wrong result ≡ first_wrong network.now trace.now }
    ensures unwritten { first_wrong network.now trace.now ≢ None → out.new ≡ out.old }
    ensures front { OnErr result (GainsFront (O.held out.old) (O.held out.new) network.now trace.now) }
    ensures never_falls { O.faults out.old ≤ O.faults out.new }
    ensures cause { IsErrOf result RunFault.WriteFault → Rose (O.faults out.old) (O.faults out.new) }
{
    unserved_runs_write_lines();
    let asked = Asked {
        toggles: false,
        waves: false,
    };
    let mut probes = Vec::new(alloc);
    run_trace(alloc, network, trace, asked, &mut probes, out)
}
