//! What plans of wires are. Each law is the contract of a function that runs nothing.

ghost use Rattle.wiring.specs.WiringNets.{WiringsAreModules};

use stick_grid::laws::names_are_nets;

/// Spans of poly and runs of metal that hang together by contacts are a module without devices: each net of its tiles is the net of
/// a span or a run, joined with all that has its name, and what crosses the rim of the plan is all that leads out.
pub fn wirings_are_modules()
    ensures { WiringsAreModules }
{
    names_are_nets();
}
