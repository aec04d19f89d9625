// The parts of a netlist.

ghost use Rattle.std.specs.Prelude.{◌≡◌};

use rx_text::Role;
use std::marker::Model;

/// A NOR gate. Several gates with one output share its load: together they are one NOR of all their inputs.
#[derive(Drop)]
pub struct Gate {
    out: u32,
    inputs: Vec<u32>,
}

impl Model for Gate {
    ghost use Rattle.nor_net.specs.Netlist.{NorGate};

    ghost Value = { NorGate };

    ghost view = { λ g. record { out = g.out; inputs = g.inputs.items } };
}

impl Gate {
    /// The gate with this output and these inputs.
    pub fn new(out: u32, inputs: Vec<u32>) -> Gate
        ensures { result ≡ record { out = out; inputs = inputs.items } }
    {
        Gate { out, inputs }
    }

    /// The net of the output.
    pub fn out(&self) -> u32
        ensures { result ≡ self.now.out }
    {
        self.out
    }

    /// The nets of the inputs.
    pub fn inputs(&self) -> &[u32]
        ensures { result.now ≡ self.now.inputs }
    {
        &self.inputs
    }
}

/// A pass device that leads the net `from` to the net `to` while the clock, Phi1 or Phi2, is high.
#[derive(Clone, Copy, Debug, PartialEq, Eq)]
pub struct Transfer {
    pub clock: Role,
    pub from: u32,
    pub to: u32,
}
