// Netlists of gates and transfers, with orders of evaluation.

ghost use Rattle.std.specs.Prelude.{◌≡◌};
ghost use Rattle.nor_net.specs.Netlist.{IsNetlist};

use crate::gate::{Gate, Transfer};
use std::marker::Model;
use switch_net::Pad;

/// A network of NOR gates and clocked transfers. Its pads are those of a switch network, at most 16 of them inputs.
///
/// A gate's output is no pad's net but perhaps an output's, and no gate names an input twice. A transfer leads from a
/// gate's output, the reset or an input to a net that is neither a gate's output nor a pad's, and no two transfers lead to
/// one net. Each order of evaluation, for PHI1 and for PHI2, holds every net once: a gate's output stands behind its
/// inputs, and the target of a transfer of that clock behind its source.
#[derive(Drop)]
pub struct NorNet {
    nets: u32,
    gates: Vec<Gate>,
    transfers: Vec<Transfer>,
    pads: Vec<Pad>,
    order1: Vec<u32>,
    order2: Vec<u32>,
}

impl Model for NorNet {
    ghost use Rattle.nor_net.specs.Netlist.{Netlist, IsNetlist};

    ghost Value = { Netlist };

    ghost view = { λ n. record {
      nets = n.nets;
      gates = n.gates.items;
      transfers = n.transfers.items;
      pads = n.pads.items;
      order1 = n.order1.items;
      order2 = n.order2.items;
    } };

    ghost invariant = { λ n. IsNetlist (record {
      nets = n.nets;
      gates = n.gates.items;
      transfers = n.transfers.items;
      pads = n.pads.items;
      order1 = n.order1.items;
      order2 = n.order2.items;
    }) };
}

impl NorNet {
    /// The network of these parts.
    pub fn new(
        nets: u32,
        gates: Vec<Gate>,
        transfers: Vec<Transfer>,
        pads: Vec<Pad>,
        order1: Vec<u32>,
        order2: Vec<u32>,
    ) -> NorNet
        requires { IsNetlist (record {
          nets = nets;
          gates = gates.items;
          transfers = transfers.items;
          pads = pads.items;
          order1 = order1.items;
          order2 = order2.items;
        }) }
        ensures { result ≡ record {
          nets = nets;
          gates = gates.items;
          transfers = transfers.items;
          pads = pads.items;
          order1 = order1.items;
          order2 = order2.items;
        } }
    {
        NorNet {
            nets,
            gates,
            transfers,
            pads,
            order1,
            order2,
        }
    }

    /// The number of nets.
    pub fn nets(&self) -> u32
        ensures nets { result ≡ self.now.nets }
        ensures netlist { IsNetlist self.now }
    {
        self.nets
    }

    /// The gates.
    pub fn gates(&self) -> &[Gate]
        ensures gates { result.now ≡ self.now.gates }
        ensures netlist { IsNetlist self.now }
    {
        &self.gates
    }

    /// The transfers.
    pub fn transfers(&self) -> &[Transfer]
        ensures transfers { result.now ≡ self.now.transfers }
        ensures netlist { IsNetlist self.now }
    {
        &self.transfers
    }

    /// The pads.
    pub fn pads(&self) -> &[Pad]
        ensures pads { result.now ≡ self.now.pads }
        ensures netlist { IsNetlist self.now }
    {
        &self.pads
    }

    /// The order of evaluation while PHI1 is high.
    pub fn order1(&self) -> &[u32]
        ensures order { result.now ≡ self.now.order1 }
        ensures netlist { IsNetlist self.now }
    {
        &self.order1
    }

    /// The order of evaluation while PHI2 is high.
    pub fn order2(&self) -> &[u32]
        ensures order { result.now ≡ self.now.order2 }
        ensures netlist { IsNetlist self.now }
    {
        &self.order2
    }
}
