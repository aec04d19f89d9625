// Pieces of a netlist, which are joined at their ports.

ghost use Rattle.std.specs.Prelude.{◌≡◌};
ghost use Rattle.nor_net.specs.Part.{IsPart};

use crate::gate::{Gate, Transfer};
use std::marker::Model;

/// A port of a part: the net by which another part is joined, under a name.
#[derive(Clone, Copy, Debug, PartialEq, Eq)]
pub struct PartPort {
    pub name: u32,
    pub net: u32,
}

/// The numbers of the supplies and the clocks in a part.
#[derive(Clone, Copy, Debug, PartialEq, Eq)]
pub struct Supplies {
    pub vdd: u32,
    pub gnd: u32,
    pub phi1: u32,
    pub phi2: u32,
}

/// A piece of a netlist of at most 2^16 nets. Its supplies and clocks are nets of its own numbering, and no two of them are
/// one net. A gate whose output is not among the loads only pulls that net low; each load stands once. Several ports may
/// name one net.
#[derive(Drop)]
pub struct Part {
    nets: u32,
    supplies: Supplies,
    gates: Vec<Gate>,
    loads: Vec<u32>,
    transfers: Vec<Transfer>,
    ports: Vec<PartPort>,
}

impl Model for Part {
    ghost use Rattle.nor_net.specs.Part.{PartTables, IsPart};

    ghost Value = { PartTables };

    ghost view = { λ p. record {
      nets = p.nets;
      vdd = p.supplies.vdd;
      gnd = p.supplies.gnd;
      phi1 = p.supplies.phi1;
      phi2 = p.supplies.phi2;
      gates = p.gates.items;
      loads = p.loads.items;
      transfers = p.transfers.items;
      ports = p.ports.items;
    } };

    ghost invariant = { λ p. IsPart (record {
      nets = p.nets;
      vdd = p.supplies.vdd;
      gnd = p.supplies.gnd;
      phi1 = p.supplies.phi1;
      phi2 = p.supplies.phi2;
      gates = p.gates.items;
      loads = p.loads.items;
      transfers = p.transfers.items;
      ports = p.ports.items;
    }) };
}

impl Part {
    /// The part with these nets and devices.
    pub fn new(
        nets: u32,
        supplies: Supplies,
        gates: Vec<Gate>,
        loads: Vec<u32>,
        transfers: Vec<Transfer>,
        ports: Vec<PartPort>,
    ) -> Part
        requires { IsPart (record {
          nets = nets;
          vdd = supplies.vdd;
          gnd = supplies.gnd;
          phi1 = supplies.phi1;
          phi2 = supplies.phi2;
          gates = gates.items;
          loads = loads.items;
          transfers = transfers.items;
          ports = ports.items;
        }) }
        ensures { result ≡ record {
          nets = nets;
          vdd = supplies.vdd;
          gnd = supplies.gnd;
          phi1 = supplies.phi1;
          phi2 = supplies.phi2;
          gates = gates.items;
          loads = loads.items;
          transfers = transfers.items;
          ports = ports.items;
        } }
    {
        Part {
            nets,
            supplies,
            gates,
            loads,
            transfers,
            ports,
        }
    }

    /// The number of nets.
    pub fn nets(&self) -> u32
        ensures nets { result ≡ self.now.nets }
        ensures part { IsPart self.now }
    {
        self.nets
    }

    /// The nets of the supplies and the clocks.
    pub fn supplies(&self) -> Supplies
        ensures supplies { result ≡ record {
          vdd = self.now.vdd;
          gnd = self.now.gnd;
          phi1 = self.now.phi1;
          phi2 = self.now.phi2;
        } }
        ensures part { IsPart self.now }
    {
        self.supplies
    }

    /// The gates.
    pub fn gates(&self) -> &[Gate]
        ensures gates { result.now ≡ self.now.gates }
        ensures part { IsPart self.now }
    {
        &self.gates
    }

    /// The nets whose load is in this part.
    pub fn loads(&self) -> &[u32]
        ensures loads { result.now ≡ self.now.loads }
        ensures part { IsPart self.now }
    {
        &self.loads
    }

    /// The transfers.
    pub fn transfers(&self) -> &[Transfer]
        ensures transfers { result.now ≡ self.now.transfers }
        ensures part { IsPart self.now }
    {
        &self.transfers
    }

    /// The ports.
    pub fn ports(&self) -> &[PartPort]
        ensures ports { result.now ≡ self.now.ports }
        ensures part { IsPart self.now }
    {
        &self.ports
    }
}
