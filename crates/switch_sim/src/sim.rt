// The simulation of a network.

ghost use Rattle.std.specs.Prelude.{◌≡◌, ℕ, ◌<◌, length, IfOk, replicate};
ghost use Rattle.switch_net.specs.Clock.{drives_of};
ghost use Rattle.switch_net.specs.Ternary.{SettledLevels, ClockLevels};
ghost use Rattle.switch_net.specs.declared.network.Level.TheVariants as level;
ghost use Rattle.switch_net.specs.SameNetworks.{renamed};
ghost use Rattle.switch_sim.specs.Naming.{number, AreNames, levels_from};
ghost use Rattle.switch_sim.specs.Nets.{IsSized};
ghost use Rattle.switch_sim.specs.Simulation.{level_at};

use crate::drive::Drive;
use crate::names::{names_of, numbered, place};
use crate::settling::{Nets, settle};
use rx_text::NoMemory;
use std::alloc::Global;
use std::marker::Model;
use switch_net::{Level, Net, Network, same_networks_run_alike, settled_levels_are_least};

/// A simulation of a network by ternary levels: a net is low or high where that is so whatever was unknown before, else
/// unknown. Nets that no pad and no device names cost neither time nor memory.
#[derive(Drop)]
pub struct Sim<'a> {
    network: &'a Network,
    names: Vec<u32>,
    numbered: Network,
    nets: Nets,
    drive: Vec<bool>,
}

impl<'a> Model for Sim<'a> {
    ghost use Rattle.switch_sim.specs.Naming.{levels_from};
    ghost use Rattle.switch_sim.specs.Simulating.{IsSimulation};
    ghost use Rattle.switch_sim.specs.Simulation.{Simulation};

    ghost Value = { Simulation };

    ghost view = { λ s. record {
      circuit = s.network.now;
      levels = levels_from s.names.items s.nets.levels.items 0 s.network.now.nets;
    } };

    ghost invariant = { λ s. IsSimulation s.network.now s.names.items s.numbered s.nets s.drive.items };
}

impl<'a> Sim<'a> {
    /// A simulation of the network in which nothing is known of any net. All its memory is taken here.
    ///
    /// # Errors
    ///
    /// `NoMemory` where an allocation was refused.
    pub fn new(alloc: Global, network: &'a Network) -> Result<Sim<'a>, NoMemory>
        ensures { IfOk result (λ sim. sim
            ≡ record { circuit = network.now; levels = replicate network.now.nets level.Unknown }) }
    {
        let names = names_of(alloc, network)?;
        let numbered = numbered(alloc, network, &names)?;
        let nets = Nets::new(alloc, &numbered)?;
        let drive = vec![in alloc; false; network.pads().len()]?;
        Ok(Sim {
            network,
            names,
            numbered,
            nets,
            drive,
        })
    }

    /// Drives the pads so and settles once. There is one value for each pad; those at VDD, GND and the outputs are not
    /// looked at.
    pub fn phase(&mut self, drive: &[bool])
        requires { length drive.now ≡ length self.old.circuit.pads }
        ensures levels { SettledLevels self.old.circuit drive.now (level_at self.old.levels)
            (level_at self.new.levels) }
        ensures circuit { self.new.circuit ≡ self.old.circuit }
    {
        settle_numbered(
            self.network,
            &self.names,
            &self.numbered,
            drive,
            &mut self.nets,
        );
    }

    /// One clock: the input pads take the bits of the vector in their order and the reset its value while both clocks are
    /// low, then PHI1 is high and low, and PHI2 high and low. An input pad for which there is no bit is low.
    pub fn clock(&mut self, vector: &[bool], reset: bool)
        ensures levels { ClockLevels self.old.circuit reset vector.now (level_at self.old.levels)
            (level_at self.new.levels) }
        ensures circuit { self.new.circuit ≡ self.old.circuit }
    {
        self.settle_in(&phase(false, false, vector, reset));
        self.settle_in(&phase(true, false, vector, reset));
        self.settle_in(&phase(false, false, vector, reset));
        self.settle_in(&phase(false, true, vector, reset));
        self.settle_in(&phase(false, false, vector, reset));
    }

    /// Settles once in this phase of the clock.
    fn settle_in(&mut self, drive: &Drive)
        ensures levels { SettledLevels self.old.circuit (drives_of drive.now self.old.circuit.pads)
            (level_at self.old.levels) (level_at self.new.levels) }
        ensures circuit { self.new.circuit ≡ self.old.circuit }
    {
        drive.fill(self.network.pads(), &mut self.drive);
        settle_numbered(
            self.network,
            &self.names,
            &self.numbered,
            &self.drive,
            &mut self.nets,
        );
    }

    /// The level of the net.
    pub fn value(&self, net: Net) -> Level
        requires { net.0 < self.now.circuit.nets }
        ensures { result ≡ level_at self.now.levels net.0 }
    {
        match place(&self.names, net.0) {
            Some(at) => self.nets.levels[at],
            None => Level::Unknown,
        }
    }
}

/// Settles the network by that in which its named nets have their numbers.
fn settle_numbered(
    network: &Network,
    names: &[u32],
    numbered: &Network,
    drive: &[bool],
    nets: &mut Nets,
)
    requires named { AreNames network.now names.now }
    requires same { numbered.now ≡ renamed (number names.now) (length names.now) network.now }
    requires sized { IsSized numbered.now nets.old }
    requires driven { length drive.now ≡ length network.now.pads }
    ensures levels { SettledLevels network.now drive.now (level_at (levels_from names.now nets.old.levels.items 0 network.now.nets))
        (level_at (levels_from names.now nets.new.levels.items 0 network.now.nets)) }
    ensures size { IsSized numbered.now nets.new }
{
    same_networks_run_alike();
    settled_levels_are_least();
    let _valid = network.pads();
    settle(numbered, drive, nets);
}

/// What drives the pads while the clocks are so.
fn phase<'a>(phi1: bool, phi2: bool, vector: &'a [bool], reset: bool) -> Drive<'a>
    ensures { result ≡ record { phi1 = phi1; phi2 = phi2; reset = reset; lines = vector.now } }
{
    Drive {
        phi1,
        phi2,
        reset,
        lines: vector,
    }
}
