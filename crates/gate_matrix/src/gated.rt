// The nets that gate the devices of a group of rows.

ghost use Rattle.std.specs.Prelude.{◌≡◌, ◌==◌, IfOk};
ghost use Rattle.std.specs.List.{list_any};

use rx_text::NoMemory;
use std::alloc::Global;
use std::marker::Model;

/// Nets in an order of their own, which contracts see. They are looked up in a sorted copy.
#[derive(Drop)]
pub struct Gated {
    nets: Vec<u32>,
    sorted: Vec<u32>,
}

impl Model for Gated {
    ghost use Rattle.std.specs.Prelude.{ℕ, List};
    ghost use Rattle.gate_matrix.specs.SortedNets.{AreSorted};

    ghost Value = { List ℕ };

    ghost view = { λ gated. gated.nets.items };

    ghost invariant = { λ gated. AreSorted gated.nets.items gated.sorted.items };
}

impl Gated {
    /// These nets.
    pub fn new(alloc: Global, nets: &[u32]) -> Result<Gated, NoMemory>
        ensures { IfOk result (λ gated. gated ≡ nets.now) }
    {
        let mut sorted = Vec::from_slice(alloc, nets)?;
        sorted.sort_unstable();
        let nets = Vec::from_slice(alloc, nets)?;
        Ok(Gated { nets, sorted })
    }

    /// Whether the net is one of them, in a number of steps that grows as the logarithm of theirs.
    pub fn has(&self, net: u32) -> bool
        ensures { result ≡ list_any (λ one. one == net) self.now }
    {
        self.sorted.binary_search(&net).is_ok()
    }
}
