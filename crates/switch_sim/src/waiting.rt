// Nets that wait for their devices to be looked at.

ghost use Rattle.std.specs.Prelude.{◌≡◌, ◌<◌, ◌≤◌, ◌+◌, ℕ, None, [], ◌∷◌, ◌++◌, length, IfOk, IfSome, slice_index_or};
ghost use Rattle.switch_sim.specs.Rooms.{HaveRoom};
ghost use Rattle.switch_sim.specs.Waiting.{Waits, IsBehind};

use rx_text::NoMemory;
use std::alloc::Global;
use std::marker::Model;
use switch_net::Net;

/// Nets of a network that wait, each once, with room for all of them: adding and taking a net take no memory.
#[derive(Drop)]
pub(crate) struct Waiting {
    nets: Vec<u32>,
    flags: Vec<bool>,
    count: usize,
}

impl Model for Waiting {
    ghost use Rattle.std.specs.Prelude.{length, take};
    ghost use Rattle.switch_sim.specs.Waiting.{WaitingNets, IsWaiting};

    ghost Value = { WaitingNets };

    ghost view = { λ w. record { size = length w.flags.items; nets = take w.count w.nets.items } };

    ghost invariant = { λ w. IsWaiting w.count w.nets.items w.flags.items };
}

impl Waiting {
    /// Room for so many nets, of which none waits.
    ///
    /// # Errors
    ///
    /// `NoMemory` where an allocation was refused.
    pub(crate) fn new(alloc: Global, size: usize) -> Result<Waiting, NoMemory>
        ensures { IfOk result (λ waiting. waiting ≡ record { size = size; nets = [] }) }
    {
        Ok(Waiting {
            nets: vec![in alloc; 0; size]?,
            flags: vec![in alloc; false; size]?,
            count: 0,
        })
    }

    /// The net waits from now on, behind the others where it is new.
    pub(crate) fn add(&mut self, net: Net)
        requires { net.0 < self.old.size }
        ensures waits { Waits self.new.nets net.0 }
        ensures kept { (other : ℕ) → Waits self.old.nets other → Waits self.new.nets other }
        ensures most { length self.new.nets ≤ length self.old.nets + 1 }
        ensures behind { IsBehind self.old.nets net.0 self.new.nets }
        ensures size { self.new.size ≡ self.old.size }
    {
        if !self.flags[net.0 as usize] {
            self.flags[net.0 as usize] = true;
            self.nets[self.count] = net.0;
            self.count += 1;
        }
    }

    /// There are no more nets than there is room for. It runs nothing: a caller has the law from its contract.
    pub(crate) fn fits(&self)
        ensures { length self.now.nets ≤ self.now.size }
    {
        let _count = &self.count;
    }

    /// How many nets there are.
    pub(crate) fn len(&self) -> usize
        ensures count { result ≡ length self.now.nets }
        ensures most { result ≤ self.now.size }
    {
        self.count
    }

    /// The net of this number, from 0.
    pub(crate) fn get(&self, at: usize) -> u32
        requires { at < length self.now.nets }
        ensures net { result ≡ slice_index_or self.now.nets at 0 }
        ensures within { result < self.now.size }
    {
        self.nets[at]
    }

    /// Takes the last net that waits.
    pub(crate) fn pop(&mut self) -> Option<u32>
        ensures none { result ≡ None → self.old.nets ≡ [] }
        ensures left { result ≡ None → self.new.nets ≡ [] }
        ensures some { IfSome result (λ net. self.old.nets ≡ self.new.nets ++ net ∷ []) }
        ensures within { IfSome result (λ net. net < self.old.size) }
        ensures size { self.new.size ≡ self.old.size }
    {
        if self.count == 0 {
            return None;
        }
        self.count -= 1;
        let net = self.nets[self.count];
        self.flags[net as usize] = false;
        Some(net)
    }
}

/// The lists of nets that a settling keeps: a group, a sure group of its members, the nets that are looked at next, and those
/// behind them.
#[derive(Drop)]
pub(crate) struct Lists {
    pub(crate) group: Waiting,
    pub(crate) part: Waiting,
    pub(crate) now: Waiting,
    pub(crate) next: Waiting,
}

impl Lists {
    /// Room for so many nets in each.
    ///
    /// # Errors
    ///
    /// `NoMemory` where an allocation was refused.
    pub(crate) fn new(alloc: Global, size: usize) -> Result<Lists, NoMemory>
        ensures { IfOk result (HaveRoom size) }
    {
        Ok(Lists {
            group: Waiting::new(alloc, size)?,
            part: Waiting::new(alloc, size)?,
            now: Waiting::new(alloc, size)?,
            next: Waiting::new(alloc, size)?,
        })
    }
}
