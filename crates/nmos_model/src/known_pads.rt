// Pads by their names and nets, as the naming of nets looks them up.

ghost use Rattle.std.specs.Prelude.{◌≡◌, [], true, false, IfOk};
ghost use Rattle.nmos_model.specs.KnownPads.{IsKnown, IsAdded, HasClash};

use rx_text::NoMemory;
use std::alloc::Global;
use std::collections::{BTreeMap, BTreeSet};
use switch_net::{NameKey, Pad, name_key};

/// Pads of one name and one net each.
#[derive(Drop)]
pub(crate) struct KnownPads<'a> {
    pads: Vec<Pad>,
    names: BTreeMap<NameKey<'a>, u32>,
    nets: BTreeSet<u32>,
}

impl<'a> KnownPads<'a> {
    /// No pads.
    pub(crate) fn new(alloc: Global) -> KnownPads<'a>
        ensures none { result.pads.items ≡ [] }
        ensures known { IsKnown result }
    {
        KnownPads {
            pads: Vec::new(alloc),
            names: BTreeMap::new(alloc),
            nets: BTreeSet::new(alloc),
        }
    }

    /// Adds a pad to these, where none of them has its name or its net. Whether it agrees with all of them: none has its name
    /// on another net, or another name on its net.
    pub(crate) fn add(&mut self, pad: &'a Pad) -> Result<bool, NoMemory>
        requires { IsKnown self.old }
        ensures known { IfOk result (λ agrees. agrees ≡ true → IsKnown self.new) }
        ensures added { IfOk result (λ agrees. agrees ≡ true → IsAdded self.old.pads.items pad.now self.new.pads.items) }
        ensures clash { IfOk result (λ agrees. agrees ≡ false → HasClash self.old.pads.items pad.now) }
    {
        let key = name_key(&pad.name);
        if let Some(net) = self.names.get(&key).copied() {
            return Ok(net == pad.net.0);
        }
        if !self.nets.insert(pad.net.0)? {
            return Ok(false);
        }
        self.names.insert(key, pad.net.0)?;
        self.pads.push(*pad)?;
        Ok(true)
    }

    /// The pads, in the order in which they were added.
    pub(crate) fn into_pads(self) -> Vec<Pad>
        ensures { result.items ≡ self.entry.pads.items }
    {
        self.pads
    }
}
