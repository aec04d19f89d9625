// The first pad that repeats another, found by look-ups of names and nets.

ghost use Rattle.std.specs.Prelude.{◌≡◌, ℕ, ◌^◌, ◌<◌, ◌++◌, ◌∷◌, [], List, length, not, IfOk, OnOk};
ghost use Rattle.switch_net.specs.SeenPads.{HasNames, HasNets};
ghost use Rattle.switch_net.specs.Validity.{first_repeat, repeats};
ghost use Rattle.switch_net.specs.declared.network.Pad.{Pad};

use crate::keys::{NameKey, name_key};
use crate::network::Pad;
use rx_text::NoMemory;
use std::alloc::Global;
use std::collections::BTreeSet;

/// The names and the nets of pads.
#[derive(Drop)]
struct SeenPads<'a> {
    names: BTreeSet<NameKey<'a>>,
    nets: BTreeSet<u32>,
}

impl<'a> SeenPads<'a> {
    fn new(alloc: Global) -> SeenPads<'a>
        ensures names { HasNames result.names [] }
        ensures nets { HasNets result.nets [] }
    {
        SeenPads {
            names: BTreeSet::new(alloc),
            nets: BTreeSet::new(alloc),
        }
    }

    /// Adds a pad to these. Whether it has neither the name nor the net of one of them.
    fn add(&mut self, pad: &'a Pad) -> Result<bool, NoMemory>
        ensures new { (pads : List Pad) → HasNames self.old.names pads → HasNets self.old.nets pads
            → IfOk result (λ new. new ≡ not (repeats pads pad.now)) }
        ensures names { (pads : List Pad) → HasNames self.old.names pads → OnOk result (HasNames self.new.names (pads ++ pad.now ∷ [])) }
        ensures nets { (pads : List Pad) → HasNets self.old.nets pads → OnOk result (HasNets self.new.nets (pads ++ pad.now ∷ [])) }
    {
        let new_name = self.names.insert(name_key(&pad.name))?;
        let new_net = self.nets.insert(pad.net.0)?;
        Ok(new_name && new_net)
    }
}

/// The number of the first pad that repeats the name or the net of an earlier pad. Takes memory in proportion to the
/// pads, and time in proportion to their number and its logarithm.
///
/// # Errors
///
/// `NoMemory` where an allocation was refused.
pub fn first_double_pad(alloc: Global, pads: &[Pad]) -> Result<Option<u32>, NoMemory>
    requires pads_fit { length pads.now < 2 ^ 32 }
    ensures { IfOk result (λ first. first ≡ first_repeat [] pads.now) }
{
    let mut seen = SeenPads::new(alloc);
    for (at, pad) in pads.iter().enumerate() {
        if !seen.add(pad)? {
            return Ok(Some(at as u32));
        }
    }
    Ok(None)
}
