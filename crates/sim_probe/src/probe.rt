// What a simulation knows of a probe.

ghost use Rattle.std.specs.Prelude.{◌≡◌, ◌++◌, ◌∷◌, [], IfOk, OnOk, OnErr};
ghost use Rattle.sim_probe.specs.Manner.{verdict};

use crate::{NoMemory, Sample, Verdict};
use rx_text::Role;
use std::alloc::Global;
use switch_net::Level;

/// A recorder of samples. A simulation changes a probe by `see` alone.
pub trait Probe: Drop {
    ghost use Rattle.std.specs.Prelude.{List};
    ghost use Rattle.sim_probe.specs.Manner.{Manner};
    ghost use Rattle.sim_probe.specs.declared.sample.Sample.{Sample};

    // The samples told so far, in order.
    ghost seen: { Self → List Sample };

    // What never changes: the answers of `kind` and `wants`, the bytes for each list of samples, and which lists end the probe.
    ghost manner: { Self → Manner };

    /// Which simulations serve the probe: 0 is served in each, 1 where toggles are asked for, 2 where waves are.
    fn kind(&self) -> u32
        ensures { result ≡ (manner self.now).kind };

    /// Whether samples of the pad with this number and role are due to the probe.
    fn wants(&self, pad: u32, role: Role) -> bool
        ensures { result ≡ (manner self.now).wants pad role };

    /// Tells one more sample: the level of the pad after the clock. `Enough` comes exactly where the list of samples now ends
    /// the probe. At `NoMemory` the sample is not told.
    fn see(&mut self, at: u32, pad: u32, value: Level) -> Result<Verdict, NoMemory>
        ensures told { OnOk result (seen self.new ≡ seen self.old ++ record { at = at; pad = pad; value = value } ∷ []) }
        ensures verdict { IfOk result (λ answer. answer ≡ verdict (manner self.old) (seen self.new)) }
        ensures untold { OnErr result (seen self.new ≡ seen self.old) }
        ensures manner { manner self.new ≡ manner self.old };

    /// The bytes that the probe writes for the samples told so far.
    fn text(&self, alloc: Global) -> Result<Vec<u8>, NoMemory>
        ensures { IfOk result (λ text. text.items ≡ (manner self.now).said (seen self.now)) };
}
