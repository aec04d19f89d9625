// The devices that each net gates.

ghost use Rattle.std.specs.Prelude.{◌≡◌, ◌<◌, ℕ, length, All, IfOk, slice_index_or};
ghost use Rattle.switch_net.specs.ClockedLogic.{NamesBelow};
ghost use Rattle.switch_net.specs.declared.network.Device.{Device};
ghost use Rattle.switch_sim.specs.Gating.{IsGatedBy, IsLeastGated, AreGates, AreEarlierGated, AreLastGated};

use rx_text::NoMemory;
use std::alloc::Global;
use switch_net::Device;

/// The devices that each net gates, as a chain from the last to the first: for each net the number behind its last device, and
/// for each device the number behind the one before it with the same gate. A number behind no device is 0.
#[derive(Drop)]
pub(crate) struct Gates {
    last: Vec<usize>,
    earlier: Vec<usize>,
}

impl Gates {
    /// The chains of these devices at so many nets. Takes time and memory in proportion to both.
    ///
    /// # Errors
    ///
    /// `NoMemory` where an allocation was refused.
    pub(crate) fn new(alloc: Global, devices: &[Device], nets: usize) -> Result<Gates, NoMemory>
        requires { All (NamesBelow nets) devices.now }
        ensures chains { IfOk result (AreGates devices.now) }
        ensures size { IfOk result (λ gates. length gates.last.items ≡ nets) }
    {
        let mut last = vec![in alloc; 0; nets]?;
        let mut earlier = vec![in alloc; 0; devices.len()]?;
        chain_all(devices, &mut last, &mut earlier);
        Ok(Gates { last, earlier })
    }

    /// The number behind the last device that the net gates.
    pub(crate) fn behind_last(&self, net: u32) -> usize
        requires { net < length self.now.last.items }
        ensures { result ≡ slice_index_or self.now.last.items net 0 }
    {
        self.last[net as usize]
    }

    /// The number behind the device before this one with the same gate.
    pub(crate) fn behind_earlier(&self, at: usize) -> usize
        requires { at < length self.now.earlier.items }
        ensures { result ≡ slice_index_or self.now.earlier.items at 0 }
    {
        self.earlier[at]
    }
}

/// Chains all devices.
fn chain_all(devices: &[Device], last: &mut [usize], earlier: &mut [usize])
    requires below { All (NamesBelow (length last.old)) devices.now }
    requires begun { (net : ℕ) → slice_index_or last.old net 0 ≡ 0 }
    requires sized { length earlier.old ≡ length devices.now }
    ensures last { AreLastGated devices.now (length devices.now) last.new }
    ensures earlier { AreEarlierGated devices.now (length devices.now) earlier.new }
    ensures last_size { length last.new ≡ length last.old }
    ensures earlier_size { length earlier.new ≡ length earlier.old }
{
    for (at, device) in devices.iter().enumerate() {
        earlier[at] = chain(*device, at + 1, last);
    }
}

/// Chains one more device, with this number behind it, to those before it with the same gate.
fn chain(device: Device, behind: usize, last: &mut [usize]) -> usize
    requires { NamesBelow (length last.old) device }
    ensures earlier { (net : ℕ) → IsGatedBy device net → result ≡ slice_index_or last.old net 0 }
    ensures here { (net : ℕ) → IsGatedBy device net → slice_index_or last.new net 0 ≡ behind }
    ensures rest { (net : ℕ) → (IsGatedBy device net → ⊥)
        → slice_index_or last.new net 0 ≡ slice_index_or last.old net 0 }
    ensures size { length last.new ≡ length last.old }
{
    match device {
        Device::Load { net: _ } => 0,
        Device::Pass { gate, .. } => {
            let earlier = last[gate.0 as usize];
            last[gate.0 as usize] = behind;
            earlier
        }
    }
}
