// The devices at each net.

ghost use Rattle.std.specs.Prelude.{◌≡◌, ◌<◌, ℕ, length, All, IfOk, slice_index_or};
ghost use Rattle.switch_net.specs.ClockedLogic.{NamesBelow};
ghost use Rattle.switch_net.specs.declared.network.Device.{Device};
ghost use Rattle.switch_sim.specs.Incidence.{one_end, other_end, EndsAt, IsLeastAbove, IsIncidence, AreEarlier, AreLast};

use rx_text::NoMemory;
use std::alloc::Global;
use switch_net::{Device, Net};

/// For each end of a device the number behind the device before it at the same net, and 0 where there is none.
#[derive(Clone, Copy)]
pub(crate) struct Earlier {
    at_one: usize,
    at_other: usize,
}

/// The devices at each net, as a chain from the last to the first: for each net the number behind its last device, and for
/// each end of a device the number behind the one before it. A number behind no device is 0.
#[derive(Drop)]
pub(crate) struct Incidence {
    last: Vec<usize>,
    earlier: Vec<Earlier>,
}

impl Incidence {
    /// The chains of these devices at so many nets. Takes time and memory in proportion to both.
    ///
    /// # Errors
    ///
    /// `NoMemory` where an allocation was refused.
    pub(crate) fn new(alloc: Global, devices: &[Device], nets: usize) -> Result<Incidence, NoMemory>
        requires { All (NamesBelow nets) devices.now }
        ensures chains { IfOk result (IsIncidence devices.now) }
        ensures size { IfOk result (λ incidence. length incidence.last.items ≡ nets) }
    {
        let mut last = vec![in alloc; 0; nets]?;
        let none = Earlier {
            at_one: 0,
            at_other: 0,
        };
        let mut earlier = vec![in alloc; none; devices.len()]?;
        chain_all(devices, &mut last, &mut earlier);
        Ok(Incidence { last, earlier })
    }

    /// The number behind the last device at the net.
    pub(crate) fn behind_last(&self, net: u32) -> usize
        requires { net < length self.now.last.items }
        ensures { result ≡ slice_index_or self.now.last.items net 0 }
    {
        self.last[net as usize]
    }

    /// Puts down for each net the number behind the last device at it.
    pub(crate) fn begin_watch(&self, watch: &mut [usize])
        requires { length self.now.last.items ≡ length watch.old }
        ensures { length watch.new ≡ length watch.old }
    {
        watch.copy_from_slice(&self.last);
    }

    /// The number behind the device before this one, where the net is at an end of this one.
    pub(crate) fn behind_earlier(&self, devices: &[Device], at: usize, net: u32) -> usize
        requires chains { IsIncidence devices.now self.now }
        requires within { at < length devices.now }
        requires end { (x : Device) → EndsAt (slice_index_or devices.now at x) net }
        ensures { IsLeastAbove devices.now at net result }
    {
        if one_end(devices[at]) == net {
            self.earlier[at].at_one
        } else {
            self.earlier[at].at_other
        }
    }
}

/// Chains all devices.
fn chain_all(devices: &[Device], last: &mut [usize], earlier: &mut [Earlier])
    requires below { All (NamesBelow (length last.old)) devices.now }
    requires begun { (net : ℕ) → slice_index_or last.old net 0 ≡ 0 }
    requires sized { length earlier.old ≡ length devices.now }
    ensures last { AreLast devices.now (length devices.now) last.new }
    ensures earlier { AreEarlier devices.now (length devices.now) earlier.new }
    ensures last_size { length last.new ≡ length last.old }
    ensures earlier_size { length earlier.new ≡ length earlier.old }
{
    for (at, device) in devices.iter().enumerate() {
        earlier[at] = chain(*device, at + 1, last);
    }
}

/// Chains one more device, with this number behind it, to those before it at its ends.
fn chain(device: Device, behind: usize, last: &mut [usize]) -> Earlier
    requires one { one_end device < length last.old }
    requires other { other_end device < length last.old }
    ensures one { result.at_one ≡ slice_index_or last.old (one_end device) 0 }
    ensures other { result.at_other ≡ slice_index_or last.old (other_end device) 0 }
    ensures here { (net : ℕ) → EndsAt device net → slice_index_or last.new net 0 ≡ behind }
    ensures rest { (net : ℕ) → (EndsAt device net → ⊥)
        → slice_index_or last.new net 0 ≡ slice_index_or last.old net 0 }
    ensures size { length last.new ≡ length last.old }
{
    let one = one_end(device) as usize;
    let other = other_end(device) as usize;
    let earlier = Earlier {
        at_one: last[one],
        at_other: last[other],
    };
    last[one] = behind;
    last[other] = behind;
    earlier
}

/// The net at one end of the device, or that of the load.
pub(crate) fn one_end(device: Device) -> u32
    ensures { result ≡ one_end device }
{
    match device {
        Device::Load { net } => net.0,
        Device::Pass { a, .. } => a.0,
    }
}

/// The net at the other end of the device, or that of the load.
pub(crate) fn other_end(device: Device) -> u32
    ensures { result ≡ other_end device }
{
    match device {
        Device::Load { net } => net.0,
        Device::Pass { b, .. } => b.0,
    }
}
