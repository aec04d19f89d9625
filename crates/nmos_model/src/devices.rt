// The devices of channels, by the nets of their gates and terminals.

ghost use Rattle.std.specs.Prelude.{◌≡◌, ◌&&◌, ◌==◌, IfOk, IfErr};
ghost use Rattle.nmos_model.specs.declared.channel.Channel.{Channel};
ghost use Rattle.geom.specs.Rows.{Among};
ghost use Rattle.nmos_model.specs.Devices.{AreDevices, IsNear, OnNets, device_on, is_load};
ghost use Rattle.nmos_model.specs.Unsound.{IsOddLoadBy};

use crate::channel::Channel;
use crate::ends::{Ends, ends_of};
use crate::network::SiteNets;
use crate::refusal::{ExtractCode, ExtractFault, ReadChipFault};
use rx_text::Place;
use std::alloc::Global;
use switch_net::{Device, Net};

/// The device of each channel, in order, where the supply has the net `vdd`.
pub(crate) fn devices_of<N: SiteNets>(
    alloc: Global,
    nets: &N,
    channels: &[Channel],
    vdd: u32,
) -> Result<Vec<Device>, ReadChipFault>
    requires near { (c : Channel) → Among channels.now c → IsNear c }
    requires on_nets { (c : Channel) → Among channels.now c → OnNets (N.net nets.now) c }
    ensures devices { IfOk result (λ devices. AreDevices (N.net nets.now) vdd channels.now devices.items) }
    ensures fault { IfErr result (IsOddLoadBy (N.net nets.now) vdd channels.now) }
{
    let ends = ends_of(alloc, nets, channels)?;
    let mut devices = Vec::new(alloc);
    for (at, channel) in channels.iter().enumerate() {
        match device_of(channel.depletion, vdd, ends[at]) {
            Some(device) => devices.push(device)?,
            None => return Err(odd_load(channel)),
        }
    }
    Ok(devices)
}

/// The fault that the channel is a depletion device and no load.
fn odd_load(channel: &Channel) -> ReadChipFault
    ensures { result ≡ ReadChipFault.Fault (record { code = ExtractCode.X3; place = Place.Square channel.now.x1 channel.now.y1 }) }
{
    ReadChipFault::Fault(ExtractFault {
        code: ExtractCode::X3,
        place: Place::Square {
            x: channel.x1,
            y: channel.y1,
        },
    })
}

/// The device of a channel on these nets, unless it is a depletion device and no load.
fn device_of(depletion: bool, vdd: u32, ends: Ends) -> Option<Device>
    ensures { result ≡ device_on depletion vdd ends.gate ends.first ends.second }
{
    device_on(depletion, vdd, ends.gate, ends.first, ends.second)
}

/// The device with this gate and these terminals: a load, where it is a depletion device. `None` where it is one and no load.
fn device_on(depletion: bool, vdd: u32, gate: u32, first: u32, second: u32) -> Option<Device>
    ensures { result ≡ device_on depletion vdd gate first second }
{
    if !depletion {
        return Some(Device::Pass {
            gate: Net(gate),
            a: Net(first),
            b: Net(second),
        });
    }
    if is_load(vdd, gate, first, second) {
        Some(Device::Load { net: Net(first) })
    } else if is_load(vdd, gate, second, first) {
        Some(Device::Load { net: Net(second) })
    } else {
        None
    }
}

/// The device pulls up the net of its gate, at one terminal, from that of the supply, at the other.
fn is_load(vdd: u32, gate: u32, pulled: u32, other: u32) -> bool
    ensures { result ≡ is_load vdd gate pulled other }
{
    gate == pulled && other == vdd
}
