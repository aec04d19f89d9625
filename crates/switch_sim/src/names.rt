// The nets that pads and devices name, and the network in which they have the numbers from 0 on.

ghost use Rattle.std.specs.Prelude.{◌≡◌, ◌<◌, ◌++◌, ℕ, length, map, flat_map, IfOk, OnOk};
ghost use Rattle.switch_net.specs.Circuit.{touched, device_nets, renamed_pad, renamed_device};
ghost use Rattle.switch_net.specs.SameNetworks.{renamed};
ghost use Rattle.switch_sim.specs.Naming.{place, number, AreNames, AreRising};

use rx_text::NoMemory;
use std::alloc::Global;
use switch_net::{Device, Net, Network, Pad};

/// The nets that the pads and the devices of the network name, each once, in ascending order.
pub(crate) fn names_of(alloc: Global, network: &Network) -> Result<Vec<u32>, NoMemory>
    ensures { IfOk result (λ names. AreNames network.now names.items) }
{
    let mut all = Vec::new(alloc);
    push_pads(network.pads(), &mut all)?;
    push_devices(network.devices(), &mut all)?;
    all.sort_unstable();
    all.dedup();
    Ok(all)
}

/// Adds the nets of the pads.
fn push_pads(pads: &[Pad], nets: &mut Vec<u32>) -> Result<(), NoMemory>
    ensures { OnOk result (nets.new.items ≡ nets.old.items ++ map (λ pad. pad.net.0) pads.now) }
{
    for pad in pads {
        nets.push(pad.net.0)?;
    }
    Ok(())
}

/// Adds the nets of the devices.
fn push_devices(devices: &[Device], nets: &mut Vec<u32>) -> Result<(), NoMemory>
    ensures { OnOk result (nets.new.items ≡ nets.old.items ++ flat_map device_nets devices.now) }
{
    for device in devices {
        push_device(*device, nets)?;
    }
    Ok(())
}

/// Adds the nets of the device.
fn push_device(device: Device, nets: &mut Vec<u32>) -> Result<(), NoMemory>
    ensures { OnOk result (nets.new.items ≡ nets.old.items ++ device_nets device) }
{
    match device {
        Device::Load { net } => nets.push(net.0)?,
        Device::Pass { gate, a, b } => {
            nets.push(gate.0)?;
            nets.push(a.0)?;
            nets.push(b.0)?;
        }
    }
    Ok(())
}

/// The place of the net among the names.
pub(crate) fn place(names: &[u32], net: u32) -> Option<usize>
    requires { AreRising names.now }
    ensures { result ≡ place names.now net }
{
    match names.binary_search(&net) {
        Ok(at) => Some(at),
        Err(_) => None,
    }
}

/// The number of the net: its place among the names, and 0 where it is none.
fn number(names: &[u32], net: u32) -> u32
    requires { AreRising names.now }
    ensures { result ≡ number names.now net }
{
    match place(names, net) {
        Some(at) => at as u32,
        None => 0,
    }
}

/// The network in which the named nets have their numbers, and there are no others.
pub(crate) fn numbered(alloc: Global, network: &Network, names: &[u32]) -> Result<Network, NoMemory>
    requires { AreNames network.now names.now }
    ensures { IfOk result (λ dense. dense ≡ renamed (number names.now) (length names.now) network.now) }
{
    let _most = network.nets();
    let pads = numbered_pads(alloc, network.pads(), names)?;
    let devices = numbered_devices(alloc, network.devices(), names)?;
    Ok(Network::from_parts(names.len() as u32, pads, devices))
}

/// The pads on the numbers of their nets.
fn numbered_pads(alloc: Global, pads: &[Pad], names: &[u32]) -> Result<Vec<Pad>, NoMemory>
    requires { AreRising names.now }
    ensures { IfOk result (λ numbered. numbered.items ≡ map (renamed_pad (number names.now)) pads.now) }
{
    let mut numbered = Vec::new(alloc);
    for pad in pads {
        numbered.push(numbered_pad(*pad, names))?;
    }
    Ok(numbered)
}

fn numbered_pad(pad: Pad, names: &[u32]) -> Pad
    requires { AreRising names.now }
    ensures { result ≡ renamed_pad (number names.now) pad }
{
    Pad {
        name: pad.name,
        net: Net(number(names, pad.net.0)),
    }
}

/// The devices on the numbers of their nets.
fn numbered_devices(
    alloc: Global,
    devices: &[Device],
    names: &[u32],
) -> Result<Vec<Device>, NoMemory>
    requires { AreRising names.now }
    ensures { IfOk result (λ numbered. numbered.items ≡ map (renamed_device (number names.now)) devices.now) }
{
    let mut numbered = Vec::new(alloc);
    for device in devices {
        numbered.push(numbered_device(*device, names))?;
    }
    Ok(numbered)
}

fn numbered_device(device: Device, names: &[u32]) -> Device
    requires { AreRising names.now }
    ensures { result ≡ renamed_device (number names.now) device }
{
    match device {
        Device::Load { net } => Device::Load {
            net: Net(number(names, net.0)),
        },
        Device::Pass { gate, a, b } => Device::Pass {
            gate: Net(number(names, gate.0)),
            a: Net(number(names, a.0)),
            b: Net(number(names, b.0)),
        },
    }
}
