//! Networks as texts that tell nothing of the numbers of nets and the order of devices.

use nmos_model::{ExtractFault, PlainFault};
use rx_text::{PadName, Place, Role};
use std::alloc::Global;
use std::str;
use std::test::Fail;
use switch_net::{Device, Net, Network};

/// The text of a pad's name.
fn pad_text(alloc: Global, pad: PadName) -> Result<String, Fail> {
    let name = match &pad.name {
        Some(name) => str::from_utf8(name.as_bytes())?,
        None => "",
    };
    Ok(match pad.role {
        Role::Vdd => "VDD".to_string(alloc)?,
        Role::Gnd => "GND".to_string(alloc)?,
        Role::Phi1 => "PHI1".to_string(alloc)?,
        Role::Phi2 => "PHI2".to_string(alloc)?,
        Role::Reset => "RESET".to_string(alloc)?,
        Role::Input => format!(in alloc; "IN:{name}")?,
        Role::Output => format!(in alloc; "OUT:{name}")?,
    })
}

/// The text of the first pad on the net, or `-`.
fn net_text(alloc: Global, network: &Network, net: Net) -> Result<String, Fail> {
    for pad in network.pads() {
        if pad.net == net {
            return pad_text(alloc, pad.name);
        }
    }
    Ok("-".to_string(alloc)?)
}

fn device_text(alloc: Global, network: &Network, device: Device) -> Result<String, Fail> {
    match device {
        Device::Load { net } => {
            Ok(format!(in alloc; ", load {}", net_text(alloc, network, net)?)?)
        }
        Device::Pass { gate, a, b } => {
            let gate = net_text(alloc, network, gate)?;
            let a = net_text(alloc, network, a)?;
            let b = net_text(alloc, network, b)?;
            Ok(format!(in alloc; ", pass {gate} {a} {b}")?)
        }
    }
}

/// The number of nets, the names of the inputs and outputs, and the devices by the names of their nets, in the order of their texts:
/// `6 nets, IN:x, pass IN:x VDD GND`. A net without a pad is `-`.
///
/// # Errors
///
/// A failed test where memory was refused.
pub fn network_text(alloc: Global, network: &Network) -> Result<String, Fail> {
    let mut text = format!(in alloc; "{} nets", network.nets())?;
    for pad in network.pads() {
        if pad.name.name.is_some() {
            text.push_str(", ")?;
            text.push_str(pad_text(alloc, pad.name)?.as_str())?;
        }
    }
    let mut devices = Vec::new(alloc);
    for device in network.devices() {
        devices.push(device_text(alloc, network, *device)?)?;
    }
    devices.sort()?;
    for device in devices.iter() {
        text.push_str(device.as_str())?;
    }
    Ok(text)
}

/// The code of a refusal, and its square where it stands on one: `X4@80,80`.
///
/// # Errors
///
/// A failed test where the extractor ran out of memory, and where memory was refused.
pub fn fault_text(alloc: Global, fault: PlainFault) -> Result<String, Fail> {
    match fault {
        PlainFault::TooWide => Ok("too wide".to_string(alloc)?),
        PlainFault::Fault(
            ExtractFault {
                code,
                place: Place::Square { x, y },
            },
        ) => Ok(format!(in alloc; "{code:?}@{x},{y}")?),
        PlainFault::Fault(ExtractFault { code, .. }) => Ok(format!(in alloc; "{code:?}")?),
        PlainFault::NoMemory => Err("no memory".into()),
    }
}
