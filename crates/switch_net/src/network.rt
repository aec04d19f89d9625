// A network of switches, and the test that a list of pads and devices is one.

ghost use Rattle.std.specs.Prelude.{◌≡◌, ◌^◌, ◌<◌, length, vec_len, position, IfOk, IfSome, []};
ghost use Rattle.std.specs.Result.{result_err};
ghost use Rattle.switch_net.specs.Validity.{first_fault, first_outside, first_repeat, first_missing, has_role, is_pad_outside, is_device_outside, repeats, shares, IsNetwork, FaultlessIsNetwork};

use rx_text::{PadName, Role};
use std::marker::Model;
use thiserror::Error;

/// The number of a net.
#[derive(Clone, Copy, Debug, PartialEq, Eq)]
pub struct Net(pub u32);

/// The level of a net: low, high, or not known.
#[derive(Clone, Copy, Debug, PartialEq, Eq)]
pub enum Level {
    Low,
    High,
    Unknown,
}

/// A transistor of a switch network.
#[derive(Clone, Copy, Debug, PartialEq, Eq)]
pub enum Device {
    /// An enhancement transistor: it joins `a` and `b` while `gate` is high.
    Pass { gate: Net, a: Net, b: Net },
    /// A depletion transistor that pulls `net` high where nothing pulls it low.
    Load { net: Net },
}

/// A net that the outside sees, by its name.
#[derive(Clone, Copy, Debug, PartialEq, Eq)]
pub struct Pad {
    pub name: PadName,
    pub net: Net,
}

/// Why a list of pads and devices is no network.
#[derive(Clone, Copy, Debug, PartialEq, Eq, Error)]
pub enum BadNetwork {
    /// A part names a net not below the number of nets; `at` is the number of the first such part, from 0, pads
    /// counted first and then devices.
    #[error("part {at} names a net that is not below the number of nets")]
    NetOutOfRange { at: u64 },
    /// A pad repeats an earlier pad's name or net; `at` is the number of the first such pad, from 0.
    #[error("pad {at} repeats the name or the net of an earlier pad")]
    DoublePad { at: u32 },
    /// No pad has this role, the first missing of Vdd, Gnd, Phi1, Phi2 and Reset.
    #[error("no pad has the role {role:?}")]
    MissingPad { role: Role },
}

/// A switch network: nets by number, pads, and devices. Every net that a part names is below the number of nets,
/// the pads' names and nets are distinct, and Vdd, Gnd, Phi1, Phi2 and Reset have pads.
#[derive(Drop)]
pub struct Network {
    nets: u32,
    pads: Vec<Pad>,
    devices: Vec<Device>,
}

impl Model for Network {
    ghost use Rattle.switch_net.specs.Circuit.{Circuit};

    ghost Value = { Circuit };

    ghost use Rattle.switch_net.specs.Validity.{IsNetwork};

    ghost view = { λ n. record { nets = n.nets; pads = n.pads.items; devices = n.devices.items } };

    ghost invariant = { λ n.
        IsNetwork (record { nets = n.nets; pads = n.pads.items; devices = n.devices.items }) };
}

/// The roles that each network has a pad for.
const NEEDED: [Role; 5] = [Role::Vdd, Role::Gnd, Role::Phi1, Role::Phi2, Role::Reset];

impl Network {
    /// Makes a network of these parts, or answers their first fault. Takes no memory; the time grows with the number
    /// of devices and with the square of the number of pads.
    ///
    /// # Errors
    ///
    /// `NetOutOfRange` where a part names a net not below `nets`, else `DoublePad` where two pads share a name or a
    /// net, else `MissingPad` where a supply, a clock or the reset has no pad.
    pub fn new(nets: u32, pads: Vec<Pad>, devices: Vec<Device>) -> Result<Network, BadNetwork>
        requires pads_fit { length pads.items < 2 ^ 32 }
        ensures fault { result_err result ≡ first_fault nets pads.items devices.items }
        ensures ok { IfOk result
            (λ network. network ≡ record { nets = nets; pads = pads.items; devices = devices.items }) }
    {
        if let Some(at) = first_outside(nets, &pads, &devices) {
            return Err(BadNetwork::NetOutOfRange { at });
        }
        if let Some(at) = first_repeat(&pads) {
            return Err(BadNetwork::DoublePad { at });
        }
        if let Some(role) = first_missing(&pads) {
            return Err(BadNetwork::MissingPad { role });
        }
        Ok(Network::from_parts(nets, pads, devices))
    }

    /// The network of these parts, which are one: every net that a part names is below `nets`, the pads' names and
    /// nets are distinct, and Vdd, Gnd, Phi1, Phi2 and Reset have pads. Takes no memory.
    pub fn from_parts(nets: u32, pads: Vec<Pad>, devices: Vec<Device>) -> Network
        requires { IsNetwork (record { nets = nets; pads = pads.items; devices = devices.items }) }
        ensures { result ≡ record { nets = nets; pads = pads.items; devices = devices.items } }
    {
        Network {
            nets,
            pads,
            devices,
        }
    }

    /// The number of nets.
    pub fn nets(&self) -> u32
        ensures { result ≡ self.now.nets }
    {
        self.nets
    }

    /// The pads, in order.
    pub fn pads(&self) -> &[Pad]
        ensures pads { result.now ≡ self.now.pads }
        ensures valid { IsNetwork self.now }
    {
        &self.pads
    }

    /// The devices, in order.
    pub fn devices(&self) -> &[Device]
        ensures { result.now ≡ self.now.devices }
    {
        &self.devices
    }
}

/// The number of the first part that names a net not below `nets`, pads counted first and then devices.
fn first_outside(nets: u32, pads: &[Pad], devices: &[Device]) -> Option<u64>
    requires pads_fit { length pads.now < 2 ^ 32 }
    ensures { result ≡ first_outside nets pads.now devices.now }
{
    match first_pad_outside(nets, pads) {
        Some(at) => Some(at as u64),
        None => match first_device_outside(nets, devices) {
            Some(at) => Some(pads.len() as u64 + at as u64),
            None => None,
        },
    }
}

/// The number of the first pad whose net is not below `nets`.
fn first_pad_outside(nets: u32, pads: &[Pad]) -> Option<usize>
    ensures { result ≡ position (is_pad_outside nets) pads.now }
{
    pads.iter().position(|pad| is_pad_outside(nets, *pad))
}

/// The number of the first device that names a net not below `nets`.
fn first_device_outside(nets: u32, devices: &[Device]) -> Option<usize>
    ensures device { result ≡ position (is_device_outside nets) devices.now }
    ensures within { IfSome result (λ at. at < length devices.now) }
{
    devices
        .iter()
        .position(|device| is_device_outside(nets, *device))
}

/// The pad's net is not below `nets`.
fn is_pad_outside(nets: u32, pad: Pad) -> bool
    ensures { result ≡ is_pad_outside nets pad }
{
    pad.net.0 >= nets
}

/// The device names a net that is not below `nets`.
fn is_device_outside(nets: u32, device: Device) -> bool
    ensures { result ≡ is_device_outside nets device }
{
    match device {
        Device::Pass { gate, a, b } => gate.0 >= nets || a.0 >= nets || b.0 >= nets,
        Device::Load { net } => net.0 >= nets,
    }
}

/// The number of the first pad that repeats the name or the net of an earlier one.
fn first_repeat(pads: &[Pad]) -> Option<u32>
    requires { length pads.now < 2 ^ 32 }
    ensures { result ≡ first_repeat [] pads.now }
{
    for (at, pad) in pads.iter().enumerate() {
        if repeats(&pads[..at], *pad) {
            return Some(at as u32);
        }
    }
    None
}

/// The pad shares its name or its net with one of these.
fn repeats(earlier: &[Pad], pad: Pad) -> bool
    ensures { result ≡ repeats earlier.now pad }
{
    earlier.iter().any(|one| shares(*one, pad))
}

/// The two pads have one name or one net.
fn shares(one: Pad, other: Pad) -> bool
    ensures { result ≡ shares one other }
{
    one.name == other.name || one.net == other.net
}

/// The first of Vdd, Gnd, Phi1, Phi2 and Reset for which there is no pad.
pub fn first_missing(pads: &[Pad]) -> Option<Role>
    ensures { result ≡ first_missing pads.now }
{
    NEEDED.iter().copied().find(|role| !has_role(pads, *role))
}

/// Some pad has this role.
fn has_role(pads: &[Pad], role: Role) -> bool
    ensures { result ≡ has_role pads.now role }
{
    pads.iter().any(|pad| pad.name.role == role)
}

/// Parts are without fault exactly where they are a network.
pub fn faultless_is_network()
    ensures { FaultlessIsNetwork }
{}
