// What a netlist computes in one clock.

ghost use Rattle.std.specs.Prelude.{◌≡◌, ◌≤◌, ◌<◌, ◌==◌, Some, length, drop, All};
ghost use Rattle.std.specs.List.{list_any};
ghost use Rattle.std.specs.Int.{bit_at};
ghost use Rattle.rx_text.specs.declared.pad_name.Role.TheVariants.{Input};
ghost use Rattle.rx_lang.specs.Vector.{bits_of};
ghost use Rattle.switch_net.specs.Settling.{pad_level};
ghost use Rattle.switch_net.specs.Clock.{pad_drive, drives_of};
ghost use Rattle.nor_net.specs.Netlist.{if_input, input_count};
ghost use Rattle.nor_net.specs.Evaluation.{value_at, is_output, is_pulled, is_high, led_from, transfer_to, source_of, evaluated_net, evaluated, with_level, driven, order_in, phase, settled, clocked};

use crate::gate::{Gate, Transfer};
use crate::netlist::NorNet;
use rx_lang::Vector;
use rx_text::Role;
use std::marker::Model;
use switch_net::Pad;

/// What drives the pads in one settling.
#[derive(Drop)]
struct Drive {
    phi1: bool,
    phi2: bool,
    reset: bool,
    vector: Vector,
}

impl Model for Drive {
    ghost use Rattle.rx_lang.specs.Vector.{bits_of};
    ghost use Rattle.switch_net.specs.Clock.{Drive};

    ghost Value = { Drive };

    ghost view = { λ d. record { phi1 = d.phi1; phi2 = d.phi2; reset = d.reset; lines = bits_of 16 d.vector } };
}

impl Drive {
    /// The clock of this role is high.
    fn is_high(&self, role: Role) -> bool
        ensures { result ≡ is_high self.now role }
    {
        match role {
            Role::Phi1 => self.phi1,
            Role::Phi2 => self.phi2,
            Role::Vdd | Role::Gnd | Role::Reset | Role::Input | Role::Output => false,
        }
    }

    /// What a pad of this role fixes its net to, if it does; an input pad takes the bit of this line.
    fn level(&self, role: Role, line: u32) -> Option<bool>
        requires { role ≡ Input → line < 16 }
        ensures { result ≡ pad_level role (pad_drive self.now (drop line self.now.lines) role) }
    {
        match role {
            Role::Vdd => Some(true),
            Role::Gnd => Some(false),
            Role::Phi1 => Some(self.phi1),
            Role::Phi2 => Some(self.phi2),
            Role::Reset => Some(self.reset),
            Role::Input => Some(line_bit(self.vector, line)),
            Role::Output => None,
        }
    }
}

/// Gives the values of all nets after one clock from these values: bit i of the vector drives the i-th input pad. Takes no
/// memory. The time grows with the number of nets times that of gates and transfers, which are searched for each net.
pub fn step(net: &NorNet, state: &[bool], vector: Vector, reset: bool, next: &mut [bool])
    requires state_sized { length state.now ≡ net.now.nets }
    requires next_sized { length next.old ≡ net.now.nets }
    ensures { next.new ≡ clocked net.now reset (bits_of 16 vector) state.now }
{
    next.copy_from_slice(state);
    let low = drive_with(false, false, reset, vector);
    settle(net, &low, next);
    settle(net, &drive_with(true, false, reset, vector), next);
    settle(net, &low, next);
    settle(net, &drive_with(false, true, reset, vector), next);
    settle(net, &low, next);
}

/// What drives the pads while the clocks are so.
fn drive_with(phi1: bool, phi2: bool, reset: bool, vector: Vector) -> Drive
    ensures { result ≡ phase reset (bits_of 16 vector) phi1 phi2 }
{
    Drive {
        phi1,
        phi2,
        reset,
        vector,
    }
}

/// Drives the pads, and evaluates the nets in their order.
fn settle(net: &NorNet, drive: &Drive, values: &mut [bool])
    requires { length values.old ≡ net.now.nets }
    ensures values { values.new ≡ settled net.now drive.now values.old }
    ensures size { length values.new ≡ length values.old }
{
    drive_pads(net.pads(), drive, values);
    evaluate(net, drive, values);
}

/// Puts each pad's net to the level that drives the pad.
fn drive_pads(pads: &[Pad], drive: &Drive, values: &mut [bool])
    requires below { All (λ pad. pad.net.0 < length values.old) pads.now }
    requires few { input_count pads.now ≤ 16 }
    ensures values { values.new ≡ driven pads.now (drives_of drive.now pads.now) values.old }
    ensures size { length values.new ≡ length values.old }
{
    let mut line = 0;
    for pad in pads {
        drive_pad(*pad, drive, line, values);
        line = next_line(line, *pad);
    }
}

/// Puts the pad's net to the level that drives the pad; an input pad takes the bit of this line.
fn drive_pad(pad: Pad, drive: &Drive, line: u32, values: &mut [bool])
    requires below { pad.net.0 < length values.old }
    requires few { pad.name.role ≡ Input → line < 16 }
    ensures values { values.new ≡ with_level (pad_level pad.name.role
        (pad_drive drive.now (drop line drive.now.lines) pad.name.role)) pad.net.0 values.old }
    ensures size { length values.new ≡ length values.old }
{
    if let Some(level) = drive.level(pad.name.role, line) {
        values[pad.net.0 as usize] = level;
    }
}

/// The line of the next input pad behind this pad, where an input pad would take this line.
fn next_line(line: u32, pad: Pad) -> u32
    requires { if_input pad.name.role line ≤ 16 }
    ensures { result ≡ if_input pad.name.role line }
{
    if pad.name.role == Role::Input {
        line + 1
    } else {
        line
    }
}

/// Evaluates the nets in their order.
fn evaluate(net: &NorNet, drive: &Drive, values: &mut [bool])
    requires { length values.old ≡ net.now.nets }
    ensures values { values.new ≡ evaluated net.now drive.now (order_in net.now drive.now) values.old }
    ensures size { length values.new ≡ length values.old }
{
    for at in order_in(net, drive) {
        let value = evaluated_net(net, drive, values, *at);
        values[*at as usize] = value;
    }
}

/// The order in which the nets are evaluated.
fn order_in<'a>(net: &'a NorNet, drive: &Drive) -> &'a [u32]
    ensures order { result.now ≡ order_in net.now drive.now }
    ensures below { All (λ at. at < net.now.nets) result.now }
{
    if drive.phi2 {
        net.order2()
    } else {
        net.order1()
    }
}

/// What the net becomes: the NOR of its gates' inputs, or the value at its source.
fn evaluated_net(net: &NorNet, drive: &Drive, values: &[bool], at: u32) -> bool
    ensures { result ≡ evaluated_net net.now drive.now values.now at }
{
    if is_output(net.gates(), at) {
        !is_pulled(net.gates(), values, at)
    } else {
        value_at(values, source_of(net.transfers(), drive, at))
    }
}

/// The net is some gate's output.
fn is_output(gates: &[Gate], net: u32) -> bool
    ensures { result ≡ is_output gates.now net }
{
    gates.iter().any(|gate| gate.out() == net)
}

/// An input of a gate with this output is high.
fn is_pulled(gates: &[Gate], values: &[bool], net: u32) -> bool
    ensures { result ≡ is_pulled gates.now values.now net }
{
    gates.iter().any(|gate| gate.out() == net && has_high(gate.inputs(), values))
}

/// One of the nets is high.
fn has_high(nets: &[u32], values: &[bool]) -> bool
    ensures { result ≡ list_any (value_at values.now) nets.now }
{
    nets.iter().any(|net| value_at(values, *net))
}

/// The value of the net, low where there is no such net.
pub(crate) fn value_at(values: &[bool], net: u32) -> bool
    ensures { result ≡ value_at values.now net }
{
    values.get(net as usize).copied().unwrap_or(false)
}

/// Where a net that no gate drives takes its value from: the source of an open transfer to it, or itself.
fn source_of(transfers: &[Transfer], drive: &Drive, net: u32) -> u32
    ensures { result ≡ source_of transfers.now drive.now net }
{
    match transfer_to(transfers, net) {
        Some(transfer) => led_from(drive, net, transfer),
        None => net,
    }
}

/// Where the net of this transfer takes its value from: the source while the clock is high, else itself.
fn led_from(drive: &Drive, net: u32, transfer: Transfer) -> u32
    ensures { result ≡ led_from drive.now net (Some transfer) }
{
    if drive.is_high(transfer.clock) {
        transfer.from
    } else {
        net
    }
}

/// The transfer that leads to the net.
fn transfer_to(transfers: &[Transfer], net: u32) -> Option<Transfer>
    ensures { result ≡ transfer_to transfers.now net }
{
    transfers
        .iter()
        .copied()
        .find(|transfer| transfer.to == net)
}

/// The bit of the line in the vector.
fn line_bit(vector: Vector, line: u32) -> bool
    requires { line < 16 }
    ensures { result ≡ (bit_at vector.bits line == 1) }
{
    vector.bits >> line & 1 == 1
}
