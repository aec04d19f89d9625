// The form of a netlist as a switch network.

ghost use Rattle.std.specs.Prelude.{◌≡◌, ℕ, List, Bool, true, ◌<◌, ◌^◌, ◌++◌, [], ◌∷◌, if◌then◌else◌, false, length, map, replicate, flat_map, find, IfOk, OnOk};
ghost use Rattle.std.specs.List.{range_with_len};
ghost use Rattle.rx_text.specs.declared.pad_name.Role.TheVariants.{Gnd};
ghost use Rattle.rx_lang.specs.Specification.{Specification, Language};
ghost use Rattle.switch_net.specs.declared.network.Device.TheVariants.{Load};
ghost use Rattle.switch_net.specs.Validity.{is_same_role, IsNetwork};
ghost use Rattle.switch_net.specs.Recognition.{Recognises, ShowsSurely};
ghost use Rattle.nor_net.specs.Clearing.{ClearsByReset, IsKnownByReset};
ghost use Rattle.nor_net.specs.Evaluation.{is_output};
ghost use Rattle.nor_net.specs.Recognised.{ShowsByClocks};
ghost use Rattle.nor_net.specs.SwitchForm.{at, net_of, load_at, pull_downs, transfer_device, devices_of, switch_form, Lists, Computes};

use crate::evaluation::value_at;
use crate::gate::{Gate, Transfer};
use crate::netlist::NorNet;
use rx_text::{NoMemory, Role};
use std::alloc::Global;
use switch_net::{Device, Net, Network, Pad, clocked_logic_settles, told_nets_settle};

/// Makes the switch network of the netlist, on the same nets: one load for each gate output, a pass device to ground for
/// each input of a gate, and a pass device for each transfer, whose gate is the net of its clock. From all charges it has a
/// clock, and each one leaves the values that `step` gives. So it recognises the languages that the netlist's outputs show,
/// and where the reset clears the netlist's registers, or what they store is known under it by gates, no output is unknown in a ternary
/// run after the reset clock.
///
/// # Errors
///
/// `NoMemory` where an allocation was refused.
pub fn to_switch(alloc: Global, net: &NorNet) -> Result<Network, NoMemory>
    ensures network { IfOk result (λ network. IsNetwork network) }
    ensures form { IfOk result (λ network. network ≡ switch_form net.now) }
    ensures computes { IfOk result (λ network. Computes network net.now) }
    ensures recognises { IfOk result (λ network. (spec : Specification) → ShowsByClocks net.now (length spec.lines) (Language spec)
        → Recognises network (length spec.lines) (Language spec)) }
    ensures known { IfOk result (λ network. (spec : Specification) → ShowsByClocks net.now (length spec.lines) (Language spec)
        → (rounds : ℕ) → IsKnownByReset net.now rounds → ShowsSurely network (length spec.lines) (Language spec)) }
    ensures known_values { IfOk result (λ network. (width : ℕ) (shown : ℕ → List (List Bool) → Bool)
        → ShowsByClocks net.now width (λ y u. shown y u ≡ true)
        → (rounds : ℕ) → IsKnownByReset net.now rounds → ShowsSurely network width (λ y u. shown y u ≡ true)) }
    ensures sure { IfOk result (λ network. (spec : Specification) → ShowsByClocks net.now (length spec.lines) (Language spec)
        → ClearsByReset net.now → ShowsSurely network (length spec.lines) (Language spec)) }
{
    clocked_logic_settles();
    told_nets_settle();
    let pads = Vec::from_slice(alloc, net.pads())?;
    let devices = devices_of(alloc, net)?;
    Ok(Network::from_parts(net.nets(), pads, devices))
}

/// All devices: the loads, the pull-downs of each gate, and the transfers.
fn devices_of(alloc: Global, net: &NorNet) -> Result<Vec<Device>, NoMemory>
    ensures { IfOk result (λ devices. devices.items ≡ devices_of net.now) }
{
    let mut devices = loads(alloc, net)?;
    add_gates(&mut devices, net.gates(), net_of(net.pads(), Role::Gnd))?;
    add_transfers(&mut devices, net.transfers(), net.pads())?;
    Ok(devices)
}

/// A load for each output of a gate, in the order of the nets.
fn loads(alloc: Global, net: &NorNet) -> Result<Vec<Device>, NoMemory>
    ensures { IfOk result (λ devices. devices.items ≡ flat_map (load_at net.now.gates) (range_with_len 0 net.now.nets)) }
{
    let outputs = outputs(alloc, net)?;
    let mut devices = Vec::new(alloc);
    for at in 0..net.nets() {
        add_load(&mut devices, value_at(&outputs, at), at)?;
    }
    Ok(devices)
}

/// Adds a load at the net, if it is an output.
fn add_load(devices: &mut Vec<Device>, is_output: bool, net: u32) -> Result<(), NoMemory>
    ensures { OnOk result (devices.new.items ≡ devices.old.items ++ (if is_output then Load (at net) ∷ [] else [])) }
{
    if is_output {
        devices.push(Device::Load { net: Net(net) })?;
    }
    Ok(())
}

/// For each net whether it is some gate's output.
fn outputs(alloc: Global, net: &NorNet) -> Result<Vec<bool>, NoMemory>
    ensures { IfOk result (λ outputs. Lists net.now.nets outputs.items (is_output net.now.gates)) }
{
    let mut outputs = all_low(alloc, net.nets())?;
    for gate in net.gates() {
        outputs[gate.out() as usize] = true;
    }
    Ok(outputs)
}

/// A low value for each net.
fn all_low(alloc: Global, nets: u32) -> Result<Vec<bool>, NoMemory>
    ensures { IfOk result (λ values. values.items ≡ replicate nets false) }
{
    Ok(vec![in alloc; false; nets as usize]?)
}

/// Adds the pull-downs of the gates to the low net.
fn add_gates(devices: &mut Vec<Device>, gates: &[Gate], low: u32) -> Result<(), NoMemory>
    ensures { OnOk result (devices.new.items ≡ devices.old.items ++ flat_map (pull_downs low) gates.now) }
{
    for gate in gates {
        add_pull_downs(devices, gate, low)?;
    }
    Ok(())
}

/// Adds a pass device from the gate's output to the low net for each of its inputs.
fn add_pull_downs(devices: &mut Vec<Device>, gate: &Gate, low: u32) -> Result<(), NoMemory>
    ensures { OnOk result (devices.new.items ≡ devices.old.items ++ pull_downs low gate.now) }
{
    let out = Net(gate.out());
    for input in gate.inputs() {
        devices.push(Device::Pass {
            gate: Net(*input),
            a: out,
            b: Net(low),
        })?;
    }
    Ok(())
}

/// Adds the device of each transfer.
fn add_transfers(
    devices: &mut Vec<Device>,
    transfers: &[Transfer],
    pads: &[Pad],
) -> Result<(), NoMemory>
    ensures { OnOk result (devices.new.items ≡ devices.old.items ++ map (transfer_device pads.now) transfers.now) }
{
    for transfer in transfers {
        devices.push(transfer_device(*transfer, pads))?;
    }
    Ok(())
}

/// The pass device of a transfer, whose gate is the net of its clock.
fn transfer_device(transfer: Transfer, pads: &[Pad]) -> Device
    ensures { result ≡ transfer_device pads.now transfer }
{
    Device::Pass {
        gate: Net(net_of(pads, transfer.clock)),
        a: Net(transfer.from),
        b: Net(transfer.to),
    }
}

/// The net of the first pad of this role, 0 where there is none.
fn net_of(pads: &[Pad], role: Role) -> u32
    ensures { result ≡ net_of pads.now role }
{
    match pad_of(pads, role) {
        Some(pad) => pad.net.0,
        None => 0,
    }
}

/// The first pad of this role.
fn pad_of(pads: &[Pad], role: Role) -> Option<Pad>
    ensures { result ≡ find (λ pad. is_same_role pad.name.role role) pads.now }
{
    pads.iter().copied().find(|pad| pad.name.role == role)
}
