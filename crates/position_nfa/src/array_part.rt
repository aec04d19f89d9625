// What lies below the planes: complements of lines, registers, outputs.

ghost use Rattle.std.specs.Prelude.{◌≡◌, ◌++◌, [], ◌∷◌, map, IfOk, OnOk};
ghost use Rattle.std.specs.List.{range_with_len};
ghost use Rattle.position_nfa.specs.Registers.{AreFew, line_net, complement_net, state_net, master_net, inverse_net, stored_net, shared_net, output_net, inverter, part_gates, first_transfer, second_transfer, array_transfers, array_part};

use crate::array_nets::ArrayCounts;
use nor_net::{Gate, Part, Supplies, Transfer};
use rx_text::{NoMemory, Role};
use std::alloc::Global;

/// The part below the planes.
pub fn array_part(alloc: Global, counts: ArrayCounts) -> Result<Part, NoMemory>
    requires { AreFew counts }
    ensures { IfOk result (λ part. part ≡ array_part counts) }
{
    let supplies = Supplies {
        vdd: 0,
        gnd: counts.ground_net(),
        phi1: counts.phi1_net(),
        phi2: counts.phi2_net(),
    };
    let mut gates = Vec::new(alloc);
    add_part_gates(alloc, &mut gates, counts)?;
    let loads = outs(alloc, &gates)?;
    let transfers = array_transfers(alloc, counts)?;
    let nets = counts.part_nets();
    Ok(Part::new(nets, supplies, gates, loads, transfers, Vec::new(alloc)))
}

/// The outputs of the gates.
fn outs(alloc: Global, gates: &[Gate]) -> Result<Vec<u32>, NoMemory>
    ensures { IfOk result (λ nets. nets.items ≡ map (λ gate. gate.out) gates.now) }
{
    let mut nets = Vec::new(alloc);
    for gate in gates {
        nets.push(gate.out())?;
    }
    Ok(nets)
}

/// Adds the gates below the planes: complements of lines, inverters of registers, outputs.
pub fn add_part_gates(
    alloc: Global,
    gates: &mut Vec<Gate>,
    counts: ArrayCounts,
) -> Result<(), NoMemory>
    requires { AreFew counts }
    ensures { OnOk result (gates.new.items ≡ gates.old.items ++ part_gates counts) }
{
    add_complements(alloc, gates, counts)?;
    add_inverses(alloc, gates, counts)?;
    add_states(alloc, gates, counts)?;
    add_outputs(alloc, gates, counts)?;
    add_inverter(
        alloc,
        gates,
        counts.start_inverse_net(),
        counts.start_master_net(),
    )
}

/// Adds an inverter.
fn add_inverter(alloc: Global, gates: &mut Vec<Gate>, out: u32, input: u32) -> Result<(), NoMemory>
    ensures { OnOk result (gates.new.items ≡ gates.old.items ++ inverter out input ∷ []) }
{
    let inputs = vec![in alloc; input]?;
    gates.push(Gate::new(out, inputs))?;
    Ok(())
}

/// Adds the complement of each line.
fn add_complements(
    alloc: Global,
    gates: &mut Vec<Gate>,
    counts: ArrayCounts,
) -> Result<(), NoMemory>
    requires { AreFew counts }
    ensures { OnOk result (gates.new.items ≡ gates.old.items
        ++ map (λ i. inverter (complement_net counts i) (line_net counts i)) (range_with_len 0 counts.lines)) }
{
    for i in 0..counts.lines {
        add_inverter(alloc, gates, counts.complement_net(i), counts.line_net(i))?;
    }
    Ok(())
}

/// Adds the inverter between the two stores of each position's register.
fn add_inverses(alloc: Global, gates: &mut Vec<Gate>, counts: ArrayCounts) -> Result<(), NoMemory>
    requires { AreFew counts }
    ensures { OnOk result (gates.new.items ≡ gates.old.items
        ++ map (λ i. inverter (inverse_net counts i) (master_net counts i)) (range_with_len 0 counts.positions)) }
{
    for p in 0..counts.positions {
        add_inverter(alloc, gates, counts.inverse_net(p), counts.master_net(p))?;
    }
    Ok(())
}

/// Adds the inverter behind each position's register.
fn add_states(alloc: Global, gates: &mut Vec<Gate>, counts: ArrayCounts) -> Result<(), NoMemory>
    requires { AreFew counts }
    ensures { OnOk result (gates.new.items ≡ gates.old.items
        ++ map (λ i. inverter (state_net counts i) (stored_net counts i)) (range_with_len 0 counts.positions)) }
{
    for p in 0..counts.positions {
        add_inverter(alloc, gates, counts.state_net(p), counts.stored_net(p))?;
    }
    Ok(())
}

/// Adds the inverter of each output.
fn add_outputs(alloc: Global, gates: &mut Vec<Gate>, counts: ArrayCounts) -> Result<(), NoMemory>
    requires { AreFew counts }
    ensures { OnOk result (gates.new.items ≡ gates.old.items
        ++ map (λ i. inverter (output_net counts i) (shared_net counts i)) (range_with_len 0 counts.outputs)) }
{
    for y in 0..counts.outputs {
        add_inverter(alloc, gates, counts.output_net(y), counts.shared_net(y))?;
    }
    Ok(())
}

/// The transfers of the registers.
pub fn array_transfers(alloc: Global, counts: ArrayCounts) -> Result<Vec<Transfer>, NoMemory>
    requires { AreFew counts }
    ensures { IfOk result (λ transfers. transfers.items ≡ array_transfers counts) }
{
    let mut transfers = Vec::new(alloc);
    add_first_transfers(&mut transfers, counts)?;
    add_second_transfers(&mut transfers, counts)?;
    transfers.push(Transfer {
        clock: Role::Phi1,
        from: counts.reset_net(),
        to: counts.start_master_net(),
    })?;
    transfers.push(Transfer {
        clock: Role::Phi2,
        from: counts.start_inverse_net(),
        to: counts.start_net(),
    })?;
    Ok(transfers)
}

/// Adds the transfer of each position's sum to its register.
fn add_first_transfers(transfers: &mut Vec<Transfer>, counts: ArrayCounts) -> Result<(), NoMemory>
    requires { AreFew counts }
    ensures { OnOk result (transfers.new.items ≡ transfers.old.items ++ map (first_transfer counts) (range_with_len 0 counts.positions)) }
{
    for p in 0..counts.positions {
        transfers.push(Transfer {
            clock: Role::Phi1,
            from: counts.sum_net(p),
            to: counts.master_net(p),
        })?;
    }
    Ok(())
}

/// Adds the transfer between the two stores of each position's register.
fn add_second_transfers(transfers: &mut Vec<Transfer>, counts: ArrayCounts) -> Result<(), NoMemory>
    requires { AreFew counts }
    ensures { OnOk result (transfers.new.items ≡ transfers.old.items ++ map (second_transfer counts) (range_with_len 0 counts.positions)) }
{
    for p in 0..counts.positions {
        transfers.push(Transfer {
            clock: Role::Phi2,
            from: counts.inverse_net(p),
            to: counts.stored_net(p),
        })?;
    }
    Ok(())
}
