// The netlist of a position automaton's registers.

ghost use Rattle.std.specs.Prelude.{◌≡◌, ◌↔◌, ℕ, List, ◌≤◌, ◌^◌, ◌++◌, true, false, length, map, IfOk, OnOk};
ghost use Rattle.std.specs.List.{range_with_len};
ghost use Rattle.rx_text.specs.Role.{bears_name};
ghost use Rattle.rx_lang.specs.Vector.{Bits};
ghost use Rattle.rx_lang.specs.Specification.{Language};
ghost use Rattle.rx_lang.specs.Tables.{specification};
ghost use Rattle.switch_net.specs.Recognition.{named_pad, pad_names};
ghost use Rattle.nor_net.specs.Clearing.{IsKnownByReset};
ghost use Rattle.nor_net.specs.Recognised.{ShowsByClocks};
ghost use Rattle.position_nfa.specs.Runs.{ShowsByStates};
ghost use Rattle.nor_net.specs.SwitchForm.{at};
ghost use Rattle.position_nfa.specs.Registers.{AreFew, array_counts, part_gates, registers_of, plain, line_pad, output_pad, array_pads, register_netlist};

use crate::array_nets::ArrayCounts;
use crate::array_orders::{first_order, second_order};
use crate::array_part::{add_part_gates, array_transfers};
use crate::nfa::Nfa;
use crate::planes::{add_sums, add_terms};
use crate::steps::{marked_states, steps};
use nor_net::laws::clocks_solve_the_equations;
use nor_net::{Gate, NorNet};
use rx_lang::Spec;
use rx_text::{Name, NoMemory, PadName, Role};
use std::alloc::Global;
use switch_net::{Net, Pad};

/// The netlist of the automaton's registers, whose pads are the specification's: the terms, the sums and the part of
/// `registers` together.
///
/// # Errors
///
/// `NoMemory` where an allocation was refused.
pub fn register_net(alloc: Global, nfa: &Nfa, spec: &Spec) -> Result<NorNet, NoMemory>
    ensures netlist { IfOk result (λ net. net ≡ register_netlist nfa.now spec.now) }
    ensures states { IfOk result (λ net. ShowsByClocks net (length spec.now.lines) (ShowsByStates nfa.now spec.now.symbols)) }
    ensures shows { IfOk result (λ net.
        ((y : ℕ) (u : List Bits) → ShowsByStates nfa.now spec.now.symbols y u ↔ Language (specification spec.now) y u)
        → ShowsByClocks net (length spec.now.lines) (Language (specification spec.now))) }
    ensures pads { IfOk result (λ net. map (λ pad. pad.name) net.pads ≡ pad_names spec.now.lines spec.now.outputs) }
    ensures few { IfOk result (λ net. net.nets ≤ 16777216) }
    ensures known { IfOk result (λ net. IsKnownByReset net 1) }
{
    clocks_solve_the_equations();
    let counts = ArrayCounts::of(nfa, spec);
    let (gates, terms) = array_gates(alloc, counts, nfa, spec)?;
    let transfers = array_transfers(alloc, counts)?;
    let pads = array_pads(alloc, counts, spec)?;
    let first = first_order(alloc, counts, terms)?;
    let second = second_order(alloc, counts, terms)?;
    let nets = counts.part_nets() + terms;
    Ok(NorNet::new(nets, gates, transfers, pads, first, second))
}

/// The gates of both planes and of the part below them, and how many of them are terms.
fn array_gates(
    alloc: Global,
    counts: ArrayCounts,
    nfa: &Nfa,
    spec: &Spec,
) -> Result<(Vec<Gate>, u32), NoMemory>
    requires few { AreFew counts }
    requires counts { counts ≡ array_counts nfa.now spec.now }
    ensures gates { IfOk result (λ made. made.0.items
        ≡ (registers_of nfa.now spec.now).terms ++ (registers_of nfa.now spec.now).sums ++ part_gates (array_counts nfa.now spec.now)) }
    ensures terms { IfOk result (λ made. made.1 ≡ length (registers_of nfa.now spec.now).terms) }
    ensures few_terms { IfOk result (λ made. made.1 ≤ 2 ^ 22) }
{
    let steps = steps(alloc, nfa, spec.symbols().len() as u8)?;
    let marked = marked_states(alloc, nfa)?;
    let mut gates = Vec::new(alloc);
    add_terms(alloc, &mut gates, counts, spec.symbols(), &steps, &marked)?;
    let terms = (steps.len() + marked.len()) as u32;
    add_sums(alloc, &mut gates, counts, nfa, &steps, &marked)?;
    add_part_gates(alloc, &mut gates, counts)?;
    Ok((gates, terms))
}

/// The pads: supplies, clocks, reset, lines, outputs.
fn array_pads(alloc: Global, counts: ArrayCounts, spec: &Spec) -> Result<Vec<Pad>, NoMemory>
    requires few { AreFew counts }
    requires lines { counts.lines ≡ length spec.now.lines }
    requires outputs { counts.outputs ≡ length spec.now.outputs }
    ensures { IfOk result (λ pads. pads.items ≡ array_pads counts spec.now) }
{
    let mut pads = vec![in alloc;
        plain(Role::Vdd, 0),
        plain(Role::Gnd, counts.ground_net()),
        plain(Role::Phi1, counts.phi1_net()),
        plain(Role::Phi2, counts.phi2_net()),
        plain(Role::Reset, counts.reset_net()),
    ]?;
    add_line_pads(&mut pads, counts, spec.lines())?;
    add_output_pads(&mut pads, counts, spec.outputs())?;
    Ok(pads)
}

/// The pad of a supply, a clock or the reset.
fn plain(role: Role, net: u32) -> Pad
    requires { bears_name role ≡ false }
    ensures { result ≡ plain role net }
{
    Pad {
        name: PadName::plain(role),
        net: Net(net),
    }
}

/// The pad of a line or an output.
fn named(role: Role, name: Name, net: u32) -> Pad
    requires { bears_name role ≡ true }
    ensures { result ≡ record { name = named_pad role name; net = at net } }
{
    Pad {
        name: PadName {
            role,
            name: Some(name),
        },
        net: Net(net),
    }
}

/// Adds the pads of the lines.
fn add_line_pads(pads: &mut Vec<Pad>, counts: ArrayCounts, names: &[Name]) -> Result<(), NoMemory>
    requires { length names.now ≤ 16 }
    ensures { OnOk result (pads.new.items ≡ pads.old.items ++ map (line_pad counts names.now) (range_with_len 0 (length names.now))) }
{
    for i in 0..names.len() as u32 {
        pads.push(named(Role::Input, names[i as usize], counts.line_net(i)))?;
    }
    Ok(())
}

/// Adds the pads of the outputs.
fn add_output_pads(pads: &mut Vec<Pad>, counts: ArrayCounts, names: &[Name]) -> Result<(), NoMemory>
    requires few { AreFew counts }
    requires outputs { length names.now ≤ 16 }
    ensures { OnOk result (pads.new.items ≡ pads.old.items ++ map (output_pad counts names.now) (range_with_len 0 (length names.now))) }
{
    for y in 0..names.len() as u32 {
        pads.push(named(Role::Output, names[y as usize], counts.output_net(y)))?;
    }
    Ok(())
}
