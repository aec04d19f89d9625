// The programmable logic array of a specification.

ghost use Rattle.std.specs.Prelude.{◌≡◌, ◌+◌, ◌*◌, ◌≤◌, ◌<◌, ◌^◌, ◌++◌, length, flat_map, IfOk, OnOk};
ghost use Rattle.std.specs.List.{range_with_len};
ghost use Rattle.position_nfa.specs.Registers.{AreFew, array_counts};
ghost use Rattle.pla_plan.specs.ArrayOf.{every_second, output_columns, array_places, array_of};

use crate::array_laws::automata_make_arrays;
use crate::pla::Pla;
use crate::planes::Planes;
use nor_net::{Gate, Part};
use position_nfa::{Nfa, Registers};
use rx_lang::Spec;
use rx_text::NoMemory;
use std::alloc::Global;

/// The programmable logic array of a position automaton of at most 256 positions, which reads the specification's symbols: its
/// registers, and a column for each of their nets.
///
/// # Errors
///
/// `NoMemory` where an allocation was refused.
pub fn plan(alloc: Global, nfa: &Nfa, spec: &Spec) -> Result<Pla, NoMemory>
    requires { length nfa.now.symbols ≤ 256 }
    ensures { IfOk result (λ pla. pla ≡ array_of nfa.now spec.now) }
{
    automata_make_arrays();
    let lines = spec.lines().len() as u32;
    let positions = nfa.symbols().len() as u32;
    let outputs = spec.outputs().len() as u32;
    let registers = Registers::of(alloc, nfa, spec)?;
    let terms = copied_gates(alloc, registers.terms())?;
    let sums = copied_gates(alloc, registers.sums())?;
    let part = copied_part(alloc, registers.part())?;
    let at = array_places(alloc, registers.left(), positions, outputs)?;
    let rows = 5 * terms.len() as u32 + 16 * positions + 5 * (lines + outputs) + 30;
    let cols = 2 * registers.left() + 8 * (positions + outputs) + 20;
    let planes = Planes::new(registers.left(), terms, sums, part, at, rows, cols);
    Pla::new(alloc, planes)
}

/// The same gates once more.
fn copied_gates(alloc: Global, gates: &[Gate]) -> Result<Vec<Gate>, NoMemory>
    ensures { IfOk result (λ copies. copies.items ≡ gates.now) }
{
    let mut copies = Vec::new(alloc);
    for gate in gates {
        let inputs = Vec::from_slice(alloc, gate.inputs())?;
        copies.push(Gate::new(gate.out(), inputs))?;
    }
    Ok(copies)
}

/// The same part once more.
fn copied_part(alloc: Global, part: &Part) -> Result<Part, NoMemory>
    ensures { IfOk result (λ copy. copy ≡ part.now) }
{
    let gates = copied_gates(alloc, part.gates())?;
    let loads = Vec::from_slice(alloc, part.loads())?;
    let transfers = Vec::from_slice(alloc, part.transfers())?;
    let ports = Vec::from_slice(alloc, part.ports())?;
    Ok(Part::new(part.nets(), part.supplies(), gates, loads, transfers, ports))
}

/// The columns of the part's nets, where the reset is the last of so many left nets.
pub(crate) fn array_places(
    alloc: Global,
    left: u32,
    positions: u32,
    outputs: u32,
) -> Result<Vec<u32>, NoMemory>
    requires few { (left ≤ 2 ^ 16) × (positions ≤ 2 ^ 12) × (outputs ≤ 16) }
    ensures { IfOk result (λ places. places.items ≡ every_second 2 (left + 2) ++ (every_second (2 * left + 7) (4 * positions)
        ++ (flat_map (output_columns (2 * left + 7 + 8 * positions)) (range_with_len 0 outputs)
        ++ every_second (2 * left + 7 + 8 * (positions + outputs)) 4))) }
{
    let sums = 2 * left + 7;
    let mut places = Vec::new(alloc);
    add_every_second(&mut places, 2, left + 2)?;
    add_every_second(&mut places, sums, 4 * positions)?;
    add_output_columns(&mut places, sums + 8 * positions, outputs)?;
    add_every_second(&mut places, sums + 8 * (positions + outputs), 4)?;
    Ok(places)
}

/// Adds so many columns from this one on, each second one.
fn add_every_second(places: &mut Vec<u32>, first: u32, count: u32) -> Result<(), NoMemory>
    requires { first + 2 * count < 2 ^ 32 }
    ensures { OnOk result (places.new.items ≡ places.old.items ++ every_second first count) }
{
    for k in 0..count {
        places.push(first + 2 * k)?;
    }
    Ok(())
}

/// Adds the two columns of each output, where this is the first column of the first one's sum.
fn add_output_columns(places: &mut Vec<u32>, first: u32, outputs: u32) -> Result<(), NoMemory>
    requires few { (first ≤ 2 ^ 20) × (outputs ≤ 16) }
    ensures { OnOk result (places.new.items ≡ places.old.items ++ flat_map (output_columns first) (range_with_len 0 outputs)) }
{
    for y in 0..outputs {
        places.push(first + 8 * y + 2)?;
        places.push(first + 8 * y + 4)?;
    }
    Ok(())
}
