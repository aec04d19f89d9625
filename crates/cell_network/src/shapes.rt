// The gates and registers of nodes and of the frame, under any numbering.

ghost use Rattle.std.specs.Prelude.{◌≡◌, ◌≤◌, ◌<◌, ◌==◌, ◌++◌, [], ◌∷◌, length, map, All, IfOk, OnOk};
ghost use Rattle.std.specs.Int.{bit_at};
ghost use Rattle.std.specs.List.{range_with_len};
ghost use Rattle.cell_network.specs.Cells.{eps_at};
ghost use Rattle.cell_network.specs.Shapes.{gate, numbered, AreSmall, begin_inputs, complement_inputs, leaf_gates, pair_gates, right_inputs, end_inputs, kind_gates, mark_gate, mark_gates, mismatch, mismatches, complement_gate, symbol_gate, output_gate, frame_gates, register, kind_transfers};

use crate::numbering::Numbering;
use crate::part_net::PartNet;
use nor_net::{Gate, Transfer};
use rx_lang::{PatternBit, Spec, Symbol};
use rx_text::{NoMemory, Role};
use star_normal::{Node, NodeKind};
use std::alloc::Global;

/// Adds the gate with this output and these inputs.
fn add_gate(
    alloc: Global,
    gates: &mut Vec<Gate>,
    numbers: &Numbering,
    out: PartNet,
    inputs: &[PartNet],
) -> Result<(), NoMemory>
    requires { AreSmall numbers.now }
    ensures { OnOk result (gates.new.items ≡ gates.old.items ++ numbered numbers.now (gate out inputs.now) ∷ []) }
{
    let mut nets = Vec::with_capacity(alloc, inputs.len())?;
    for input in inputs {
        nets.push(numbers.number(*input))?;
    }
    gates.push(Gate::new(numbers.number(out), nets))?;
    Ok(())
}

/// Adds the gates of a node that have their load in its part.
pub fn add_kind_gates(
    alloc: Global,
    gates: &mut Vec<Gate>,
    numbers: &Numbering,
    nodes: &[Node],
    node: Node,
) -> Result<(), NoMemory>
    requires { AreSmall numbers.now }
    ensures { OnOk result (gates.new.items ≡ gates.old.items ++ map (numbered numbers.now) (kind_gates nodes.now node node.kind)) }
{
    match node.kind {
        NodeKind::Leaf(s) => add_leaf_gates(alloc, gates, numbers, node, s),
        NodeKind::Seq { left, right } => {
            let begins = right_inputs(eps_at(nodes, left));
            let ends = end_inputs(eps_at(nodes, right));
            add_pair_gates(alloc, gates, numbers, node, begins, ends)
        }
        NodeKind::Alt { .. } => {
            let begins = &[PartNet::Begins];
            add_pair_gates(alloc, gates, numbers, node, begins, end_inputs(true))
        }
    }
}

/// The node with this number spells the empty word.
fn eps_at(nodes: &[Node], at: u32) -> bool
    ensures { result ≡ eps_at nodes.now at }
{
    match nodes.get(at as usize) {
        Some(node) => node.eps,
        None => false,
    }
}

/// The nets by which the right part of a sequence begins, from whether the left part spells the empty word.
fn right_inputs(left_eps: bool) -> &'static [PartNet]
    ensures { result.now ≡ right_inputs left_eps }
{
    if left_eps {
        &[PartNet::LeftOut, PartNet::Begins]
    } else {
        &[PartNet::LeftOut]
    }
}

/// The nets by which a sequence ends, from whether its right part spells the empty word.
fn end_inputs(right_eps: bool) -> &'static [PartNet]
    ensures { result.now ≡ end_inputs right_eps }
{
    if right_eps {
        &[PartNet::RightOut, PartNet::LeftOut]
    } else {
        &[PartNet::RightOut]
    }
}

/// The nets by which a node begins. A scan node begins at all times.
fn complement_inputs(scan: bool, loops: bool) -> &'static [PartNet]
    ensures { result.now ≡ complement_inputs scan loops }
{
    match (scan, loops) {
        (true, _) => &[PartNet::Vdd],
        (false, true) => &[PartNet::In, PartNet::Out],
        (false, false) => &[PartNet::In],
    }
}

/// The inputs of the gate of IN'.
fn begin_inputs(scan: bool) -> &'static [PartNet]
    ensures { result.now ≡ begin_inputs scan }
{
    if scan { &[] } else { &[PartNet::NotBegins] }
}

/// Adds the gates of a leaf.
fn add_leaf_gates(
    alloc: Global,
    gates: &mut Vec<Gate>,
    numbers: &Numbering,
    node: Node,
    symbol: u8,
) -> Result<(), NoMemory>
    requires { AreSmall numbers.now }
    ensures { OnOk result (gates.new.items ≡ gates.old.items ++ map (numbered numbers.now) (leaf_gates node symbol)) }
{
    use PartNet::{
        Begins, Data, Inverse, Master, NotBegins, NotSymbol, Out, Reset, Stored, Symbol,
    };
    add_gate(alloc, gates, numbers, Out, &[Stored])?;
    let starts = complement_inputs(node.scan, node.loops);
    add_gate(alloc, gates, numbers, NotBegins, starts)?;
    add_gate(alloc, gates, numbers, Begins, begin_inputs(node.scan))?;
    add_gate(alloc, gates, numbers, NotSymbol, &[Symbol(symbol)])?;
    add_gate(alloc, gates, numbers, Data, &[NotBegins, NotSymbol, Reset])?;
    add_gate(alloc, gates, numbers, Inverse, &[Master])?;
    Ok(())
}

/// Adds the gates of a node with two parts: the right part begins by one of the first nets, and the node ends by one of the
/// second.
fn add_pair_gates(
    alloc: Global,
    gates: &mut Vec<Gate>,
    numbers: &Numbering,
    node: Node,
    right: &[PartNet],
    ends: &[PartNet],
) -> Result<(), NoMemory>
    requires { AreSmall numbers.now }
    ensures { OnOk result (gates.new.items ≡ gates.old.items ++ map (numbered numbers.now) (pair_gates node right.now ends.now)) }
{
    use PartNet::{Begins, NotBegins, NotOut, NotRight, Out, RightIn};
    add_gate(alloc, gates, numbers, NotOut, ends)?;
    add_gate(alloc, gates, numbers, Out, &[NotOut])?;
    let starts = complement_inputs(node.scan, node.loops);
    add_gate(alloc, gates, numbers, NotBegins, starts)?;
    add_gate(alloc, gates, numbers, Begins, begin_inputs(node.scan))?;
    add_gate(alloc, gates, numbers, NotRight, right)?;
    add_gate(alloc, gates, numbers, RightIn, &[NotRight])?;
    Ok(())
}

/// Adds the gates of a node's marks, which pull the shared wires of their outputs.
pub fn add_mark_gates(
    alloc: Global,
    gates: &mut Vec<Gate>,
    numbers: &Numbering,
    outputs: u8,
    node: Node,
) -> Result<(), NoMemory>
    requires small { AreSmall numbers.now }
    requires few { outputs ≤ 16 }
    ensures { OnOk result (gates.new.items ≡ gates.old.items ++ map (numbered numbers.now) (mark_gates outputs node)) }
{
    for y in 0..outputs {
        add_mark_gate(alloc, gates, numbers, node, y)?;
    }
    Ok(())
}

/// Adds the gate of a node's mark for the output, if there is one.
fn add_mark_gate(
    alloc: Global,
    gates: &mut Vec<Gate>,
    numbers: &Numbering,
    node: Node,
    y: u8,
) -> Result<(), NoMemory>
    requires small { AreSmall numbers.now }
    requires few { y < 16 }
    ensures { OnOk result (gates.new.items ≡ gates.old.items ++ map (numbered numbers.now) (mark_gate node y)) }
{
    let wire = PartNet::Shared(y);
    match (has_bit(node.marks, y), has_bit(node.eps_marks, y)) {
        (true, true) => add_gate(
            alloc,
            gates,
            numbers,
            wire,
            &[PartNet::Out, PartNet::Begins],
        ),
        (true, false) => add_gate(alloc, gates, numbers, wire, &[PartNet::Out]),
        (false, true) => add_gate(alloc, gates, numbers, wire, &[PartNet::Begins]),
        (false, false) => Ok(()),
    }
}

/// The mask has this bit.
fn has_bit(mask: u16, bit: u8) -> bool
    requires { bit < 16 }
    ensures { result ≡ (bit_at mask bit == 1) }
{
    mask >> bit & 1 == 1
}

/// Adds the gates of the frame, all of which have their load in its part.
pub fn add_frame_gates(
    alloc: Global,
    gates: &mut Vec<Gate>,
    numbers: &Numbering,
    spec: &Spec,
) -> Result<(), NoMemory>
    requires { AreSmall numbers.now }
    ensures { OnOk result (gates.new.items ≡ gates.old.items ++ map (numbered numbers.now) (frame_gates spec.now)) }
{
    let lines = spec.lines().len() as u8;
    let outputs = spec.outputs().len() as u8;
    add_complement_gates(alloc, gates, numbers, lines)?;
    add_symbol_gates(alloc, gates, numbers, spec.symbols())?;
    add_gate(alloc, gates, numbers, PartNet::In, &[PartNet::Stored])?;
    add_output_gates(alloc, gates, numbers, outputs)?;
    add_gate(alloc, gates, numbers, PartNet::Inverse, &[PartNet::Master])?;
    Ok(())
}

/// Adds the complement of each line.
fn add_complement_gates(
    alloc: Global,
    gates: &mut Vec<Gate>,
    numbers: &Numbering,
    lines: u8,
) -> Result<(), NoMemory>
    requires { AreSmall numbers.now }
    ensures { OnOk result (gates.new.items ≡ gates.old.items ++ map (numbered numbers.now) (map complement_gate (range_with_len 0 lines))) }
{
    for line in 0..lines {
        let out = PartNet::Complement(line);
        add_gate(alloc, gates, numbers, out, &[PartNet::Line(line)])?;
    }
    Ok(())
}

/// Adds the gate of each symbol.
fn add_symbol_gates(
    alloc: Global,
    gates: &mut Vec<Gate>,
    numbers: &Numbering,
    symbols: &[Symbol],
) -> Result<(), NoMemory>
    requires small { AreSmall numbers.now }
    requires few { length symbols.now ≤ 32 }
    requires narrow { All (λ s. length s.pattern ≤ 16) symbols.now }
    ensures { OnOk result (gates.new.items ≡ gates.old.items
        ++ map (numbered numbers.now) (map (symbol_gate symbols.now) (range_with_len 0 (length symbols.now)))) }
{
    for s in 0..symbols.len() as u8 {
        let symbol = &symbols[s as usize];
        let inputs = mismatches(alloc, symbol.pattern.as_slice())?;
        add_gate(alloc, gates, numbers, PartNet::Symbol(s), &inputs)?;
    }
    Ok(())
}

/// The nets that are high where a line does not have the bit that the pattern asks for.
fn mismatches(alloc: Global, pattern: &[PatternBit]) -> Result<Vec<PartNet>, NoMemory>
    requires { length pattern.now ≤ 16 }
    ensures { IfOk result (λ nets. nets.items ≡ mismatches pattern.now) }
{
    let mut nets = Vec::new(alloc);
    for line in 0..pattern.len() as u8 {
        add_mismatch(&mut nets, line, pattern[line as usize])?;
    }
    Ok(nets)
}

/// Adds what is high where the line does not have the bit that this place of a pattern asks for.
fn add_mismatch(nets: &mut Vec<PartNet>, line: u8, place: PatternBit) -> Result<(), NoMemory>
    ensures { OnOk result (nets.new.items ≡ nets.old.items ++ mismatch line place) }
{
    match place {
        PatternBit::Zero => nets.push(PartNet::Line(line))?,
        PatternBit::One => nets.push(PartNet::Complement(line))?,
        PatternBit::Any => {}
    }
    Ok(())
}

/// Adds the gate of each output.
fn add_output_gates(
    alloc: Global,
    gates: &mut Vec<Gate>,
    numbers: &Numbering,
    outputs: u8,
) -> Result<(), NoMemory>
    requires { AreSmall numbers.now }
    ensures { OnOk result (gates.new.items ≡ gates.old.items ++ map (numbered numbers.now) (map output_gate (range_with_len 0 outputs))) }
{
    for y in 0..outputs {
        add_gate(
            alloc,
            gates,
            numbers,
            PartNet::Output(y),
            &[PartNet::Shared(y)],
        )?;
    }
    Ok(())
}

/// Adds the transfers of a register: from its source through PHI1, and from the complement behind it through PHI2.
pub fn add_register(
    transfers: &mut Vec<Transfer>,
    numbers: &Numbering,
    source: PartNet,
) -> Result<(), NoMemory>
    requires { AreSmall numbers.now }
    ensures { OnOk result (transfers.new.items ≡ transfers.old.items ++ register numbers.now source) }
{
    transfers.push(Transfer {
        clock: Role::Phi1,
        from: numbers.number(source),
        to: numbers.master,
    })?;
    transfers.push(Transfer {
        clock: Role::Phi2,
        from: numbers.inverse,
        to: numbers.stored,
    })?;
    Ok(())
}

/// Adds the transfers of a node: a leaf has a register.
pub fn add_kind_transfers(
    transfers: &mut Vec<Transfer>,
    numbers: &Numbering,
    kind: NodeKind,
) -> Result<(), NoMemory>
    requires { AreSmall numbers.now }
    ensures { OnOk result (transfers.new.items ≡ transfers.old.items ++ kind_transfers numbers.now kind) }
{
    match kind {
        NodeKind::Leaf(_) => add_register(transfers, numbers, PartNet::Data),
        NodeKind::Seq { .. } | NodeKind::Alt { .. } => Ok(()),
    }
}
