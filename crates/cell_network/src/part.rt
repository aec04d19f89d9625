// The parts of the network of cells.

ghost use Rattle.std.specs.Prelude.{◌≡◌, ◌≤◌, ◌<◌, ◌+◌, ◌*◌, ◌^◌, ◌++◌, [], ◌∷◌, length, map, All, IfOk, OnOk};
ghost use Rattle.std.specs.List.{range_with_len};
ghost use Rattle.rx_lang.specs.Tables.{IsSpecification};
ghost use Rattle.star_normal.specs.Tables.{whole};
ghost use Rattle.star_normal.specs.Trees.{leaves};
ghost use Rattle.cell_network.specs.declared.part_net.PartNet.TheVariants.{Shared};
ghost use Rattle.cell_network.specs.Shapes.{number, numbered, AreSmall};
ghost use Rattle.cell_network.specs.Home.{AreFew};
ghost use Rattle.cell_network.specs.Parts.{node_at, inn_wire, bundle, wire_numbers, leaf_numbers, pair_numbers, kind_numbers, frame_numbers, ports_from, child_ports, pair_ports, kind_ports, frame_ports, node_part_of, frame_part_of, part_of, NamesSymbol};

use crate::numbering::{Counts, Numbering};
use crate::part_net::PartNet;
use crate::shapes::{
    add_frame_gates, add_kind_gates, add_kind_transfers, add_mark_gates, add_register,
};
use nor_net::{Gate, Part, PartPort, Supplies};
use rx_lang::Spec;
use rx_text::NoMemory;
use star_normal::{Node, NodeKind, Tree};
use std::alloc::Global;

impl Counts {
    /// The wire of IN in a bundle, which is followed by OUT, the reset, the clocks and the supplies.
    fn inn_wire(self) -> u32
        requires { AreFew self }
        ensures { result ≡ inn_wire self }
    {
        self.symbols + self.outputs
    }

    /// The number of wires in a bundle.
    pub fn bundle(self) -> u32
        requires { AreFew self }
        ensures { result ≡ bundle self }
    {
        self.symbols + self.outputs + 7
    }

    /// The supplies and clocks of every part.
    fn supplies(self) -> Supplies
        requires { AreFew self }
        ensures { result ≡ record {
          vdd = inn_wire self + 5;
          gnd = inn_wire self + 6;
          phi1 = inn_wire self + 3;
          phi2 = inn_wire self + 4;
        } }
    {
        let inn = self.inn_wire();
        Supplies {
            vdd: inn + 5,
            gnd: inn + 6,
            phi1: inn + 3,
            phi2: inn + 4,
        }
    }

    /// The wires, which are the first nets of every part.
    fn wire_numbers(self) -> Numbering
        requires { AreFew self }
        ensures { result ≡ wire_numbers self }
    {
        let inn = self.inn_wire();
        Numbering {
            shared: self.symbols,
            inn,
            out: inn + 1,
            reset: inn + 2,
            vdd: inn + 5,
            ..Numbering::default()
        }
    }

    /// The nets of a leaf's part.
    fn leaf_numbers(self) -> Numbering
        requires { AreFew self }
        ensures numbers { result ≡ leaf_numbers self }
        ensures small { AreSmall result }
    {
        let own = self.bundle();
        Numbering {
            not_begins: own,
            begins: own + 1,
            not_symbol: own + 2,
            source: own + 3,
            master: own + 4,
            inverse: own + 5,
            stored: own + 6,
            ..self.wire_numbers()
        }
    }

    /// The nets of the part of a node with two parts.
    fn pair_numbers(self) -> Numbering
        requires { AreFew self }
        ensures numbers { result ≡ pair_numbers self }
        ensures small { AreSmall result }
    {
        let own = self.bundle();
        Numbering {
            begins: own,
            left_out: own + 1,
            right_in: own + 2,
            right_out: own + 3,
            not_begins: own + 4,
            not_right: own + 5,
            not_out: own + 6,
            ..self.wire_numbers()
        }
    }

    /// The nets of a node's part.
    fn kind_numbers(self, kind: NodeKind) -> Numbering
        requires { AreFew self }
        ensures numbers { result ≡ kind_numbers self kind }
        ensures small { AreSmall result }
    {
        match kind {
            NodeKind::Leaf(_) => self.leaf_numbers(),
            NodeKind::Seq { .. } | NodeKind::Alt { .. } => self.pair_numbers(),
        }
    }

    /// The nets of the frame's part.
    fn frame_numbers(self) -> Numbering
        requires { AreFew self }
        ensures numbers { result ≡ frame_numbers self }
        ensures small { AreSmall result }
    {
        let lines = self.bundle();
        let outputs = lines + 2 * self.lines;
        let master = outputs + self.outputs;
        Numbering {
            lines,
            complements: lines + self.lines,
            outputs,
            master,
            inverse: master + 1,
            stored: master + 2,
            ..self.wire_numbers()
        }
    }
}

/// The part of a node, or of the frame, whose number follows those of the nodes.
///
/// With e the number of wires in a bundle, wire i is net i of the part, and its port has the name i towards the parent, e + i
/// towards the left part and 2e + i towards the right part. The root is the frame's left part; the frame's line i has the
/// name 3e + i, and its output y the name 3e + 16 + y.
///
/// # Errors
///
/// `NoMemory` where an allocation was refused.
pub fn node_part(alloc: Global, tree: &Tree, node: u32, spec: &Spec) -> Result<Part, NoMemory>
    requires node { node ≤ length tree.now.nodes }
    requires symbols { All (λ s. s < length spec.now.symbols) (leaves (whole tree.now)) }
    ensures { IfOk result (λ part. part ≡ part_of tree.now spec.now node) }
{
    let counts = Counts::of(tree, spec);
    if node < counts.nodes {
        let nodes = tree.nodes();
        part_of_node(alloc, counts, nodes, nodes[node as usize])
    } else {
        frame_part(alloc, counts, spec)
    }
}

/// The part of a node.
fn part_of_node(alloc: Global, counts: Counts, nodes: &[Node], node: Node) -> Result<Part, NoMemory>
    requires few { AreFew counts }
    requires symbol { NamesSymbol counts.symbols node.kind }
    ensures { IfOk result (λ part. part ≡ node_part_of counts nodes.now node) }
{
    let numbers = counts.kind_numbers(node.kind);
    let mut gates = Vec::new(alloc);
    let mut transfers = Vec::new(alloc);
    add_kind_gates(alloc, &mut gates, &numbers, nodes, node)?;
    let loads = outs(alloc, &gates)?;
    add_mark_gates(alloc, &mut gates, &numbers, counts.outputs as u8, node)?;
    add_kind_transfers(&mut transfers, &numbers, node.kind)?;
    let ports = kind_ports(alloc, counts, node.kind)?;
    Ok(Part::new(
        counts.bundle() + 7,
        counts.supplies(),
        gates,
        loads,
        transfers,
        ports,
    ))
}

/// The part of the frame.
fn frame_part(alloc: Global, counts: Counts, spec: &Spec) -> Result<Part, NoMemory>
    requires few { AreFew counts }
    requires lines { counts.lines ≡ length spec.now.lines }
    requires symbols { counts.symbols ≡ length spec.now.symbols }
    requires outputs { counts.outputs ≡ length spec.now.outputs }
    requires specification { IsSpecification spec.now }
    ensures { IfOk result (λ part. part ≡ frame_part_of counts spec.now) }
{
    let numbers = counts.frame_numbers();
    let mut gates = Vec::new(alloc);
    let mut transfers = Vec::new(alloc);
    add_frame_gates(alloc, &mut gates, &numbers, spec)?;
    let mut loads = outs(alloc, &gates)?;
    add_shared_loads(&mut loads, &numbers, counts.outputs as u8)?;
    add_register(&mut transfers, &numbers, PartNet::Reset)?;
    let ports = frame_ports(alloc, counts)?;
    Ok(Part::new(
        counts.bundle() + (2 * counts.lines + counts.outputs + 3),
        counts.supplies(),
        gates,
        loads,
        transfers,
        ports,
    ))
}

/// The outputs of the gates.
fn outs(alloc: Global, gates: &[Gate]) -> Result<Vec<u32>, NoMemory>
    ensures { IfOk result (λ nets. nets.items ≡ map (λ gate. gate.out) gates.now) }
{
    let mut nets = Vec::with_capacity(alloc, gates.len())?;
    for gate in gates {
        nets.push(gate.out())?;
    }
    Ok(nets)
}

/// Adds the shared wire of each output.
fn add_shared_loads(loads: &mut Vec<u32>, numbers: &Numbering, outputs: u8) -> Result<(), NoMemory>
    requires { AreSmall numbers.now }
    ensures { OnOk result (loads.new.items ≡ loads.old.items ++ map (λ y. number numbers.now (Shared y)) (range_with_len 0 outputs)) }
{
    for y in 0..outputs {
        loads.push(numbers.number(PartNet::Shared(y)))?;
    }
    Ok(())
}

/// The ports of a node's part.
fn kind_ports(alloc: Global, counts: Counts, kind: NodeKind) -> Result<Vec<PartPort>, NoMemory>
    requires { AreFew counts }
    ensures { IfOk result (λ ports. ports.items ≡ kind_ports counts kind) }
{
    let mut ports = Vec::new(alloc);
    let wires = counts.bundle();
    add_ports(&mut ports, 0, 0, wires)?;
    match kind {
        NodeKind::Leaf(_) => {}
        NodeKind::Seq { .. } | NodeKind::Alt { .. } => {
            let numbers = counts.pair_numbers();
            add_child_ports(&mut ports, counts, wires, numbers.begins, numbers.left_out)?;
            add_child_ports(
                &mut ports,
                counts,
                2 * wires,
                numbers.right_in,
                numbers.right_out,
            )?;
        }
    }
    Ok(ports)
}

/// The ports of the frame's part.
fn frame_ports(alloc: Global, counts: Counts) -> Result<Vec<PartPort>, NoMemory>
    requires { AreFew counts }
    ensures { IfOk result (λ ports. ports.items ≡ frame_ports counts) }
{
    let mut ports = Vec::new(alloc);
    let wires = counts.bundle();
    let numbers = counts.frame_numbers();
    add_ports(&mut ports, wires, 0, wires)?;
    add_ports(&mut ports, 3 * wires, numbers.lines, counts.lines)?;
    add_ports(&mut ports, 3 * wires + 16, numbers.outputs, counts.outputs)?;
    Ok(ports)
}

/// Adds the ports towards a part below, whose IN and OUT are these nets.
fn add_child_ports(
    ports: &mut Vec<PartPort>,
    counts: Counts,
    name: u32,
    inn: u32,
    out: u32,
) -> Result<(), NoMemory>
    requires few { AreFew counts }
    requires name { name < 2 ^ 16 }
    ensures { OnOk result (ports.new.items ≡ ports.old.items ++ child_ports counts name inn out) }
{
    let at = counts.inn_wire();
    add_ports(ports, name, 0, at)?;
    ports.push(PartPort {
        name: name + at,
        net: inn,
    })?;
    ports.push(PartPort {
        name: name + at + 1,
        net: out,
    })?;
    add_ports(ports, name + at + 2, at + 2, 5)
}

/// Adds the ports of nets that follow one another, under names that do.
fn add_ports(ports: &mut Vec<PartPort>, name: u32, net: u32, count: u32) -> Result<(), NoMemory>
    requires name { name < 2 ^ 17 }
    requires net { net < 2 ^ 17 }
    requires count { count < 2 ^ 17 }
    ensures { OnOk result (ports.new.items ≡ ports.old.items ++ ports_from name net count) }
{
    for i in 0..count {
        ports.push(PartPort {
            name: name + i,
            net: net + i,
        })?;
    }
    Ok(())
}
