// The whole network of cells.

ghost use Rattle.std.specs.Prelude.{◌≡◌, ◌↔◌, ℕ, List, ◌≤◌, ◌<◌, ◌+◌, ◌^◌, ◌++◌, true, false, length, map, All, IfOk, OnOk};
ghost use Rattle.std.specs.List.{range_with_len};
ghost use Rattle.rx_text.specs.Role.{bears_name};
ghost use Rattle.rx_lang.specs.Vector.{Bits};
ghost use Rattle.rx_lang.specs.Specification.{MatchesSymbol, Language};
ghost use Rattle.rx_lang.specs.Tables.{specification};
ghost use Rattle.star_normal.specs.Tables.{parts, whole};
ghost use Rattle.star_normal.specs.Trees.{leaves, WholeMarks};
ghost use Rattle.switch_net.specs.Recognition.{pad_names};
ghost use Rattle.nor_net.specs.Clearing.{ClearsByReset};
ghost use Rattle.nor_net.specs.Recognised.{ShowsByClocks};
ghost use Rattle.cell_network.specs.Home.{AreFew, AreInNets};
ghost use Rattle.cell_network.specs.Whole.{plain, pads_from, pads_of, cell_gates, cell_transfers, load_gate, whole_gates, whole_transfers, first_order, second_order, cells_of};

use crate::home::{frame_home, home, in_nets};
use crate::numbering::Counts;
use crate::part_net::PartNet;
use crate::shapes::{
    add_frame_gates, add_kind_gates, add_kind_transfers, add_mark_gates, add_register,
};
use nor_net::laws::clocks_solve_the_equations;
use nor_net::{Gate, NorNet, Transfer};
use rx_lang::Spec;
use rx_text::{Name, NoMemory, PadName, Role};
use star_normal::{Node, Tree};
use std::alloc::Global;
use switch_net::{Net, Pad};

/// The network of the tree's cells: the union of the parts of all nodes and of the frame. Clock by clock its outputs show what
/// the tree marks, and so the languages of the specification where the tree marks the same. The reset clears its registers. It takes time and memory in
/// proportion to the nodes and their marks.
///
/// # Errors
///
/// `NoMemory` where an allocation was refused.
pub fn cells(alloc: Global, tree: &Tree, spec: &Spec) -> Result<NorNet, NoMemory>
    requires symbols { All (λ s. s < length spec.now.symbols) (leaves (whole tree.now)) }
    ensures cells { IfOk result (λ net. net ≡ cells_of tree.now spec.now) }
    ensures marks { IfOk result (λ net. ShowsByClocks net (length spec.now.lines) (WholeMarks (MatchesSymbol spec.now.symbols) (whole tree.now))) }
    ensures shows { IfOk result (λ net.
        ((y : ℕ) (u : List Bits) → WholeMarks (MatchesSymbol spec.now.symbols) (whole tree.now) y u ↔ Language (specification spec.now) y u)
        → ShowsByClocks net (length spec.now.lines) (Language (specification spec.now))) }
    ensures pads { IfOk result (λ net. map (λ pad. pad.name) net.pads ≡ pad_names spec.now.lines spec.now.outputs) }
    ensures few { IfOk result (λ net. net.nets ≤ 16777216) }
    ensures clears { IfOk result (λ net. ClearsByReset net) }
{
    clocks_solve_the_equations();
    let counts = Counts::of(tree, spec);
    let nodes = tree.nodes();
    let inns = in_nets(alloc, counts, nodes)?;
    let gates = whole_gates(alloc, counts, &inns, tree, spec)?;
    let transfers = whole_transfers(alloc, counts, &inns, tree)?;
    let pads = pads_of(alloc, counts, spec)?;
    let first = first_order(alloc, counts)?;
    let second = second_order(alloc, counts)?;
    Ok(NorNet::new(counts.whole_nets(), gates, transfers, pads, first, second))
}

/// The gates: those of the frame, the loads of the shared wires, those of each node.
fn whole_gates(
    alloc: Global,
    counts: Counts,
    inns: &[u32],
    tree: &Tree,
    spec: &Spec,
) -> Result<Vec<Gate>, NoMemory>
    requires few { AreFew counts }
    requires nodes { counts.nodes ≡ length tree.now.nodes }
    requires inns { AreInNets counts tree.now.nodes inns.now }
    ensures { IfOk result (λ gates. gates.items ≡ whole_gates counts tree.now spec.now) }
{
    let nodes = tree.nodes();
    let frame = frame_home(counts, tree.root());
    let mut gates = Vec::new(alloc);
    add_frame_gates(alloc, &mut gates, &frame, spec)?;
    add_load_gates(alloc, &mut gates, counts)?;
    for v in 0..counts.nodes {
        add_cell_gates(alloc, &mut gates, counts, inns, nodes, v)?;
    }
    Ok(gates)
}

/// Adds a gate without inputs at the shared wire of each output.
fn add_load_gates(alloc: Global, gates: &mut Vec<Gate>, counts: Counts) -> Result<(), NoMemory>
    requires { AreFew counts }
    ensures { OnOk result (gates.new.items ≡ gates.old.items ++ map (load_gate counts) (range_with_len 0 counts.outputs)) }
{
    for y in 0..counts.outputs {
        gates.push(Gate::new(counts.shared_net() + y, Vec::new(alloc)))?;
    }
    Ok(())
}

/// Adds the gates of a node's part.
fn add_cell_gates(
    alloc: Global,
    gates: &mut Vec<Gate>,
    counts: Counts,
    inns: &[u32],
    nodes: &[Node],
    v: u32,
) -> Result<(), NoMemory>
    requires few { AreFew counts }
    requires counts { counts.nodes ≡ length nodes.now }
    requires inns { AreInNets counts nodes.now inns.now }
    requires parts { All (λ node. All (λ child. child < length nodes.now) (parts node.kind)) nodes.now }
    requires node { v < counts.nodes }
    ensures { OnOk result (gates.new.items ≡ gates.old.items ++ cell_gates counts nodes.now v) }
{
    let node = nodes[v as usize];
    let numbers = home(counts, v, inns[v as usize], node.kind);
    add_kind_gates(alloc, gates, &numbers, nodes, node)?;
    add_mark_gates(alloc, gates, &numbers, counts.outputs as u8, node)
}

/// The transfers: those of the start register, then those of each leaf.
fn whole_transfers(
    alloc: Global,
    counts: Counts,
    inns: &[u32],
    tree: &Tree,
) -> Result<Vec<Transfer>, NoMemory>
    requires few { AreFew counts }
    requires nodes { counts.nodes ≡ length tree.now.nodes }
    requires inns { AreInNets counts tree.now.nodes inns.now }
    ensures { IfOk result (λ transfers. transfers.items ≡ whole_transfers counts tree.now) }
{
    let nodes = tree.nodes();
    let frame = frame_home(counts, tree.root());
    let mut transfers = Vec::new(alloc);
    add_register(&mut transfers, &frame, PartNet::Reset)?;
    for v in 0..counts.nodes {
        add_cell_transfers(&mut transfers, counts, inns, nodes, v)?;
    }
    Ok(transfers)
}

/// Adds the transfers of a node's part.
fn add_cell_transfers(
    transfers: &mut Vec<Transfer>,
    counts: Counts,
    inns: &[u32],
    nodes: &[Node],
    v: u32,
) -> Result<(), NoMemory>
    requires few { AreFew counts }
    requires counts { counts.nodes ≡ length nodes.now }
    requires inns { AreInNets counts nodes.now inns.now }
    requires parts { All (λ node. All (λ child. child < length nodes.now) (parts node.kind)) nodes.now }
    requires node { v < counts.nodes }
    ensures { OnOk result (transfers.new.items ≡ transfers.old.items ++ cell_transfers counts nodes.now v) }
{
    let node = nodes[v as usize];
    let numbers = home(counts, v, inns[v as usize], node.kind);
    add_kind_transfers(transfers, &numbers, node.kind)
}

/// The pads: supplies, clocks, reset, lines, outputs.
fn pads_of(alloc: Global, counts: Counts, spec: &Spec) -> Result<Vec<Pad>, NoMemory>
    requires { AreFew counts }
    ensures { IfOk result (λ pads. pads.items ≡ pads_of counts spec.now) }
{
    let mut pads = vec![in alloc;
        plain(Role::Vdd, 0),
        plain(Role::Gnd, 1),
        plain(Role::Phi1, 2),
        plain(Role::Phi2, 3),
        plain(Role::Reset, 4),
    ]?;
    add_pads(&mut pads, Role::Input, counts.line_net(), spec.lines())?;
    add_pads(&mut pads, Role::Output, counts.output_net(), spec.outputs())?;
    Ok(pads)
}

/// The pad of a supply, a clock or the reset.
fn plain(role: Role, net: u32) -> Pad
    requires { bears_name role ≡ false }
    ensures { result ≡ plain role net }
{
    Pad {
        name: PadName::plain(role),
        net: Net(net),
    }
}

/// Adds the pads of these names, on nets from this one on.
fn add_pads(pads: &mut Vec<Pad>, role: Role, net: u32, names: &[Name]) -> Result<(), NoMemory>
    requires role { bears_name role ≡ true }
    requires fits { net + length names.now < 2 ^ 32 }
    ensures { OnOk result (pads.new.items ≡ pads.old.items ++ pads_from role net names.now) }
{
    for (i, name) in names.iter().enumerate() {
        pads.push(Pad {
            name: PadName {
                role,
                name: Some(*name),
            },
            net: Net(net + i as u32),
        })?;
    }
    Ok(())
}

/// The order of evaluation under PHI1, by number.
fn first_order(alloc: Global, counts: Counts) -> Result<Vec<u32>, NoMemory>
    requires { AreFew counts }
    ensures { IfOk result (λ order. order.items ≡ first_order counts) }
{
    let mut order = Vec::new(alloc);
    add_range(&mut order, 0, counts.whole_nets())?;
    Ok(order)
}

/// The order of evaluation under PHI2, in which the storage nodes behind PHI1 come first.
fn second_order(alloc: Global, counts: Counts) -> Result<Vec<u32>, NoMemory>
    requires { AreFew counts }
    ensures { IfOk result (λ order. order.items ≡ second_order counts) }
{
    let mut order = Vec::new(alloc);
    let master = counts.master_net();
    add_range(&mut order, master, 2 + 2 * counts.nodes)?;
    add_range(&mut order, 0, master)?;
    Ok(order)
}

/// Adds so many numbers from this one on.
fn add_range(order: &mut Vec<u32>, from: u32, count: u32) -> Result<(), NoMemory>
    requires { from + count < 2 ^ 32 }
    ensures { OnOk result (order.new.items ≡ order.old.items ++ range_with_len from count) }
{
    for i in 0..count {
        order.push(from + i)?;
    }
    Ok(())
}
