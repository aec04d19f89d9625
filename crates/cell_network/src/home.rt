// Where the nets of the parts stand in the whole network.

ghost use Rattle.std.specs.Prelude.{◌≡◌, ◌<◌, ◌+◌, length, All, IfOk};
ghost use Rattle.star_normal.specs.Tables.{parts};
ghost use Rattle.cell_network.specs.Shapes.{AreSmall};
ghost use Rattle.cell_network.specs.Home.{AreFew, symbol_net, complement_net, line_net, start_net, end_net, begin_net, shared_net, output_net, master_net, whole_nets, fed_nets, AreInNets, home_numbers, home_of_kind, frame_home};

use crate::numbering::{Counts, Numbering};
use rx_text::NoMemory;
use star_normal::{Node, NodeKind};
use std::alloc::Global;

impl Counts {
    /// The first input line, behind the supplies, the clocks and the reset.
    pub fn line_net(self) -> u32
        ensures { result ≡ line_net self }
    {
        5
    }

    /// The complement of the first line.
    fn complement_net(self) -> u32
        requires { AreFew self }
        ensures { result ≡ complement_net self }
    {
        5 + self.lines
    }

    /// The wire of the first symbol.
    fn symbol_net(self) -> u32
        requires { AreFew self }
        ensures { result ≡ symbol_net self }
    {
        5 + 2 * self.lines
    }

    /// The start register, with IN of the root behind it.
    fn start_net(self) -> u32
        requires { AreFew self }
        ensures { result ≡ start_net self }
    {
        5 + 2 * self.lines + self.symbols
    }

    /// What a node's part has before OUT, with OUT behind it.
    fn end_net(self, node: u32) -> u32
        requires few { AreFew self }
        requires node { node < self.nodes }
        ensures { result ≡ end_net self node }
    {
        7 + 2 * self.lines + self.symbols + 2 * node
    }

    /// The first net of a node that depends on its IN.
    fn begin_net(self, node: u32) -> u32
        requires few { AreFew self }
        requires node { node < self.nodes }
        ensures { result ≡ begin_net self node }
    {
        7 + 2 * self.lines + self.symbols + 2 * self.nodes + 4 * (self.nodes - node - 1)
    }

    /// The shared wire of the first output.
    pub fn shared_net(self) -> u32
        requires { AreFew self }
        ensures { result ≡ shared_net self }
    {
        7 + 2 * self.lines + self.symbols + 6 * self.nodes
    }

    /// The first output.
    pub fn output_net(self) -> u32
        requires { AreFew self }
        ensures { result ≡ output_net self }
    {
        self.shared_net() + self.outputs
    }

    /// The first storage node of the start register, behind which stand those of the leaves.
    pub fn master_net(self) -> u32
        requires { AreFew self }
        ensures { result ≡ master_net self }
    {
        self.output_net() + self.outputs
    }

    /// The number of nets.
    pub fn whole_nets(self) -> u32
        requires { AreFew self }
        ensures { result ≡ whole_nets self }
    {
        self.master_net() + 2 + 2 * self.nodes
    }
}

/// IN of every node: a node feeds its left part with its own beginning, and its right part with IN of that part. The root is
/// fed by the start register.
pub fn in_nets(alloc: Global, counts: Counts, nodes: &[Node]) -> Result<Vec<u32>, NoMemory>
    requires few { AreFew counts }
    requires counts { counts.nodes ≡ length nodes.now }
    requires parts { All (λ node. All (λ child. child < length nodes.now) (parts node.kind)) nodes.now }
    ensures { IfOk result (λ nets. AreInNets counts nodes.now nets.items) }
{
    let mut nets = vec![in alloc; counts.start_net() + 1; nodes.len()]?;
    for (k, node) in nodes.iter().enumerate() {
        feed_parts(counts, &mut nets, k as u32, node.kind);
    }
    Ok(nets)
}

/// Puts IN of the node's parts to what the node feeds them with.
fn feed_parts(counts: Counts, nets: &mut Vec<u32>, k: u32, kind: NodeKind)
    requires few { AreFew counts }
    requires node { k < counts.nodes }
    requires parts { All (λ child. child < length nets.old.items) (parts kind) }
    ensures { nets.new.items ≡ fed_nets counts k kind nets.old.items }
{
    match kind {
        NodeKind::Leaf(_) => {}
        NodeKind::Seq { left, right } | NodeKind::Alt { left, right } => {
            nets[left as usize] = counts.begin_net(k) + 1;
            nets[right as usize] = counts.begin_net(k) + 3;
        }
    }
}

/// The nets of a node's part, from IN of the node.
pub fn home(counts: Counts, node: u32, inn: u32, kind: NodeKind) -> Numbering
    requires few { AreFew counts }
    requires node { node < counts.nodes }
    requires parts { All (λ child. child < counts.nodes) (parts kind) }
    ensures home { result ≡ home_of_kind counts node inn kind }
    ensures small { AreSmall result }
{
    match kind {
        NodeKind::Leaf(_) => home_numbers(counts, node, inn, 0, 0),
        NodeKind::Seq { left, right } | NodeKind::Alt { left, right } => {
            home_numbers(counts, node, inn, left, right)
        }
    }
}

/// The nets of a node's part, from IN of the node and from its parts.
fn home_numbers(counts: Counts, node: u32, inn: u32, left: u32, right: u32) -> Numbering
    requires few { AreFew counts }
    requires node { node < counts.nodes }
    requires left { left < counts.nodes }
    requires right { right < counts.nodes }
    ensures home { result ≡ home_numbers counts node inn left right }
    ensures small { AreSmall result }
{
    let end = counts.end_net(node);
    let begin = counts.begin_net(node);
    let master = counts.master_net() + 2 + 2 * node;
    Numbering {
        symbols: counts.symbol_net(),
        shared: counts.shared_net(),
        inn,
        out: end + 1,
        reset: 4,
        vdd: 0,
        not_begins: begin,
        begins: begin + 1,
        not_symbol: begin + 2,
        source: begin + 3,
        master,
        inverse: master + 1,
        stored: end,
        left_out: counts.end_net(left) + 1,
        right_in: begin + 3,
        right_out: counts.end_net(right) + 1,
        not_right: begin + 2,
        not_out: end,
        lines: counts.line_net(),
        complements: counts.complement_net(),
        outputs: counts.output_net(),
    }
}

/// The nets of the frame's part, in which IN and OUT are the root's.
pub fn frame_home(counts: Counts, root: u32) -> Numbering
    requires few { AreFew counts }
    requires root { root < counts.nodes }
    ensures home { result ≡ frame_home counts root }
    ensures small { AreSmall result }
{
    let master = counts.master_net();
    Numbering {
        symbols: counts.symbol_net(),
        shared: counts.shared_net(),
        inn: counts.start_net() + 1,
        out: counts.end_net(root) + 1,
        reset: 4,
        vdd: 0,
        not_begins: 0,
        begins: 0,
        not_symbol: 0,
        source: 0,
        master,
        inverse: master + 1,
        stored: counts.start_net(),
        left_out: 0,
        right_in: 0,
        right_out: 0,
        not_right: 0,
        not_out: 0,
        lines: counts.line_net(),
        complements: counts.complement_net(),
        outputs: counts.output_net(),
    }
}
