// What the block of a node depends on.

ghost use Rattle.std.specs.Prelude.{◌≡◌, ◌<◌, ◌≤◌, length, All};
ghost use Rattle.star_normal.specs.Sizes.{AreSizes};
ghost use Rattle.star_normal.specs.Tables.{parts};
ghost use Rattle.tree_chip.specs.Signatures.{core_of, frame_signature, signature_of};

use node_cell::is_left_light;
use star_normal::{Node, NodeKind, Tree};

/// What a node is: a leaf of a symbol, a sequence, with whether its left and its right part spell the empty word and whether the left
/// part is the light one, a union, with the latter, or the frame.
#[derive(Clone, Copy, Debug, PartialEq, Eq)]
pub enum Core {
    Leaf(u8),
    Seq(bool, bool, bool),
    Alt(bool),
    Frame,
}

/// What the block of a node depends on. Nodes with equal ones have equal blocks.
#[derive(Clone, Copy, Debug, PartialEq, Eq)]
pub struct Signature {
    pub core: Core,
    pub loops: bool,
    pub scan: bool,
    pub marks: u16,
    pub eps_marks: u16,
}

/// The signature of the node with this number, or of the frame, whose number follows those of the nodes. `sizes` has the number of
/// leaves of each node.
pub(crate) fn signature_of(tree: &Tree, sizes: &[u32], node: u32) -> Signature
    requires sizes { AreSizes tree.now.nodes sizes.now }
    requires node { node ≤ length tree.now.nodes }
    ensures { result ≡ signature_of tree.now node }
{
    let nodes = tree.nodes();
    if node as usize == nodes.len() {
        return frame_signature();
    }
    let node = nodes[node as usize];
    Signature {
        core: core_of(nodes, sizes, node.kind),
        loops: node.loops,
        scan: node.scan,
        marks: node.marks,
        eps_marks: node.eps_marks,
    }
}

/// The signature of the frame.
fn frame_signature() -> Signature
    ensures { result ≡ frame_signature }
{
    Signature {
        core: Core::Frame,
        loops: false,
        scan: false,
        marks: 0,
        eps_marks: 0,
    }
}

/// What a node of this kind is.
fn core_of(nodes: &[Node], sizes: &[u32], kind: NodeKind) -> Core
    requires sizes { AreSizes nodes.now sizes.now }
    requires parts { All (λ child. child < length nodes.now) (parts kind) }
    ensures { result ≡ core_of nodes.now kind }
{
    match kind {
        NodeKind::Leaf(symbol) => Core::Leaf(symbol),
        NodeKind::Seq { left, right } => Core::Seq(
            nodes[left as usize].eps,
            nodes[right as usize].eps,
            is_left_light(nodes, sizes, left, right),
        ),
        NodeKind::Alt { left, right } => Core::Alt(is_left_light(nodes, sizes, left, right)),
    }
}
