// From labels to the table of a tree.

ghost use Rattle.std.specs.Prelude.{◌≡◌, ◌+◌, ◌*◌, ◌<◌, ◌≤◌, ◌^◌, ◌++◌, ◌∷◌, [], length, map, count_by, IfOk, OnOk};
ghost use Rattle.star_normal.specs.Trees.{FlaggedTree};
ghost use Rattle.star_normal.specs.Labels.{tree_labels, label_of};
ghost use Rattle.star_normal.specs.Tables.{whole, parts, is_leaf};
ghost use Rattle.star_normal.specs.Assembly.{Closes, Joins, IsNormal};

use crate::node::{Node, NodeKind};
use crate::tree::Tree;
use rx_text::NoMemory;
use std::alloc::Global;

/// The table of the tree with these labels.
pub fn assemble(alloc: Global, labels: &[Node]) -> Result<Tree, NoMemory>
    requires { (t : FlaggedTree) × (map label_of labels.now ≡ tree_labels t) × IsNormal t }
    ensures tree { IfOk result (λ tree. (t : FlaggedTree) → map label_of labels.now ≡ tree_labels t → whole tree ≡ t) }
    ensures nodes { IfOk result (λ tree. length tree.nodes + 1 ≡ 2 * count_by (λ node. is_leaf node.kind) tree.nodes) }
{
    let mut nodes = Vec::with_capacity(alloc, labels.len())?;
    let mut tops = Vec::new(alloc);
    for i in (0..labels.len()).rev() {
        join(&mut nodes, &mut tops, labels[i])?;
    }
    let root = take(&mut tops);
    Ok(Tree::new(nodes, root))
}

/// Adds the node of a label, whose parts are the last two tops.
fn join(nodes: &mut Vec<Node>, tops: &mut Vec<u32>, label: Node) -> Result<(), NoMemory>
    requires few { length nodes.old.items < 2 ^ 32 }
    requires parts { length (parts label.kind) ≤ length tops.old.items }
    ensures { OnOk result (Joins label nodes.old.items tops.old.items nodes.new.items tops.new.items) }
{
    let number = nodes.len() as u32;
    let kind = close(tops, label.kind);
    nodes.push(Node { kind, ..label })?;
    tops.push(number)?;
    Ok(())
}

/// The kind with the last top nodes as its parts.
fn close(tops: &mut Vec<u32>, kind: NodeKind) -> NodeKind
    requires { length (parts kind) ≤ length tops.old.items }
    ensures { Closes kind tops.old.items result tops.new.items }
{
    match kind {
        NodeKind::Leaf(symbol) => NodeKind::Leaf(symbol),
        NodeKind::Seq { .. } => {
            let left = take(tops);
            let right = take(tops);
            NodeKind::Seq { left, right }
        }
        NodeKind::Alt { .. } => {
            let left = take(tops);
            let right = take(tops);
            NodeKind::Alt { left, right }
        }
    }
}

/// Takes the last top node.
fn take(tops: &mut Vec<u32>) -> u32
    requires { 1 ≤ length tops.old.items }
    ensures { tops.old.items ≡ tops.new.items ++ result ∷ [] }
{
    match tops.pop() {
        Some(node) => node,
        None => unreachable!(),
    }
}
