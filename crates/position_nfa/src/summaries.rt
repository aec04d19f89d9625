// What is known of each node before its leaves become positions.

ghost use Rattle.std.specs.Prelude.{◌≡◌, ◌<◌, length, IfOk};
ghost use Rattle.star_normal.specs.Tables.{parts};
ghost use Rattle.position_nfa.specs.Summaries.{AreSummaries, PartsAreBelow, empty_mask};

use rx_text::NoMemory;
use star_normal::{Node, NodeKind, Tree, sizes};
use std::alloc::Global;

/// Of a node: how many leaves it has, and the outputs that it marks for the empty word at its beginning, within it and at it.
#[derive(Clone, Copy, Debug, PartialEq, Eq)]
pub struct Summary {
    pub leaves: u32,
    pub empties: u16,
}

/// The summary of each node.
pub fn summaries(alloc: Global, tree: &Tree) -> Result<Vec<Summary>, NoMemory>
    ensures { IfOk result (λ summaries. AreSummaries tree.now.nodes summaries.items) }
{
    let sizes = sizes(alloc, tree)?;
    let nodes = tree.nodes();
    let mut summaries = Vec::with_capacity(alloc, nodes.len())?;
    for k in 0..nodes.len() {
        let empties = empty_mask(nodes, &summaries, nodes[k]);
        summaries.push(Summary {
            leaves: sizes[k],
            empties,
        })?;
    }
    Ok(summaries)
}

/// The outputs that a node marks for the empty word at its beginning, from those of the nodes before it.
fn empty_mask(nodes: &[Node], before: &[Summary], node: Node) -> u16
    requires nodes { PartsAreBelow (length nodes.now) node.kind }
    requires before { PartsAreBelow (length before.now) node.kind }
    ensures { result ≡ empty_mask nodes.now before.now node }
{
    let within = match node.kind {
        NodeKind::Leaf(_) => 0,
        NodeKind::Seq { left, right } => {
            let second = if nodes[left as usize].eps {
                before[right as usize].empties
            } else {
                0
            };
            before[left as usize].empties | second
        }
        NodeKind::Alt { left, right } => {
            before[left as usize].empties | before[right as usize].empties
        }
    };
    within | node.eps_marks
}
