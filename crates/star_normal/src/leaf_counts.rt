// How many leaves stand below each node.

ghost use Rattle.std.specs.Prelude.{◌≡◌, ◌<◌, ◌^◌, length, IfOk};
ghost use Rattle.star_normal.specs.Sizes.{AreSizes, size_of};
ghost use Rattle.star_normal.specs.Assembly.{PartsBelow};

use crate::node::NodeKind;
use crate::tree::Tree;
use rx_text::NoMemory;
use std::alloc::Global;

/// For each node of the tree, the number of its leaves.
///
/// # Errors
///
/// `NoMemory` where an allocation was refused.
pub fn sizes(alloc: Global, tree: &Tree) -> Result<Vec<u32>, NoMemory>
    ensures { IfOk result (λ sizes. AreSizes tree.now.nodes sizes.items) }
{
    let nodes = tree.nodes();
    let mut sizes = Vec::with_capacity(alloc, nodes.len())?;
    for node in nodes {
        let size = size_of(node.kind, &sizes);
        sizes.push(size)?;
    }
    Ok(sizes)
}

/// The number of leaves of a node, from those of the nodes before it.
fn size_of(kind: NodeKind, sizes: &[u32]) -> u32
    requires parts { PartsBelow (length sizes.now) kind }
    requires fits { size_of sizes.now kind < 2 ^ 32 }
    ensures { result ≡ size_of sizes.now kind }
{
    match kind {
        NodeKind::Leaf(_) => 1,
        NodeKind::Seq { left, right } | NodeKind::Alt { left, right } => {
            sizes[left as usize] + sizes[right as usize]
        }
    }
}
