// The light and the heavy child of each node.

ghost use Rattle.std.specs.Prelude.{◌≡◌, ◌<◌, ◌≤◌, All, IfSome, length, slice_index};
ghost use Rattle.star_normal.specs.Sizes.{AreSizes, heavier, heavy_child, light_child, lighter};
ghost use Rattle.star_normal.specs.Tables.{IsTree, parts};
ghost use Rattle.light_order.specs.Order.{heavy_of, light_of};

use star_normal::{NodeKind, Tree};

/// The light child of a node and its heavy child, where it has them. The frame stands above the root: its number is that of
/// the tree's nodes, its heavy child is the root, and it has no light one. `sizes` has the number of leaves of each node.
pub fn children(tree: &Tree, sizes: &[u32], node: u32) -> (Option<u32>, Option<u32>)
    requires sizes { AreSizes tree.now.nodes sizes.now }
    requires node { node ≤ length tree.now.nodes }
    ensures light { result.0 ≡ light_of tree.now node }
    ensures heavy { result.1 ≡ heavy_of tree.now node }
    ensures inside { IfSome result.0 (λ child. child < length tree.now.nodes) }
    ensures few { length tree.now.nodes ≤ 8191 }
    ensures tree { IsTree tree.now }
{
    let nodes = tree.nodes();
    if node as usize == nodes.len() {
        return (None, Some(tree.root()));
    }
    let node = nodes[node as usize];
    children_of(node.kind, sizes)
}

/// The light child and the heavy child of a node of this kind.
fn children_of(kind: NodeKind, sizes: &[u32]) -> (Option<u32>, Option<u32>)
    requires { All (λ child. child < length sizes.now) (parts kind) }
    ensures light { result.0 ≡ light_child (slice_index sizes.now) kind }
    ensures heavy { result.1 ≡ heavy_child (slice_index sizes.now) kind }
{
    match kind {
        NodeKind::Leaf(_) => (None, None),
        NodeKind::Seq { left, right } | NodeKind::Alt { left, right } => {
            let (light, heavy) = weighed(sizes, left, right);
            (Some(light), Some(heavy))
        }
    }
}

/// The two nodes, first the one with fewer leaves.
fn weighed(sizes: &[u32], left: u32, right: u32) -> (u32, u32)
    requires left { left < length sizes.now }
    requires right { right < length sizes.now }
    ensures light { result.0 ≡ lighter (slice_index sizes.now) left right }
    ensures heavy { result.1 ≡ heavier (slice_index sizes.now) left right }
{
    if sizes[left as usize] <= sizes[right as usize] {
        (left, right)
    } else {
        (right, left)
    }
}
