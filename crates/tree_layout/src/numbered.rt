// The nodes of a tree by their numbers in the light-first order.

ghost use Rattle.std.specs.Prelude.{◌≡◌, ◌+◌, ◌*◌, ◌^◌, ◌<◌, ◌≤◌, ℕ, Some, None, IfOk, length, slice_index};
ghost use Rattle.std.specs.Option.{option_map};
ghost use Rattle.star_normal.specs.Sizes.{AreSizes};
ghost use Rattle.light_order.specs.Order.{light_first};
ghost use Rattle.light_order.specs.Crossings.{number_of};
ghost use Rattle.tree_layout.specs.Numbered.{entries_of, entry_of};

use light_order::laws::{children_stand_behind, each_node_stands_once};
use light_order::{children, order};
use rx_text::NoMemory;
use star_normal::{Tree, sizes};
use std::alloc::Global;

/// A node, and the numbers of its children in the order.
#[derive(Clone, Copy, Debug, PartialEq, Eq)]
pub struct Entry {
    pub node: u32,
    pub light: Option<u32>,
    pub heavy: Option<u32>,
}

/// The frame and the nodes of the tree, light parts first.
pub fn entries(alloc: Global, tree: &Tree) -> Result<Vec<Entry>, NoMemory>
    ensures { IfOk result (λ entries. entries.items ≡ entries_of tree.now) }
{
    each_node_stands_once();
    let frame = tree.nodes().len();
    let sizes = sizes(alloc, tree)?;
    let order = order(alloc, tree)?;
    let mut entries = Vec::with_capacity(alloc, frame + 1)?;
    for (number, node) in order.iter().enumerate() {
        let entry = entry_at(tree, &sizes, number as u32, *node);
        entries.push(entry)?;
    }
    Ok(entries)
}

/// The node at this number of the order. Behind it stand its light part, which has one node less than twice its leaves, and
/// its heavy part.
fn entry_at(tree: &Tree, sizes: &[u32], number: u32, node: u32) -> Entry
    requires sizes { AreSizes tree.now.nodes sizes.now }
    requires node { node ≤ length tree.now.nodes }
    requires number { number_of (light_first tree.now) node ≡ Some number }
    ensures { result ≡ entry_of tree.now node }
{
    children_stand_behind();
    each_node_stands_once();
    let (light, heavy) = children(tree, sizes, node);
    Entry {
        node,
        light: numbered(light, number + 1),
        heavy: heavy_number(sizes, number, light, heavy),
    }
}

/// The number of the heavy child, which stands behind the light part.
fn heavy_number(sizes: &[u32], number: u32, light: Option<u32>, heavy: Option<u32>) -> Option<u32>
    requires next { number + 1 < 2 ^ 32 }
    requires behind { (l h : ℕ) → light ≡ Some l → heavy ≡ Some h → (l < length sizes.now) × (number + 2 * slice_index sizes.now l < 2 ^ 32) }
    ensures none { heavy ≡ None → result ≡ None }
    ensures alone { (h : ℕ) → heavy ≡ Some h → light ≡ None → result ≡ Some (number + 1) }
    ensures both { (l h : ℕ) → heavy ≡ Some h → light ≡ Some l → result ≡ Some (number + 2 * slice_index sizes.now l) }
{
    match (light, heavy) {
        (Some(light), Some(_)) => Some(number + 2 * sizes[light as usize]),
        (None, Some(_)) => Some(number + 1),
        (_, None) => None,
    }
}

/// The number, where there is a child.
fn numbered(child: Option<u32>, number: u32) -> Option<u32>
    ensures { result ≡ option_map (λ node. number) child }
{
    match child {
        Some(_) => Some(number),
        None => None,
    }
}
