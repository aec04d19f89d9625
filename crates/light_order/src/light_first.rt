// The light-first order.

ghost use Rattle.std.specs.Prelude.{◌≡◌, ◌++◌, IfOk, OnOk};
ghost use Rattle.light_order.specs.Order.{light_first, listed};

use crate::light_children::children;
use rx_text::NoMemory;
use star_normal::{Tree, sizes};
use std::alloc::Global;

/// The frame, then the nodes of the tree: each node stands before its light part, and that before its heavy part. The frame
/// has the number behind those of the nodes. It takes time in proportion to the nodes.
///
/// # Errors
///
/// `NoMemory` where an allocation was refused.
pub fn order(alloc: Global, tree: &Tree) -> Result<Vec<u32>, NoMemory>
    ensures { IfOk result (λ order. order.items ≡ light_first tree.now) }
{
    let frame = tree.nodes().len();
    let sizes = sizes(alloc, tree)?;
    let mut order = Vec::with_capacity(alloc, frame + 1)?;
    order.push(frame as u32)?;
    let mut waiting = Vec::new(alloc);
    waiting.push(tree.root())?;
    while let Some(node) = waiting.pop() {
        order.push(node)?;
        let (light, heavy) = children(tree, &sizes, node);
        push_some(&mut waiting, heavy)?;
        push_some(&mut waiting, light)?;
    }
    Ok(order)
}

/// Pushes the number, where there is one.
fn push_some(numbers: &mut Vec<u32>, number: Option<u32>) -> Result<(), NoMemory>
    ensures { OnOk result (numbers.new.items ≡ numbers.old.items ++ listed number) }
{
    if let Some(number) = number {
        numbers.push(number)?;
    }
    Ok(())
}
