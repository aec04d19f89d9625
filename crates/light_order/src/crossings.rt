// Edges that cross a place of an order.

ghost use Rattle.std.specs.Prelude.{◌≡◌, ◌≤◌, cond, sum_by};
ghost use Rattle.star_normal.specs.Tables.{parts};
ghost use Rattle.light_order.specs.Crossings.{crosses, crossings, is_across, number_of};

use star_normal::{NodeKind, Tree};

/// The number of edges whose two ends stand among the entries of `order` from number `from` up to, and not with, number
/// `to`, one of them before number `place` and the other not. It takes no memory.
pub fn crossing(tree: &Tree, order: &[u32], from: u32, to: u32, place: u32) -> u32
    ensures { result ≡ crossings tree.now order.now from to place }
{
    let nodes = tree.nodes();
    let window = Window { from, to, place };
    let mut count = 0;
    for (parent, node) in nodes.iter().enumerate() {
        count += window.crossing_from(order, parent as u32, node.kind);
    }
    count + window.crosses(order, nodes.len() as u32, tree.root())
}

/// The number at which the node stands.
fn number_of(order: &[u32], node: u32) -> Option<usize>
    ensures { result ≡ number_of order.now node }
{
    order.iter().position(|other| *other == node)
}

/// Entries of an order from one number up to another, and a place among them.
#[derive(Clone, Copy, Drop)]
struct Window {
    from: u32,
    to: u32,
    place: u32,
}

impl Window {
    /// How many edges from a node of this kind cross.
    fn crossing_from(self, order: &[u32], parent: u32, kind: NodeKind) -> u32
        ensures few { result ≤ 2 }
        ensures number { result ≡ sum_by (λ child. cond (crosses order.now self.from self.to self.place parent child) 1 0) (parts kind) }
    {
        match kind {
            NodeKind::Leaf(_) => 0,
            NodeKind::Seq { left, right } | NodeKind::Alt { left, right } => {
                self.crosses(order, parent, left) + self.crosses(order, parent, right)
            }
        }
    }

    /// 1 where an edge between these nodes crosses, else 0.
    fn crosses(self, order: &[u32], parent: u32, child: u32) -> u32
        ensures one { result ≤ 1 }
        ensures number { result ≡ cond (crosses order.now self.from self.to self.place parent child) 1 0 }
    {
        match (number_of(order, parent), number_of(order, child)) {
            (Some(first), Some(second)) if self.is_across(first, second) => 1,
            _ => 0,
        }
    }

    /// Both numbers are in the window, on different sides of the place.
    fn is_across(self, first: usize, second: usize) -> bool
        ensures { result ≡ is_across self.from self.to self.place first second }
    {
        let from = self.from as usize;
        let to = self.to as usize;
        let place = self.place as usize;
        from <= first
            && first < to
            && from <= second
            && second < to
            && (first < place) != (second < place)
    }
}
