//! Laws of the light-first order. Each is the contract of a function that does nothing.

ghost use Rattle.std.specs.Prelude.{◌≡◌, ℕ, Bool, ◌+◌, ◌*◌, ◌<◌, ◌≤◌, ◌^◌, ◌==◌, Some, None, length, count_by, slice_index, sum_by};
ghost use Rattle.std.specs.List.{range_with_len};
ghost use Rattle.star_normal.specs.Tables.{TreeTable, IsTree};
ghost use Rattle.star_normal.specs.Sizes.{size_at};
ghost use Rattle.light_order.specs.Order.{child_of, heavy_of, light_first, light_of};
ghost use Rattle.light_order.specs.Crossings.{crossings, light_crossings, number_of};

use star_normal::laws::light_children_have_fewer_leaves;

/// In the light-first order each node stands once, and so does the frame, whose number is behind theirs. So whatever is summed
/// over the order is summed over the nodes and the frame.
pub fn each_node_stands_once()
    ensures once { (table : TreeTable) → IsTree table → (v : ℕ) → v < length table.nodes + 1 → count_by (λ x. x == v) (light_first table) ≡ 1 }
    ensures number { (table : TreeTable) → IsTree table → length (light_first table) ≡ length table.nodes + 1 }
    ensures sums { (table : TreeTable) → IsTree table → (value : ℕ → ℕ)
        → sum_by value (light_first table) ≡ sum_by value (range_with_len 0 (length table.nodes + 1)) }
    ensures inside { (table : TreeTable) → IsTree table → (i : ℕ) → i < length table.nodes + 1 → slice_index (light_first table) i ≤ length table.nodes }
    ensures numbers { (table : TreeTable) → IsTree table → (i : ℕ) → i < length table.nodes + 1
        → number_of (light_first table) (slice_index (light_first table) i) ≡ Some i }
{}

/// In each stretch of at most 4^j entries of the light-first order at most 2j edges with both ends there cross a place, and
/// at most one of them goes to a light child.
pub fn few_edges_cross()
    ensures crossings { (table : TreeTable) → IsTree table → (j from to place : ℕ) → 1 ≤ j → to ≤ from + 4 ^ j
        → crossings table (light_first table) from to place ≤ 2 * j }
    ensures light { (table : TreeTable) → IsTree table → (from to place : ℕ) → light_crossings table (light_first table) from to place ≤ 1 }
{
    light_children_have_fewer_leaves();
}

/// A light child stands right behind its parent, and a heavy child behind the light part, which has one node less than twice
/// its leaves, or else behind its parent.
pub fn children_stand_behind()
    ensures light { (table : TreeTable) → IsTree table → (v i c : ℕ) → number_of (light_first table) v ≡ Some i → light_of table v ≡ Some c
        → number_of (light_first table) c ≡ Some (i + 1) }
    ensures heavy { (table : TreeTable) → IsTree table → (v i l c : ℕ) → number_of (light_first table) v ≡ Some i → light_of table v ≡ Some l
        → heavy_of table v ≡ Some c → number_of (light_first table) c ≡ Some (i + 2 * size_at table.nodes l) }
    ensures alone { (table : TreeTable) → IsTree table → (v i c : ℕ) → number_of (light_first table) v ≡ Some i → light_of table v ≡ None
        → heavy_of table v ≡ Some c → number_of (light_first table) c ≡ Some (i + 1) }
{
    light_children_have_fewer_leaves();
}

/// A node is the child of one node at most, and in one role.
pub fn parents_are_one()
    ensures { (table : TreeTable) → IsTree table → (v w c : ℕ) (heavy heavy' : Bool) → child_of table heavy v ≡ Some c
        → child_of table heavy' w ≡ Some c → (v ≡ w) × (heavy ≡ heavy') }
{}
