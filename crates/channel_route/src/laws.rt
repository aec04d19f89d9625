//! Laws of drawn edges. Each is the contract of a function that does nothing.

ghost use Rattle.std.specs.Prelude.{◌≡◌, ◌+◌, ◌++◌, ◌∷◌, [], ℕ, Bool, true, false, IsSome, map, nat_lt};
ghost use Rattle.block_grid.specs.Lines.{col_of, row_of};
ghost use Rattle.block_grid.specs.Sheets.{Sheet, stands_at};
ghost use Rattle.channel_route.specs.Drawing.{drawn, ends_of, name_of, place_in};

use block_grid::laws::insertion_moves_nodes;

/// A heavy edge takes one row and one column, a light one two rows and one column. All other edges keep their ends, and the
/// nodes are those of before.
pub fn drawing_adds_one_edge()
    ensures heavy_rows { (s : Sheet) (parent child : ℕ) → (drawn s parent child true).rows ≡ s.rows + 1 }
    ensures light_rows { (s : Sheet) (parent child : ℕ) → (drawn s parent child false).rows ≡ s.rows + 2 }
    ensures cols { (s : Sheet) (parent child : ℕ) (heavy : Bool) → (drawn s parent child heavy).cols ≡ s.cols + 1 }
    ensures edges { (s : Sheet) (parent child : ℕ) (heavy : Bool)
        → map ends_of (drawn s parent child heavy).edges ≡ map ends_of s.edges ++ (parent, child, heavy) ∷ [] }
    ensures nodes { (s : Sheet) (parent child : ℕ) (heavy : Bool) → map name_of (drawn s parent child heavy).nodes ≡ map name_of s.nodes }
{}

/// Of two nodes the one that was further north is so still, and the one that was further west is so still.
pub fn drawing_keeps_the_order_of_nodes()
    ensures rows { (s : Sheet) (parent child : ℕ) (heavy : Bool) (v w : ℕ) → IsSome (stands_at s.nodes v) → IsSome (stands_at s.nodes w)
        → nat_lt (row_of (place_in (drawn s parent child heavy) v)) (row_of (place_in (drawn s parent child heavy) w))
        ≡ nat_lt (row_of (place_in s v)) (row_of (place_in s w)) }
    ensures cols { (s : Sheet) (parent child : ℕ) (heavy : Bool) (v w : ℕ) → IsSome (stands_at s.nodes v) → IsSome (stands_at s.nodes w)
        → nat_lt (col_of (place_in (drawn s parent child heavy) v)) (col_of (place_in (drawn s parent child heavy) w))
        ≡ nat_lt (col_of (place_in s v)) (col_of (place_in s w)) }
{
    insertion_moves_nodes();
}
