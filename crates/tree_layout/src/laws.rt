//! Laws of squares of blocks. Each is the contract of a function that does nothing.

ghost use Rattle.std.specs.Prelude.{ℕ, ◌≤◌, List};
ghost use Rattle.rx_lang.specs.Squares.{side_bound};
ghost use Rattle.tree_layout.specs.declared.numbered.Entry.{Entry};
ghost use Rattle.tree_layout.specs.Drawing.{IsOrdered};
ghost use Rattle.tree_layout.specs.Squares.{square};

use channel_route::laws::drawing_adds_one_edge;

/// A square has no more rows and no more columns than its size allows.
pub fn squares_have_few_lines()
    ensures rows { (entries : List Entry) → IsOrdered entries → (j first : ℕ) → (square entries j first).rows ≤ side_bound j }
    ensures cols { (entries : List Entry) → IsOrdered entries → (j first : ℕ) → (square entries j first).cols ≤ side_bound j }
{
    drawing_adds_one_edge();
}
