// How the sides of a tree's layout bound its area.

ghost use Rattle.std.specs.Prelude.{ℕ, ◌*◌, ◌≤◌};
ghost use Rattle.rx_lang.specs.Specification.{Specification};
ghost use Rattle.rx_lang.specs.Squares.{IsLevel};
ghost use Rattle.report_text.specs.Sizes.{blocks, leaves, tree_area_bound, tree_side_bound, wires};

/// A layout within the bound of its sides is within the bound of its area, where there is a symbol in the expressions, and at least
/// one line, symbol and output each.
pub fn sides_bound_the_area()
    ensures { (spec : Specification) (level width height : ℕ) → IsLevel (blocks spec) level → 1 ≤ leaves spec → 3 ≤ wires spec
        → width ≤ tree_side_bound spec level → height ≤ tree_side_bound spec level → width * height ≤ tree_area_bound spec }
{}
