//! Parts have room in their blocks.

ghost use Rattle.node_cell.specs.Made.{PartsFitBlocks};

use cell_network::assembly_laws::{parts_have_shapes, trees_have_parts};

/// Each part of a tree fits into the rows and columns that its block has for it.
pub fn parts_fit_blocks()
    ensures { PartsFitBlocks }
{
    trees_have_parts();
    parts_have_shapes();
}
