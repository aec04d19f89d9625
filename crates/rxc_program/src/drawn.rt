// Arrays, layouts of trees and chips as drawings, of which the laws of drawings speak.

use block_grid::Blocks;
use geom::Chip;
use nmos_model::Drawn;
use pla_plan::Pla;
use rx_lang::Spec;
use star_normal::Tree;

/// An array by the squares of its tiles.
pub(crate) struct DrawnArray {
    array: Pla,
}

impl Drawn for DrawnArray {
    ghost use Rattle.pla_plan.specs.Planes.{planes_plan};
    ghost use Rattle.stick_grid.specs.Plans.{Covers};

    ghost covers = { λ drawn. Covers (planes_plan drawn.array) };
}

/// The layout of a tree by the squares of its tiles.
pub(crate) struct DrawnTree {
    blocks: Blocks,
    tree: Tree,
    spec: Spec,
}

impl Drawn for DrawnTree {
    ghost use Rattle.stick_grid.specs.Plans.{Covers};
    ghost use Rattle.tree_chip.specs.TreePlans.{tree_plan};

    ghost covers = { λ drawn. Covers (tree_plan drawn.blocks drawn.tree drawn.spec) };
}

/// A chip by the boxes that its text draws: those of its kinds at its calls.
pub(crate) struct WrittenChip {
    chip: Chip,
}

impl Drawn for WrittenChip {
    ghost use Rattle.geom.specs.Squares.{Covered};
    ghost use Rattle.cif_write.specs.WrittenChips.{chip_boxes};

    ghost covers = { λ written. Covered (chip_boxes written.chip) };
}
