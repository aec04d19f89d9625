//! What blocks are. Each law is the contract of a function that runs nothing.

ghost use Rattle.node_cell.specs.BlockModules.{BlocksAreModules};

use cell_network::assembly_laws::{parts_have_shapes, trees_have_parts};
use gate_matrix::laws::{columns_are_of_nets, parts_are_modules, parts_fill_rows};
use stick_grid::laws::{coverings_are_modules, pieces_have_squares};
use wiring::laws::wirings_are_modules;

/// The tiles of each kind of block are a module: their nets are those of its bundles, or of the part of its node, the devices are the
/// part's, and the wires of the bundles lead out at the sides of the kind, each in its column or row. In the frame's block each net has
/// a spot of poly in the first row.
pub fn blocks_are_modules()
    ensures { BlocksAreModules }
{
    wirings_are_modules();
    coverings_are_modules();
    pieces_have_squares();
    columns_are_of_nets();
    parts_fill_rows();
    parts_are_modules();
    trees_have_parts();
    parts_have_shapes();
}
