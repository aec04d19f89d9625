//! What gate matrices are. Each law is the contract of a function that runs nothing.

ghost use Rattle.gate_matrix.specs.Columns.{ColumnsAreOfNets};
ghost use Rattle.gate_matrix.specs.Drawn.{PartsFillRows};
ghost use Rattle.gate_matrix.specs.Matrices.{MatricesArePlans};
ghost use Rattle.gate_matrix.specs.MatrixNets.{MatricesAreModules};
ghost use Rattle.gate_matrix.specs.Modules.{PartsAreModules};

use micro_tiles::laws::basic_tiles_are_named;
use stick_grid::laws::names_are_nets;

/// Rows that lead on to one another, over columns for nets, make a plan of tiles.
pub fn matrices_are_plans()
    ensures { MatricesArePlans }
{
    basic_tiles_are_named();
}

/// Such a matrix whose rows have their nets is a module: each net of its tiles is joined with all that has its name, its devices are
/// those between its rows, and the poly of its nets and of rows that go on is all that leads out.
pub fn matrices_are_modules()
    ensures { MatricesAreModules }
{
    matrices_are_plans();
    names_are_nets();
}

/// Each net of a matrix has its poly in one column.
pub fn columns_are_of_nets()
    ensures { ColumnsAreOfNets }
{}

/// A part that fits has as many rows as it is drawn in.
pub fn parts_fill_rows()
    ensures { PartsFillRows }
{}

/// The tiles of a part make its network: each of their nets is a net of the part, joined with all that has its name, the devices
/// are the part's, and each net's poly leads out in its column, to the north and to the south.
pub fn parts_are_modules()
    ensures { PartsAreModules }
{
    matrices_are_modules();
}
