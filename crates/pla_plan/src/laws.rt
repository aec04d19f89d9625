//! What programmable logic arrays are. Each law is the contract of a function that runs nothing.

ghost use Rattle.pla_plan.specs.Fits.{PlanesArePlans};
ghost use Rattle.pla_plan.specs.PlaneModules.{PlanesAreModules};
ghost use Rattle.pla_plan.specs.RowChips.{RowChipsCoverPlans, RowChipsHaveRows};

use gate_matrix::laws::{
    columns_are_of_nets, matrices_are_modules, parts_are_modules, parts_fill_rows,
};
use micro_tiles::laws::tiles_keep_inside;
use stick_grid::laws::{coverings_are_modules, mirrors_are_modules, plain_modules};

/// The tiles of an array make its network: each term and each sum is a gate with its load, and the part has its nets, its devices and
/// its ports, which lead out to the south.
pub fn planes_are_modules()
    ensures { PlanesAreModules }
{
    columns_are_of_nets();
    parts_fill_rows();
    matrices_are_modules();
    parts_are_modules();
    plain_modules();
    mirrors_are_modules();
    coverings_are_modules();
}

/// The tiles of an array are a plan: neighbours meet, inside its parts and at their seams.
pub fn planes_are_plans()
    ensures { PlanesArePlans }
{
    planes_are_modules();
}

/// A chip that draws each row of a plan has the squares of the plan.
pub fn row_chips_cover_plans()
    ensures { RowChipsCoverPlans }
{}

/// The boxes of its kinds are no higher than a row.
pub fn row_chips_have_rows()
    ensures { RowChipsHaveRows }
{
    tiles_keep_inside();
}
