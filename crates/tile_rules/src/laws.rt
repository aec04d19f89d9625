//! Why plans of tiles keep the lambda rules. Each law is the contract of a function that runs nothing.

ghost use Rattle.tile_rules.specs.KeptRules.{TilesKeepRules};

use micro_tiles::laws::{
    tiles_have_one_shape, tiles_have_strips, tiles_have_whole_transistors, tiles_have_wide_boxes,
    tiles_keep_inside,
};
use nmos_model::Drawn;
use stick_grid::laws::channels_are_transistors;

/// What covers the squares of a plan whose neighbouring tiles meet breaks no rule, whatever its labels are, and has no finding: widths,
/// gates, cuts and implant are those of single tiles, what is near in a layer is joined, and loads are long beside what pulls them down.
pub fn tiles_keep_rules<D: Drawn>()
    ensures { (drawn : D) → TilesKeepRules (D.covers drawn) }
{
    tiles_have_strips();
    tiles_have_wide_boxes();
    tiles_keep_inside();
    tiles_have_one_shape();
    tiles_have_whole_transistors();
    channels_are_transistors();
}
