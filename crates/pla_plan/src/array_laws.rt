//! What the arrays of specifications are. Each law is the contract of a function that runs nothing.

ghost use Rattle.pla_plan.specs.ArrayOf.{AutomataMakeArrays};
ghost use Rattle.pla_plan.specs.ArrayNetworks.{ArraysDrawRegisters, ArraysHaveSizes, ArraysRecognise};
ghost use Rattle.pla_plan.specs.Filled.{ArraysFill};

use crate::laws::{planes_are_modules, planes_are_plans};
use gate_matrix::laws::{columns_are_of_nets, parts_fill_rows};
use micro_tiles::laws::tiles_keep_inside;
use stick_grid::laws::modules_stand_for_networks;
use switch_net::{same_networks_agree, same_networks_run_alike};

/// The registers of a position automaton of at most 256 positions, with their columns, make a programmable logic array, whatever
/// the specification whose symbols it reads.
pub fn automata_make_arrays()
    ensures { AutomataMakeArrays }
{}

/// Its rows and columns are the formulas of the specification, by the number of its terms.
pub fn arrays_have_sizes()
    ensures { ArraysHaveSizes }
{}

/// The squares of this array lie in its columns and rows of tiles, and there are some in the first and in the last of each.
pub fn arrays_fill()
    ensures { ArraysFill }
{
    automata_make_arrays();
    planes_are_plans();
    columns_are_of_nets();
    parts_fill_rows();
    tiles_keep_inside();
}

/// The squares of this array, with a label on each pad, stand for a network that is the same as the switch network of the registers.
pub fn arrays_draw_registers()
    ensures { ArraysDrawRegisters }
{
    automata_make_arrays();
    planes_are_modules();
    columns_are_of_nets();
    modules_stand_for_networks();
    same_networks_agree();
}

/// Where the switch network of the registers has the specification's pads and recognises its languages, surely so, the squares of
/// the array with its labels stand for a network that does.
pub fn arrays_recognise()
    ensures { ArraysRecognise }
{
    automata_make_arrays();
    arrays_draw_registers();
    same_networks_agree();
    same_networks_run_alike();
}
