//! Worked examples of gate matrices. Each is the contract of a function that runs nothing.

ghost use Rattle.gate_matrix.specs.Examples.{EndedGateIsModule, OpenGateIsModule};

use crate::laws::matrices_are_modules;
use stick_grid::laws::{coverings_are_modules, plain_modules};

/// A gate whose output goes on to the east is a module of four nets, with a load and a pass device.
pub fn open_gate_is_module()
    ensures { OpenGateIsModule }
{
    matrices_are_modules();
}

/// The gate above a row in which the poly of its nets ends is a module of the same devices, by the modules that cover it.
pub fn ended_gate_is_module()
    ensures { EndedGateIsModule }
{
    open_gate_is_module();
    plain_modules();
    coverings_are_modules();
}
