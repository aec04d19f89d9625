// The codes of commands that set layers, and of those that close definitions.

ghost use Rattle.std.specs.Prelude.{◌≡◌, ℕ, List, IsSome};
ghost use Rattle.std.specs.Bool.{Decides};
ghost use Rattle.geom.specs.CifCommands.{SetsLayer, Closes};
ghost use Rattle.geom.specs.CifLabels.{layer_named};
ghost use Rattle.geom.specs.CifDrawings.{CifState};
ghost use Rattle.cif_codes.specs.Least.{IsLeastCode};

use crate::truths::is_bare;
use crate::verdicts::{closing_verdict_code, layer_verdict_code};
use geom::{CifCode, Layer};

/// The least code that a command meets that sets a layer, by the layer of its name.
pub fn layer_code(layer: Option<Layer>) -> Option<CifCode>
    ensures { (s : CifState) (name : List ℕ) → layer ≡ layer_named name → IsLeastCode s (SetsLayer name) result }
{
    layer_verdict_code(is_bare(layer))
}

/// The least code that the close of a definition meets, where one is open or not.
pub fn closing_code(is_open: bool) -> Option<CifCode>
    ensures { (s : CifState) → Decides is_open (IsSome s.opening) → IsLeastCode s Closes result }
{
    closing_verdict_code(!is_open)
}
