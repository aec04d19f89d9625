// Labels.

ghost use Rattle.std.specs.Prelude.{ℕ, Some, IsSome, IfOk, IfErr};
ghost use Rattle.std.specs.Bool.{Decides};
ghost use Rattle.geom.specs.CifDrawings.{CifState};
ghost use Rattle.cif_kinds.specs.declared.kinds.CommandKind.TheVariants as kind;
ghost use Rattle.cif_codes.specs.Least.{IsLeastCode};
ghost use Rattle.cif_labels.specs.Labelled.{state_with};
ghost use Rattle.cif_figures.specs.Figures.{CommandOf, command_of, Leads};

use cif_kinds::extensions_stand;
use cif_labels::label_of;
use geom::{CifCode, Label};

/// The label of the user extension that stands here up to the place behind its semicolon, where a definition is open or not; none
/// where it names no pad.
///
/// # Errors
///
/// The least code that it meets: C7 where the label's point is off the grid, C8 where a coordinate is too great, C12 where it is
/// malformed or stands in a definition.
pub fn label_put(
    text: &[u8],
    first: usize,
    end: usize,
    is_open: bool,
) -> Result<Option<Label>, CifCode>
    requires { CommandOf text.now first end kind.Extension }
    ensures label { IfOk result (λ found. (s : CifState) (c : CommandOf text.now first end kind.Extension) → Decides is_open (IsSome s.opening)
        → Leads s (command_of text.now first end kind.Extension c) (λ place. state_with s found)) }
    ensures fault { IfErr result (λ code. (s : CifState) (c : CommandOf text.now first end kind.Extension) → Decides is_open (IsSome s.opening)
        → IsLeastCode s (command_of text.now first end kind.Extension c) (Some code)) }
{
    extensions_stand();
    label_of(&text[first..end - 1], is_open)
}
