// The labels of user extensions, and their codes.

ghost use Rattle.std.specs.Prelude.{◌≡◌, ◌≤◌, ◌&&◌, ◌||◌, not, ℕ, pos, int_div, List, Option, Some, None, IsSome, IsNone, IfSome, IfOk, IfErr, length, drop};
ghost use Rattle.std.specs.Bool.{Decides};
ghost use Rattle.rx_text.specs.Role.{NamedRole};
ghost use Rattle.rx_text.specs.declared.place.Place.{Place};
ghost use Rattle.geom.specs.CifCommands.{Extension};
ghost use Rattle.geom.specs.CifLabels.{NamesPad, IsLabel, label_words};
ghost use Rattle.geom.specs.CifDrawings.{CifState, CommandLeads};
ghost use Rattle.cif_codes.specs.Least.{IsLeastCode};
ghost use Rattle.cif_labels.specs.Labelled.{state_with};
ghost use Rattle.cif_labels.specs.Spots.{IsSpotOf, IsNearSpot};

use crate::pads::{is_word, pad_named};
use crate::spots::{Spot, spot_here};
use crate::words::word_here;
use geom::{CifCode, Label};
use rx_text::PadName;

/// The label that the text of a user extension is, where a definition is open or not; none where it names no pad. Takes a time in
/// proportion to the text.
///
/// # Errors
///
/// The least code that it meets: C7 where the label's point is off the grid, C8 where a coordinate is too great, C12 where it is
/// malformed or stands in a definition.
pub fn label_of(text: &[u8], is_open: bool) -> Result<Option<Label>, CifCode>
    ensures clear { IfOk result (λ found. (s : CifState) → Decides is_open (IsSome s.opening) → IsLeastCode s (Extension text.now) None) }
    ensures leads { IfOk result (λ found. (s : CifState) (place : Place) → Decides is_open (IsSome s.opening)
        → CommandLeads s place (Extension text.now) (state_with s found)) }
    ensures fault { IfErr result (λ code. (s : CifState) → Decides is_open (IsSome s.opening) → IsLeastCode s (Extension text.now) (Some code)) }
{
    match pad_here(text) {
        Some(found) => match placed(found.pad, spot_here(text, found.behind), is_open) {
            Ok(label) => Ok(Some(label)),
            Err(code) => Err(code),
        },
        None => Ok(None),
    }
}

/// A pad that a text names, and the place behind its name.
#[derive(Clone, Copy, Debug, PartialEq, Eq)]
struct NamedPad {
    pad: PadName,
    behind: usize,
}

/// The pad that the text names behind `94`.
fn pad_here(text: &[u8]) -> Option<NamedPad>
    ensures some { IfSome result (λ found. NamesPad text.now found.pad (label_words (drop found.behind text.now))) }
    ensures within { IfSome result (λ found. found.behind ≤ length text.now) }
    ensures none { IsNone result → (pad : NamedRole) (behind : List (List ℕ)) → NamesPad text.now pad behind → ⊥ }
{
    let (command, next) = word_here(text, 0);
    if !is_word(command, b"94") {
        return None;
    }
    let (name, behind) = word_here(text, next);
    match pad_named(name) {
        Some(pad) => Some(NamedPad { pad, behind }),
        None => None,
    }
}

/// The label of this pad by what stands behind its name, where a definition is open or not; or the least code that it meets.
fn placed(pad: PadName, spot: Spot, is_open: bool) -> Result<Label, CifCode>
    requires { IsNearSpot spot }
    ensures label { IfOk result (λ label. (text : List ℕ) (behind : List (List ℕ)) (s : CifState) → NamesPad text pad behind → IsSpotOf behind spot
        → Decides is_open (IsSome s.opening) → IsLeastCode s (Extension text) None × IsLabel text label) }
    ensures fault { IfErr result (λ code. (text : List ℕ) (behind : List (List ℕ)) (s : CifState) → NamesPad text pad behind → IsSpotOf behind spot
        → Decides is_open (IsSome s.opening) → IsLeastCode s (Extension text) (Some code)) }
{
    let off = spot.is_off();
    if is_off_grid(off, spot.named, is_open) {
        return Err(CifCode::C7);
    }
    if spot.is_great() {
        return Err(CifCode::C8);
    }
    if is_bad(off, is_open) {
        return Err(CifCode::C12);
    }
    match spot.point() {
        Some(point) => match spot.layer {
            Some(layer) => Ok(Label {
                pad,
                layer,
                x: lambdas(point.x),
                y: lambdas(point.y),
            }),
            None => Err(CifCode::C12),
        },
        None => Err(CifCode::C12),
    }
}

/// The point is off the grid, of a label whose words are all there, outside definitions.
fn is_off_grid(off: bool, named: bool, is_open: bool) -> bool
    ensures { result ≡ (off && named && not is_open) }
{
    off && named && !is_open
}

/// The point is off the grid, or a definition is open.
fn is_bad(off: bool, is_open: bool) -> bool
    ensures { result ≡ (off || is_open) }
{
    off || is_open
}

/// The units in one lambda.
const UNITS: i64 = 200;

/// So many units in lambda, rounded towards 0.
fn lambdas(units: i64) -> i64
    ensures { result ≡ int_div units (pos 200) }
{
    units / UNITS
}
