// Commands that open and close definitions.

ghost use Rattle.std.specs.Prelude.{◌≡◌, ℕ, ◌^◌, ◌≤◌, true, List, Some, IsSome, IfOk, IfErr, OnOk};
ghost use Rattle.std.specs.Bool.{Decides};
ghost use Rattle.geom.specs.CifDrawings.{CifState, closed_state};
ghost use Rattle.geom.specs.CifCodes.{is_defined};
ghost use Rattle.cif_kinds.specs.declared.kinds.CommandKind.TheVariants as kind;
ghost use Rattle.cif_codes.specs.Scales.{ratio, IsScale};
ghost use Rattle.cif_codes.specs.Least.{IsLeastCode};
ghost use Rattle.cif_figures.specs.Figures.{CommandOf, command_of, Leads, symbol_in, IsNumberFor};
ghost use Rattle.cif_figures.specs.Openings.{opened_state, scale_by};

use cif_codes::{Scale, closing_code, opening_code};
use cif_kinds::parts_stand;
use cif_values::opening_here;
use geom::{CifCode, Point};

/// A definition: its number, and its scale.
#[derive(Clone, Copy, Debug, PartialEq, Eq)]
pub struct Definition {
    pub number: u64,
    pub scale: Scale,
}

/// The number of the definition that opens here, or one above 2^40 where it is above 2^40.
pub fn opened_number(text: &[u8], first: usize) -> u64
    requires { (end : ℕ) × CommandOf text.now first end kind.Opens }
    ensures { (end : ℕ) (c : CommandOf text.now first end kind.Opens) → IsNumberFor (symbol_in (command_of text.now first end kind.Opens c)) result }
{
    parts_stand();
    opening_here(text, first, GRID).number.unsigned_abs()
}

/// The definition that opens here, where its number was defined before or not, and a definition is open or not.
///
/// # Errors
///
/// The least code that it meets: C5 where it was, C6 where one is, C8 where a number is too great.
pub fn definition_opened(
    text: &[u8],
    first: usize,
    again: bool,
    nested: bool,
) -> Result<Definition, CifCode>
    requires { (end : ℕ) × CommandOf text.now first end kind.Opens }
    ensures number { IfOk result (λ found. (end : ℕ) (c : CommandOf text.now first end kind.Opens)
        → symbol_in (command_of text.now first end kind.Opens c) ≡ found.number) }
    ensures few { IfOk result (λ found. found.number ≤ 2 ^ 40) }
    ensures scale { IfOk result (λ found. IsScale found.scale) }
    ensures definition { IfOk result (λ found. (s : CifState) (end : ℕ) (c : CommandOf text.now first end kind.Opens)
        → Decides again (is_defined s (symbol_in (command_of text.now first end kind.Opens c)) ≡ true) → Decides nested (IsSome s.opening)
        → Leads s (command_of text.now first end kind.Opens c) (λ place. opened_state s found.number (ratio found.scale))) }
    ensures fault { IfErr result (λ code. (s : CifState) (end : ℕ) (c : CommandOf text.now first end kind.Opens)
        → Decides again (is_defined s (symbol_in (command_of text.now first end kind.Opens c)) ≡ true) → Decides nested (IsSome s.opening)
        → IsLeastCode s (command_of text.now first end kind.Opens c) (Some code)) }
{
    parts_stand();
    let opening = opening_here(text, first, GRID);
    match opening_code(opening, again, nested) {
        Some(code) => Err(code),
        None => Ok(Definition {
            number: opening.number.unsigned_abs(),
            scale: scale_of(opening.scale),
        }),
    }
}

/// What remainders are taken by: twice the units in one lambda.
const GRID: u64 = 400;

/// The scale of these numbers, or 1.
fn scale_of(written: Option<Point>) -> Scale
    ensures { ratio result ≡ scale_by written }
{
    match written {
        Some(numbers) => Scale {
            times: numbers.x.unsigned_abs(),
            per: numbers.y.unsigned_abs(),
        },
        None => Scale { times: 1, per: 1 },
    }
}

/// The close of a definition, where one is open or not.
///
/// # Errors
///
/// C6 where none is open.
pub fn definition_closed(is_open: bool) -> Result<(), CifCode>
    ensures closed { OnOk result ((s : CifState) (text : List ℕ) (first end : ℕ) (c : CommandOf text first end kind.Closes)
        → Decides is_open (IsSome s.opening) → Leads s (command_of text first end kind.Closes c) (λ place. closed_state s s.opening)) }
    ensures fault { IfErr result (λ code. (s : CifState) (text : List ℕ) (first end : ℕ) (c : CommandOf text first end kind.Closes)
        → Decides is_open (IsSome s.opening) → IsLeastCode s (command_of text first end kind.Closes c) (Some code)) }
{
    match closing_code(is_open) {
        Some(code) => Err(code),
        None => Ok(()),
    }
}
