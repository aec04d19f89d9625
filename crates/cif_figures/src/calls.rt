// Calls.

ghost use Rattle.std.specs.Prelude.{◌≡◌, ℕ, ◌≤◌, ◌<◌, false, pos, List, length, flat_map, Option, Some, None, IfOk, IfErr};
ghost use Rattle.std.specs.Bool.{Decides};
ghost use Rattle.geom.specs.Rows.{Among};
ghost use Rattle.geom.specs.Turns.{IsReachable};
ghost use Rattle.geom.specs.CifCommands.{CifMove, move_parts};
ghost use Rattle.geom.specs.CifCodes.{SomeIs, IsTooGreat, part_numbers};
ghost use Rattle.geom.specs.CifDrawings.{CifState, CifSymbol, scale_of, symbol_of, chain_of_call, rotation, drawn_in};
ghost use Rattle.cif_drawing.specs.declared.placement.Step.{Step};
ghost use Rattle.cif_drawing.specs.Placements.{IsStep, stepped_boxes};
ghost use Rattle.cif_drawing.specs.Parts.{part_boxes, part_chain, chain_or_none};
ghost use Rattle.cif_kinds.specs.declared.kinds.CommandKind.TheVariants as kind;
ghost use Rattle.cif_values.specs.Values.{MoveStands};
ghost use Rattle.cif_codes.specs.Scales.{ratio, IsScale};
ghost use Rattle.cif_figures.specs.Figures.{CommandOf, command_of, Leads, symbol_in, IsNumberFor, IsFaultOf};
ghost use Rattle.cif_figures.specs.Steps.{IsStepOf, AreStepsOf, AreClearMoves, IsDrawnMove};

use crate::fault::FigureFault;
use crate::points::scaled_point;
use cif_codes::{Scale, call_code, moves_checks, moves_stand};
use cif_drawing::Step;
use cif_kinds::parts_stand;
use cif_values::{Move, behind_letters, move_here, number_here};
use geom::{Orient, Point};
use rx_text::NoMemory;
use std::alloc::Global;

/// The number of the symbol that is called here, or one above 2^40 where it is above 2^40.
pub fn called_number(text: &[u8], first: usize) -> u64
    requires { (end : ℕ) × CommandOf text.now first end kind.Calls }
    ensures { (end : ℕ) (c : CommandOf text.now first end kind.Calls) → IsNumberFor (symbol_in (command_of text.now first end kind.Calls c)) result }
{
    parts_stand();
    let (number, _) = number_here(text, behind_letters(text, first, 1), GRID);
    number.unsigned_abs()
}

/// The transformations of the call that stands here, in a definition of this scale, where a call of its symbol makes so many calls,
/// one within another, or none defines it.
///
/// # Errors
///
/// The least code that it meets: C4 where none does, C7 where a translation is off the grid, C8 where a number or a translation is
/// too far from 0, C9 where a rotation is along no axis, C14 where there are more than 64 such calls. Or `NoMemory` where an
/// allocation was refused.
pub fn steps_called(
    alloc: Global,
    text: &[u8],
    first: usize,
    scale: Scale,
    chain: Option<u64>,
) -> Result<Vec<Step>, FigureFault>
    requires command { (end : ℕ) × CommandOf text.now first end kind.Calls }
    requires scale { IsScale scale }
    ensures known { IfOk result (λ steps. (calls : ℕ) × (chain ≡ Some calls) × (calls ≤ 64)) }
    ensures near { IfOk result (λ steps. (step : Step) → Among steps.items step → IsStep step) }
    ensures steps { IfOk result (λ steps. (s : CifState) (end : ℕ) (c : CommandOf text.now first end kind.Calls) → scale_of s.opening ≡ ratio scale
        → chain ≡ part_chain (symbol_of s (symbol_in (command_of text.now first end kind.Calls c)))
        → Leads s (command_of text.now first end kind.Calls c) (λ place.
        drawn_in s place (stepped_boxes steps.items (part_boxes (symbol_of s (symbol_in (command_of text.now first end kind.Calls c)))))
        (chain_or_none (symbol_of s (symbol_in (command_of text.now first end kind.Calls c)))) s.opening)) }
    ensures fault { IfErr result (λ fault. (s : CifState) (end : ℕ) (c : CommandOf text.now first end kind.Calls) → scale_of s.opening ≡ ratio scale
        → chain ≡ part_chain (symbol_of s (symbol_in (command_of text.now first end kind.Calls c)))
        → IsFaultOf s (command_of text.now first end kind.Calls c) fault) }
{
    parts_stand();
    let (number, from) = number_here(text, behind_letters(text, first, 1), scale.grid());
    let moves = moves_checks(text, from, scale);
    match call_code(scale, number, moves, is_unknown(chain), is_deep(chain)) {
        Some(code) => Err(FigureFault::Meets(code)),
        None => Ok(steps(alloc, text, from, scale)?),
    }
}

/// What remainders are taken by: twice the units in one lambda.
const GRID: u64 = 400;

/// The most calls, one within another.
const MOST_CALLS: u64 = 64;

/// No definition has the number.
fn is_unknown(chain: Option<u64>) -> bool
    ensures { (symbol : Option CifSymbol) → chain ≡ part_chain symbol → Decides result (symbol ≡ None) }
{
    match chain {
        Some(_) => false,
        None => true,
    }
}

/// Too many calls stand one within another.
fn is_deep(chain: Option<u64>) -> bool
    ensures { (symbol : Option CifSymbol) → chain ≡ part_chain symbol → Decides result (64 < chain_of_call symbol) }
{
    match chain {
        Some(calls) => MOST_CALLS < calls,
        None => false,
    }
}

/// The transformations that stand here up to the semicolon.
fn steps(alloc: Global, text: &[u8], at: usize, scale: Scale) -> Result<Vec<Step>, NoMemory>
    requires place { at ≤ length text.now }
    requires scale { IsScale scale }
    requires clear { (moves : List CifMove) × AreClearMoves text.now at (ratio scale) moves }
    ensures steps { IfOk result (λ found. (moves : List CifMove) → AreClearMoves text.now at (ratio scale) moves
        → AreStepsOf (ratio scale) moves found.items) }
    ensures near { IfOk result (λ found. (step : Step) → Among found.items step → IsStep step) }
{
    let mut steps = Vec::new(alloc);
    let mut from = at;
    while moves_stand(text, from) {
        let (step, next) = move_here(text, from, scale.grid());
        steps.push(step_of(scale, step))?;
        from = next;
    }
    Ok(steps)
}

/// The transformation as a turn and a move.
fn step_of(scale: Scale, written: Move) -> Step
    requires scale { IsScale scale }
    requires drawn { IsDrawnMove (ratio scale) written }
    ensures step { (divisor : ℕ) (move : CifMove) → MoveStands divisor move written
        → (SomeIs IsTooGreat (flat_map part_numbers (move_parts move)) → ⊥) → IsStepOf (ratio scale) move result }
    ensures near { IsStep result }
{
    match written {
        Move::Translates(x, y) => shifted(scaled_point(scale, Point { x, y })),
        Move::MirrorsX => turned(Orient {
            neg_x: true,
            ..STRAIGHT
        }),
        Move::MirrorsY => turned(Orient {
            neg_y: true,
            ..STRAIGHT
        }),
        Move::Rotates(a, b) => turned(rotation(a, b)),
    }
}

/// Nothing turned.
const STRAIGHT: Orient = Orient {
    swap: false,
    neg_x: false,
    neg_y: false,
};

/// The move alone.
fn shifted(by: Point) -> Step
    requires across { IsReachable by.x }
    requires upward { IsReachable by.y }
    ensures shift { result ≡ record { turn = record { swap = false; neg_x = false; neg_y = false }; x = by.x; y = by.y } }
    ensures near { IsStep result }
{
    Step {
        turn: STRAIGHT,
        x: by.x,
        y: by.y,
    }
}

/// The turn alone.
fn turned(turn: Orient) -> Step
    ensures turn { result ≡ record { turn = turn; x = pos 0; y = pos 0 } }
    ensures near { IsStep result }
{
    Step { turn, x: 0, y: 0 }
}

/// The turn of the direction (1, 0) into that of (a, b).
fn rotation(a: i64, b: i64) -> Orient
    ensures { result ≡ rotation a b }
{
    if a < 0 {
        return Orient {
            swap: false,
            neg_x: true,
            neg_y: true,
        };
    }
    if a > 0 {
        return STRAIGHT;
    }
    Orient {
        swap: true,
        neg_x: b >= 0,
        neg_y: b < 0,
    }
}
