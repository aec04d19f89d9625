// All boxes of a drawing.

ghost use Rattle.std.specs.Prelude.{◌≡◌, ◌≤◌, true, [], length, IfOk, IfErr, OnOk};
ghost use Rattle.std.specs.List.{list_all};
ghost use Rattle.geom.specs.Squares.{BoxShape, IsBox};
ghost use Rattle.geom.specs.Rows.{Among};
ghost use Rattle.geom.specs.CifRefusals.{stroke_boxes, NoStrokeFault};
ghost use Rattle.cif_drawing.specs.Measures.{is_box};
ghost use Rattle.cif_drawing.specs.Inks.{IsInkOf, AreSymbols, AreStrokes, closed_symbols, cif_stroke, strokes_of};
ghost use Rattle.cif_drawing.specs.Flattening.{IsFlattenFault, IsCountOf, IsFaultOf};

use crate::drawing::Drawing;
use crate::expanding::{expand, measure_kept};
use crate::ink::{Stroke, Symbol};
use crate::measure::MOST_BOXES;
use crate::placement::Placement;
use geom::{Box2, CifCode, Label};
use rx_text::{NoMemory, Place};
use std::alloc::{AllocError, Global};
use thiserror::Error;

/// All boxes that a drawing draws, and its labels, in the order of the text, in lambda.
#[derive(Drop)]
pub struct Flat {
    pub boxes: Vec<Box2>,
    pub labels: Vec<Label>,
}

/// Why a drawing has no list of boxes.
#[derive(Clone, Copy, Debug, PartialEq, Eq, Error)]
pub enum FlattenFault {
    /// A command outside definitions draws a box with an edge too far from the origin, C8, or more boxes are drawn with it than
    /// may be, C13. It is the first such command in the text.
    #[error("a command draws boxes too far away or too many")]
    Fault { code: CifCode, place: Place },
    /// An allocation was refused.
    #[error("no memory")]
    NoMemory,
}

impl From<NoMemory> for FlattenFault {
    ghost use Rattle.cif_drawing.specs.declared.flattening.FlattenFault.TheVariants as fault;

    ghost from_gives = { λ _ e. e ≡ fault.NoMemory };

    fn from(_refused: NoMemory) -> FlattenFault {
        FlattenFault::NoMemory
    }
}

impl From<AllocError> for FlattenFault {
    ghost use Rattle.cif_drawing.specs.declared.flattening.FlattenFault.TheVariants as fault;

    ghost from_gives = { λ _ e. e ≡ fault.NoMemory };

    fn from(_refused: AllocError) -> FlattenFault {
        FlattenFault::NoMemory
    }
}

/// All boxes that the drawing draws, those of calls in turn, and its labels. The boxes are counted and their edges are known
/// before any is listed, so that a drawing of too many boxes takes no memory and no time for them.
///
/// # Errors
///
/// `Fault` at the first command outside definitions at which an edge is farther than 2^40 lambda from the origin, C8, or
/// more than 8,000,000 boxes are drawn up to it, C13; where both hold it is C8. `NoMemory` where an allocation was refused.
pub fn flatten(alloc: Global, drawing: &Drawing) -> Result<Flat, FlattenFault>
    ensures boxes { IfOk result (λ flat. flat.boxes.items ≡ stroke_boxes drawing.now.strokes) }
    ensures within { IfOk result (λ flat. (b : BoxShape) → Among flat.boxes.items b → IsBox b) }
    ensures labels { IfOk result (λ flat. flat.labels.items ≡ drawing.now.labels) }
    ensures clear { OnOk result (NoStrokeFault [] drawing.now.strokes) }
    ensures fault { IfErr result (λ fault. IsFlattenFault drawing.now.strokes fault) }
{
    let count = count_boxes(&drawing.symbols, &drawing.strokes)?;
    let boxes = list_boxes(alloc, &drawing.symbols, &drawing.strokes, count)?;
    let labels = Vec::from_slice(alloc, &drawing.labels)?;
    Ok(Flat { boxes, labels })
}

/// How many boxes the strokes draw, where no code stands at one.
fn count_boxes(symbols: &[Symbol], strokes: &[Stroke]) -> Result<usize, FlattenFault>
    requires symbols { AreSymbols [] symbols.now }
    requires strokes { AreStrokes (closed_symbols symbols.now) strokes.now }
    ensures count { IfOk result (λ count. count ≡ length (stroke_boxes (strokes_of symbols.now strokes.now))) }
    ensures clear { OnOk result (NoStrokeFault [] (strokes_of symbols.now strokes.now)) }
    ensures within { OnOk result (list_all is_box (stroke_boxes (strokes_of symbols.now strokes.now)) ≡ true) }
    ensures fault { IfErr result (λ fault. IsFlattenFault (strokes_of symbols.now strokes.now) fault) }
{
    let mut count = 0;
    for stroke in strokes {
        count += count_stroke(symbols, stroke, count)?;
    }
    Ok(count)
}

/// All boxes of the strokes, which are so many.
fn list_boxes(
    alloc: Global,
    symbols: &[Symbol],
    strokes: &[Stroke],
    count: usize,
) -> Result<Vec<Box2>, NoMemory>
    requires symbols { AreSymbols [] symbols.now }
    requires strokes { AreStrokes (closed_symbols symbols.now) strokes.now }
    requires within { list_all is_box (stroke_boxes (strokes_of symbols.now strokes.now)) ≡ true }
    ensures listed { IfOk result (λ boxes. boxes.items ≡ stroke_boxes (strokes_of symbols.now strokes.now)) }
    ensures within { IfOk result (λ boxes. (b : BoxShape) → Among boxes.items b → IsBox b) }
{
    let mut boxes = Vec::with_capacity(alloc, count)?;
    for stroke in strokes {
        expand(symbols, stroke.kept(), Placement::still(), &mut boxes)?;
    }
    Ok(boxes)
}

/// How many boxes a stroke draws behind so many others, where no code stands at it.
fn count_stroke(symbols: &[Symbol], stroke: &Stroke, before: usize) -> Result<usize, FlattenFault>
    requires symbols { AreSymbols [] symbols.now }
    requires stroke { IsInkOf (closed_symbols symbols.now) 64 stroke.now.ink }
    requires few { before ≤ 8000000 }
    ensures count { IfOk result (λ count. IsCountOf before (cif_stroke (closed_symbols symbols.now) stroke.now) count) }
    ensures fault { IfErr result (λ fault. IsFaultOf before (cif_stroke (closed_symbols symbols.now) stroke.now) fault) }
{
    let Some(measure) = measure_kept(symbols, stroke.kept()) else {
        return Ok(0);
    };
    if !measure.extent.is_box() {
        return Err(fault(CifCode::C8, stroke.kept().place()));
    }
    if MOST_BOXES - (before as u64) < measure.count {
        return Err(fault(CifCode::C13, stroke.kept().place()));
    }
    Ok(measure.count as usize)
}

/// The code at this place.
fn fault(code: CifCode, place: Place) -> FlattenFault
    ensures { result ≡ FlattenFault.Fault code place }
{
    FlattenFault::Fault { code, place }
}
