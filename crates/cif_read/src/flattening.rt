// All boxes of a drawing.

ghost use Rattle.std.specs.Prelude.{◌≡◌, [], IfOk, IfErr, OnOk};
ghost use Rattle.geom.specs.Squares.{IsBox};
ghost use Rattle.geom.specs.Squares.{BoxShape};
ghost use Rattle.geom.specs.Rows.{Among};
ghost use Rattle.geom.specs.CifRefusals.{stroke_boxes, NoStrokeFault};
ghost use Rattle.cif_read.specs.Reading.{IsFlatFault};

use crate::faults::{CifFault, ReadCifFault};
use cif_drawing::{Drawing, Flat, FlattenFault};
use std::alloc::Global;

/// All boxes that the drawing draws, those of calls in turn, and its labels, in the order of the text. The boxes are counted
/// before any is listed, so that a drawing of too many boxes takes no memory and no time for them.
///
/// # Errors
///
/// `Fault` at the first command outside definitions at which an edge is farther than 2^40 lambda from the origin, C8, or
/// more than 8,000,000 boxes are drawn up to it, C13; where both hold it is C8. `NoMemory` where an allocation was refused.
pub fn flatten(alloc: Global, drawing: &Drawing) -> Result<Flat, ReadCifFault>
    ensures boxes { IfOk result (λ flat. flat.boxes.items ≡ stroke_boxes drawing.now.strokes) }
    ensures within { IfOk result (λ flat. (b : BoxShape) → Among flat.boxes.items b → IsBox b) }
    ensures labels { IfOk result (λ flat. flat.labels.items ≡ drawing.now.labels) }
    ensures clear { OnOk result (NoStrokeFault [] drawing.now.strokes) }
    ensures fault { IfErr result (λ fault. IsFlatFault drawing.now.strokes fault) }
{
    match cif_drawing::flatten(alloc, drawing) {
        Ok(flat) => Ok(flat),
        Err(FlattenFault::Fault { code, place }) => Err(ReadCifFault::Fault(CifFault {
            code,
            place,
        })),
        Err(FlattenFault::NoMemory) => Err(ReadCifFault::NoMemory),
    }
}
