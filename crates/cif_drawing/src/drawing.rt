// What the commands of a text draw.

use crate::ink::{Stroke, Symbol};
use geom::Label;
use std::marker::Model;

/// What the commands of a CIF text draw: definitions, in which stand boxes and calls, as they were written; the commands outside
/// them, each with its place; and labels. Seen as the commands outside definitions, each with all its boxes, and the labels, in
/// the order of the text, in lambda.
#[derive(Drop)]
pub struct Drawing {
    pub(crate) symbols: Vec<Symbol>,
    pub(crate) strokes: Vec<Stroke>,
    pub(crate) labels: Vec<Label>,
}

impl Model for Drawing {
    ghost use Rattle.geom.specs.CifDrawings.{CifDrawing};
    ghost use Rattle.cif_drawing.specs.Inks.{drawing_of, IsDrawing};

    ghost Value = { CifDrawing };

    ghost view = { λ d. drawing_of d.symbols.items d.strokes.items d.labels.items };

    ghost invariant = { λ d. IsDrawing d.symbols.items d.strokes.items };
}
