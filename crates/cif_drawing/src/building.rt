// Drawings, built command by command.

ghost use Rattle.std.specs.Prelude.{◌≡◌, ◌==◌, ◌+◌, ◌≤◌, List, ◌∷◌, [], length, if◌then◌else◌, is_some, Some, None, IsSome, IfOk, OnOk, OnErr, fold};
ghost use Rattle.geom.specs.Rows.{Among};
ghost use Rattle.geom.specs.CifShapes.{ArePolygonBoxes};
ghost use Rattle.geom.specs.Squares.{BoxShape};
ghost use Rattle.cif_shapes.specs.Polygons.{IsPolygon};
ghost use Rattle.cif_drawing.specs.Placements.{IsStep, stepped_boxes};
ghost use Rattle.cif_drawing.specs.Parts.{DrawingParts, blank_parts, part_of, part_boxes, part_chain, chain_or_none, opened_parts, closed_parts, drawn_parts, labelled_parts};
ghost use Rattle.cif_drawing.specs.Shapes.{kept_ink, kept_place};
ghost use Rattle.cif_drawing.specs.Building.{IsInked, IsAdded};

use crate::drawing::Drawing;
use crate::expanding::measure_kept;
use crate::ink::{Ink, Stroke, Symbol};
use crate::kept::{Call, Kept};
use crate::measure::Measure;
use crate::measuring::{joined, measure_boxes};
use crate::placement::{Placement, Step};
use crate::symbols::Symbols;
use crate::text_place::TextPlace;
use cif_shapes::polygon_boxes;
use geom::{Box2, Label, Layer, Point};
use rx_text::NoMemory;
use std::alloc::Global;
use std::marker::Model;

/// A drawing that is built command by command, in the order of the text. Seen as the closed definitions, the one that is open, the
/// commands outside definitions with their boxes, and the labels. After an error it is of no more use.
#[derive(Drop)]
pub struct DrawingBuilder {
    symbols: Symbols,
    opening: Option<Symbol>,
    strokes: Vec<Stroke>,
    labels: Vec<Label>,
}

impl Model for DrawingBuilder {
    ghost use Rattle.cif_drawing.specs.Parts.{DrawingParts};
    ghost use Rattle.cif_drawing.specs.Building.{parts_of, IsBuilding};

    ghost Value = { DrawingParts };

    ghost view = { λ b. parts_of b.symbols b.opening b.strokes.items b.labels.items };

    ghost invariant = { λ b. IsBuilding b.symbols b.opening b.strokes.items };
}

impl DrawingBuilder {
    /// Before all commands.
    pub fn new(alloc: Global) -> DrawingBuilder
        ensures { result ≡ blank_parts }
    {
        DrawingBuilder {
            symbols: Symbols::new(alloc),
            opening: None,
            strokes: Vec::new(alloc),
            labels: Vec::new(alloc),
        }
    }

    /// Whether a definition is open.
    pub fn is_open(&self) -> bool
        ensures { result ≡ is_some self.now.opening }
    {
        self.opening.is_some()
    }

    /// Whether a closed definition has this number.
    pub fn is_defined(&self, number: u64) -> bool
        ensures { result ≡ is_some (part_of self.now number) }
    {
        self.symbols.index_of(number).is_some()
    }

    /// How many calls, one within another, a call of the closed definition of this number makes: none where it draws nothing, and
    /// one more than those in it otherwise. `None` where no closed definition has the number.
    pub fn chain_of_call(&self, number: u64) -> Option<u64>
        ensures { result ≡ part_chain (part_of self.now number) }
    {
        let symbols = self.symbols.list();
        match self.symbols.index_of(number) {
            Some(index) => Some(chain_of_call(&symbols[index])),
            None => None,
        }
    }

    /// Opens a definition.
    pub fn open(&mut self, alloc: Global, number: u64)
        requires closed { self.old.opening ≡ None }
        requires undefined { part_of self.old number ≡ None }
        ensures { self.new ≡ opened_parts self.old number }
    {
        self.opening = Some(Symbol {
            number,
            inks: Vec::new(alloc),
            chain: 0,
            measure: None,
        });
    }

    /// Closes the definition that is open.
    ///
    /// # Errors
    ///
    /// `NoMemory` where an allocation was refused.
    pub fn close(&mut self) -> Result<(), NoMemory>
        ensures { OnOk result (self.new ≡ closed_parts self.old self.old.opening) }
    {
        if let Some(symbol) = self.opening.take() {
            self.symbols.push(symbol)?;
        }
        Ok(())
    }

    /// Draws a box, in the definition that is open or outside.
    ///
    /// # Errors
    ///
    /// `NoMemory` where an allocation was refused.
    pub fn add_box(&mut self, alloc: Global, place: TextPlace, b: Box2) -> Result<(), NoMemory>
        ensures { OnOk result (self.new ≡ drawn_parts self.old place (b ∷ []) 0 self.old.opening) }
    {
        let kept = Kept::single(alloc, place, b)?;
        let measure = Some(Measure::of(b));
        let opening = self.opening.take();
        self.opening = added(opening, &mut self.strokes, kept, measure, 0)?;
        Ok(())
    }

    /// Draws boxes by one command, as those of a wire.
    ///
    /// # Errors
    ///
    /// `NoMemory` where an allocation was refused.
    pub fn add_boxes(
        &mut self,
        alloc: Global,
        place: TextPlace,
        boxes: Vec<Box2>,
    ) -> Result<(), NoMemory>
        ensures { OnOk result (self.new ≡ drawn_parts self.old place boxes.items 0 self.old.opening) }
    {
        match measure_boxes(&boxes) {
            Some(measure) => {
                let kept = Kept::several(alloc, place, boxes)?;
                let opening = self.opening.take();
                self.opening = added(opening, &mut self.strokes, kept, Some(measure), 0)?;
                Ok(())
            }
            None => Ok(()),
        }
    }

    /// Draws a polygon with these points, in lambda.
    ///
    /// # Errors
    ///
    /// `NoMemory` where an allocation was refused.
    pub fn add_polygon(
        &mut self,
        alloc: Global,
        place: TextPlace,
        layer: Layer,
        points: &[Point],
    ) -> Result<(), NoMemory>
        requires { IsPolygon points.now }
        ensures { OnOk result ((boxes : List BoxShape) × ArePolygonBoxes layer points.now boxes
            × (self.new ≡ drawn_parts self.old place boxes 0 self.old.opening)) }
    {
        let boxes = polygon_boxes(alloc, layer, points)?;
        self.add_boxes(alloc, place, boxes)
    }

    /// Calls the closed definition of this number, with transformations that act from left to right.
    ///
    /// # Errors
    ///
    /// `NoMemory` where an allocation was refused.
    pub fn call(
        &mut self,
        alloc: Global,
        place: TextPlace,
        number: u64,
        steps: &[Step],
    ) -> Result<(), NoMemory>
        requires defined { IsSome (part_of self.old number) }
        requires short { chain_or_none (part_of self.old number) ≤ 64 }
        requires steps { (step : Step) → Among steps.now step → IsStep step }
        ensures { OnOk result (self.new ≡ drawn_parts self.old place (stepped_boxes steps.now (part_boxes (part_of self.old number)))
            (chain_or_none (part_of self.old number)) self.old.opening) }
    {
        match self.symbols.index_of(number) {
            Some(index) => {
                let symbols = self.symbols.list();
                let chain = chain_of_call(&symbols[index]);
                if chain == 0 {
                    return Ok(());
                }
                let call = Call {
                    symbol: index,
                    placement: Placement::of(steps),
                };
                let kept = Kept::called(alloc, place, call)?;
                let measure = measure_kept(symbols, &kept);
                let opening = self.opening.take();
                self.opening = added(opening, &mut self.strokes, kept, measure, chain)?;
                Ok(())
            }
            None => Ok(()),
        }
    }

    /// Puts a label.
    ///
    /// # Errors
    ///
    /// `NoMemory` where an allocation was refused.
    pub fn add_label(&mut self, label: Label) -> Result<(), NoMemory>
        ensures { OnOk result (self.new ≡ labelled_parts self.old label) }
    {
        self.labels.push(label)?;
        Ok(())
    }

    /// The drawing. A definition that is open is dropped.
    pub fn finish(self) -> Drawing
        ensures { result ≡ self.drawing }
    {
        Drawing {
            symbols: self.symbols.into_list(),
            strokes: self.strokes,
            labels: self.labels,
        }
    }
}

/// How many calls, one within another, a call of the symbol makes.
fn chain_of_call(symbol: &Symbol) -> u64
    requires { symbol.now.chain ≤ 64 }
    ensures { result ≡ (if length symbol.now.inks.items == 0 then 0 else symbol.now.chain + 1) }
{
    if symbol.inks.is_empty() {
        0
    } else {
        symbol.chain + 1
    }
}

/// The open definition with something more in it; or, where none is open, adds a stroke.
fn added(
    opening: Option<Symbol>,
    strokes: &mut Vec<Stroke>,
    kept: Kept,
    measure: Option<Measure>,
    chain: u64,
) -> Result<Option<Symbol>, NoMemory>
    ensures added { IfOk result (λ new. IsAdded opening strokes.old.items (kept_place kept) (kept_ink kept) measure chain new strokes.new.items) }
    ensures kept { OnErr result (strokes.new.items ≡ strokes.old.items) }
{
    match opening {
        Some(symbol) => Ok(Some(inked(symbol, Ink::new(kept), measure, chain)?)),
        None => {
            strokes.push(Stroke::new(kept))?;
            Ok(None)
        }
    }
}

/// The definition with something more in it.
fn inked(symbol: Symbol, ink: Ink, measure: Option<Measure>, chain: u64) -> Result<Symbol, NoMemory>
    ensures { IfOk result (λ new. IsInked symbol ink measure chain new) }
{
    let mut symbol = symbol;
    symbol.inks.push(ink)?;
    symbol.chain = symbol.chain.max(chain);
    symbol.measure = joined(symbol.measure, measure);
    Ok(symbol)
}
