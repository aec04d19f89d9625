// What stands in a drawing.

ghost use Rattle.std.specs.Prelude.{◌≡◌};
ghost use Rattle.cif_drawing.specs.Shapes.{kept_ink, kept_place};

use crate::kept::Kept;
use crate::measure::Measure;
use std::marker::Model;

/// A command in a definition: seen as what it draws.
#[derive(Drop)]
pub struct Ink {
    kept: Kept,
}

impl Model for Ink {
    ghost use Rattle.cif_drawing.specs.Shapes.{InkShape, kept_ink};

    ghost Value = { InkShape };

    ghost view = { λ ink. kept_ink ink.kept };
}

impl Ink {
    /// The command.
    pub fn new(kept: Kept) -> Ink
        ensures { result ≡ kept_ink kept }
    {
        Ink { kept }
    }

    /// The command.
    pub fn kept(&self) -> &Kept
        ensures { kept_ink result.now ≡ self.now }
    {
        &self.kept
    }
}

/// A definition: its number, what stands in it, how many calls it makes, one within another, and its measure, which is none
/// where nothing is drawn.
#[derive(Drop)]
pub struct Symbol {
    pub number: u64,
    pub inks: Vec<Ink>,
    pub chain: u64,
    pub measure: Option<Measure>,
}

/// A command outside definitions: seen as its place, and what it draws.
#[derive(Drop)]
pub struct Stroke {
    kept: Kept,
}

impl Model for Stroke {
    ghost use Rattle.cif_drawing.specs.Shapes.{StrokeShape, kept_ink, kept_place};

    ghost Value = { StrokeShape };

    ghost view = { λ s. record { place = kept_place s.kept; ink = kept_ink s.kept } };
}

impl Stroke {
    /// The command.
    pub fn new(kept: Kept) -> Stroke
        ensures { result ≡ record { place = kept_place kept; ink = kept_ink kept } }
    {
        Stroke { kept }
    }

    /// The command.
    pub fn kept(&self) -> &Kept
        ensures place { kept_place result.now ≡ self.now.place }
        ensures ink { kept_ink result.now ≡ self.now.ink }
    {
        &self.kept
    }
}
