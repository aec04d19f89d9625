// Where commands stand.

ghost use Rattle.std.specs.Prelude.{◌≡◌};
ghost use Rattle.rx_text.specs.declared.place.Place.TheVariants.{Text};

use rx_text::Place;
use std::marker::Model;

/// A place in a text, in half the memory of a place in any input. Seen as the same place.
#[derive(Drop)]
pub struct TextPlace {
    pub line: u32,
    pub column: u32,
}

impl Model for TextPlace {
    ghost use Rattle.rx_text.specs.declared.place.Place.{Place};
    ghost use Rattle.rx_text.specs.declared.place.Place.TheVariants.{Text};

    ghost Value = { Place };

    ghost view = { λ place. Text place.line place.column };
}

impl TextPlace {
    /// The place in this line and column, both from 1, the column in bytes.
    pub fn new(line: u32, column: u32) -> TextPlace
        ensures { result ≡ Text line column }
    {
        TextPlace { line, column }
    }

    /// The place.
    pub fn place(&self) -> Place
        ensures { result ≡ self.now }
    {
        Place::Text {
            line: self.line,
            column: self.column,
        }
    }
}
