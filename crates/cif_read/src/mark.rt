// Places in a text, from byte to byte.

ghost use Rattle.std.specs.Prelude.{◌≡◌, ◌≤◌, ◌<◌, ◌-◌, ◌^◌, length};
ghost use Rattle.cif_read.specs.Marks.{IsMark, place_of, next_mark};

use cif_drawing::TextPlace;

/// The number of a byte in a text, and its line and column.
#[derive(Clone, Copy, Debug, PartialEq, Eq)]
pub struct Mark {
    pub at: usize,
    pub line: u32,
    pub column: u32,
}

impl Mark {
    /// The first byte.
    pub fn start(text: &[u8]) -> Mark
        ensures start { result.at ≡ 0 }
        ensures mark { IsMark text.now result }
    {
        Mark {
            at: 0,
            line: 1,
            column: 1,
        }
    }

    /// Its line and column.
    pub fn place(self) -> TextPlace
        ensures { result ≡ place_of self }
    {
        TextPlace::new(self.line, self.column)
    }

    /// The byte of this number, which comes later. Takes a time in proportion to the bytes between.
    pub fn forward(self, text: &[u8], to: usize) -> Mark
        requires mark { IsMark text.now self }
        requires order { self.at ≤ to }
        requires within { to ≤ length text.now }
        requires few_bytes { length text.now < 2 ^ 32 - 1 }
        ensures at { result.at ≡ to }
        ensures mark { IsMark text.now result }
    {
        let mut mark = self;
        while mark.at < to {
            mark = mark.behind(text[mark.at]);
        }
        mark
    }

    /// Behind this byte.
    fn behind(self, byte: u8) -> Mark
        requires line { self.line < 2 ^ 32 - 1 }
        requires column { self.column < 2 ^ 32 - 1 }
        requires at { self.at < 2 ^ 64 - 1 }
        ensures { result ≡ next_mark self byte }
    {
        if byte == b'\n' {
            Mark {
                at: self.at + 1,
                line: self.line + 1,
                column: 1,
            }
        } else {
            Mark {
                at: self.at + 1,
                line: self.line,
                column: self.column + 1,
            }
        }
    }
}
