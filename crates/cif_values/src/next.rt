// What comes next in a command.

ghost use Rattle.std.specs.Prelude.{ℕ, ◌≤◌, List, length};
ghost use Rattle.geom.specs.CifCommands.{CifPart};
ghost use Rattle.cif_values.specs.Parts.{PartsAt};
ghost use Rattle.cif_values.specs.Values.{ComesNext, NextIsInside};

use crate::runs::is_digit;

/// What comes next in a command.
#[derive(Clone, Copy, Debug, PartialEq, Eq)]
pub enum Next {
    /// Its semicolon.
    End,
    /// A number.
    Number,
    /// A letter.
    Letter(u8),
}

/// What stands here.
pub fn next_here(text: &[u8], at: usize) -> Next
    ensures next { (stop : ℕ) (parts : List CifPart) → PartsAt text.now at stop parts → ComesNext parts result }
    ensures inside { NextIsInside result text.now at }
{
    if at >= text.len() {
        return Next::End;
    }
    let byte = text[at];
    if byte == b';' {
        return Next::End;
    }
    if is_digit(byte) {
        return Next::Number;
    }
    if byte == b'-' {
        return Next::Number;
    }
    Next::Letter(byte)
}
