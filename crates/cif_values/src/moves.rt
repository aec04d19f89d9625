// The transformations of calls.

ghost use Rattle.std.specs.Prelude.{◌≡◌, ℕ, ◌==◌, ◌≤◌, ◌<◌, ◌*◌, ◌^◌, ◌∷◌, ◌++◌, List, length, codes, if◌then◌else◌};
ghost use Rattle.geom.specs.CifCommands.{CifMove, CifPart, Letters, move_parts};
ghost use Rattle.cif_values.specs.declared.moves.Move.TheVariants.{MirrorsX, MirrorsY};
ghost use Rattle.cif_values.specs.Parts.{PartsAt};
ghost use Rattle.cif_values.specs.Values.{MoveStands, IsNearMove};

use crate::next::{Next, next_here};
use crate::numbers::number_here;
use crate::runs::behind_letters;

/// A transformation of a call.
#[derive(Clone, Copy, Debug, PartialEq, Eq)]
pub enum Move {
    /// Moves by this vector.
    Translates(i64, i64),
    /// Negates x.
    MirrorsX,
    /// Negates y.
    MirrorsY,
    /// Turns the direction (1, 0) into this one.
    Rotates(i64, i64),
}

/// The transformation that stands here, with numbers that stand for its own by the divisor; and the place behind it and blanks.
pub fn move_here(text: &[u8], at: usize, divisor: u64) -> (Move, usize)
    requires place { at < length text.now }
    requires some { 0 < divisor }
    requires few { divisor ≤ 400 * 2 ^ 40 }
    ensures parts { (stop : ℕ) (move : CifMove) (parts : List CifPart) → PartsAt text.now at stop (move_parts move ++ parts)
        → MoveStands divisor move result.0 × PartsAt text.now result.1 stop parts }
    ensures near { IsNearMove result.0 }
    ensures later { at < result.1 }
    ensures within { result.1 ≤ length text.now }
{
    let letter = text[at];
    let rest = behind_letters(text, at, 1);
    if letter == b'M' {
        let next = behind_letters(text, rest, 1);
        return (mirror_here(text, rest), next);
    }
    let (x, middle) = number_here(text, rest, divisor);
    let (y, next) = number_here(text, middle, divisor);
    if letter == b'T' {
        (Move::Translates(x, y), next)
    } else {
        (Move::Rotates(x, y), next)
    }
}

/// The mirror of the letter that stands here.
fn mirror_here(text: &[u8], at: usize) -> Move
    ensures x { (stop : ℕ) (parts : List CifPart) → PartsAt text.now at stop (Letters (codes "X") ∷ parts) → result ≡ MirrorsX }
    ensures y { (stop : ℕ) (parts : List CifPart) → PartsAt text.now at stop (Letters (codes "Y") ∷ parts) → result ≡ MirrorsY }
    ensures near { IsNearMove result }
{
    match next_here(text, at) {
        Next::Letter(letter) => mirror_of(letter),
        Next::End => Move::MirrorsY,
        Next::Number => Move::MirrorsY,
    }
}

/// The mirror of this letter.
fn mirror_of(letter: u8) -> Move
    ensures { result ≡ if letter == 88 then MirrorsX else MirrorsY }
{
    if letter == b'X' {
        Move::MirrorsX
    } else {
        Move::MirrorsY
    }
}
