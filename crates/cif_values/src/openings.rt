// The numbers of definitions.

ghost use Rattle.std.specs.Prelude.{ℕ, ◌≤◌, ◌<◌, ◌*◌, ◌^◌, Option, length};
ghost use Rattle.geom.specs.CifCommands.{CifScale, Opens, command_parts, scale_parts};
ghost use Rattle.cif_values.specs.Parts.{PartsAt};
ghost use Rattle.cif_values.specs.Values.{OpeningStands, ScaleStands};

use crate::next::{Next, next_here};
use crate::numbers::number_here;
use crate::runs::behind_letters;
use geom::Point;

/// The number of a definition, and its scale a/b as (a, b), if it has one.
#[derive(Clone, Copy, Debug, PartialEq, Eq)]
pub struct Opening {
    pub number: i64,
    pub scale: Option<Point>,
}

/// The definition of the command that stands here, in numbers that stand for its own by the divisor.
pub fn opening_here(text: &[u8], at: usize, divisor: u64) -> Opening
    requires place { at ≤ length text.now }
    requires some { 0 < divisor }
    requires few { divisor ≤ 400 * 2 ^ 40 }
    ensures { (stop n : ℕ) (scale : Option CifScale) → PartsAt text.now at stop (command_parts (Opens n scale)) → OpeningStands divisor n scale result }
{
    let (number, next) = number_here(text, behind_letters(text, at, 2), divisor);
    Opening {
        number,
        scale: scale_here(text, next, divisor),
    }
}

/// The scale that stands here, if one does, in numbers that stand for its own by the divisor.
fn scale_here(text: &[u8], at: usize, divisor: u64) -> Option<Point>
    requires place { at ≤ length text.now }
    requires some { 0 < divisor }
    requires few { divisor ≤ 400 * 2 ^ 40 }
    ensures { (stop : ℕ) (scale : Option CifScale) → PartsAt text.now at stop (scale_parts scale) → ScaleStands divisor scale result }
{
    match next_here(text, at) {
        Next::Number => {
            let (x, middle) = number_here(text, at, divisor);
            let (y, _) = number_here(text, middle, divisor);
            Some(Point { x, y })
        }
        _ => None,
    }
}
