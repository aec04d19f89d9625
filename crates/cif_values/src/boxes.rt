// The numbers of boxes.

ghost use Rattle.std.specs.Prelude.{ℕ, ◌≤◌, ◌<◌, ◌*◌, ◌^◌, Option, length};
ghost use Rattle.geom.specs.declared.point.Point.{Point};
ghost use Rattle.geom.specs.CifCommands.{DrawsBox, command_parts};
ghost use Rattle.cif_values.specs.Parts.{PartsAt};
ghost use Rattle.cif_values.specs.Values.{SidesStand, AreNearSides};

use crate::numbers::number_here;
use crate::points::{direction_here, point_here};
use crate::runs::behind_letters;
use geom::Point;

/// A box by its length along the direction and its width across it, by its centre and its direction.
#[derive(Clone, Copy, Debug, PartialEq, Eq)]
pub struct Sides {
    pub along: i64,
    pub across: i64,
    pub centre: Point,
    pub direction: Option<Point>,
}

/// The box of the command that stands here, in numbers that stand for its own by the divisor.
pub fn box_here(text: &[u8], at: usize, divisor: u64) -> Sides
    requires place { at ≤ length text.now }
    requires some { 0 < divisor }
    requires few { divisor ≤ 400 * 2 ^ 40 }
    ensures parts { (stop along across : ℕ) (centre : Point) (direction : Option Point)
        → PartsAt text.now at stop (command_parts (DrawsBox along across centre direction)) → SidesStand divisor along across centre direction result }
    ensures near { AreNearSides result }
{
    let (along, next) = number_here(text, behind_letters(text, at, 1), divisor);
    let (across, next) = number_here(text, next, divisor);
    let (centre, next) = point_here(text, next, divisor);
    Sides {
        along,
        across,
        centre,
        direction: direction_here(text, next, divisor),
    }
}
