// The codes of definitions.

ghost use Rattle.std.specs.Prelude.{◌≡◌, ℕ, true, Option, IsSome, flat_map};
ghost use Rattle.std.specs.Bool.{Decides};
ghost use Rattle.geom.specs.CifCommands.{CifScale, Opens, command_parts};
ghost use Rattle.geom.specs.CifDrawings.{CifState};
ghost use Rattle.geom.specs.CifCodes.{SomeIs, IsTooGreat, part_numbers, is_defined};
ghost use Rattle.cif_values.specs.Values.{OpeningStands};
ghost use Rattle.cif_codes.specs.Least.{IsLeastCode};

use crate::scale::is_great;
use crate::truths::either;
use crate::verdicts::opening_verdict_code;
use cif_values::Opening;
use geom::CifCode;

/// The least code that a definition meets that opens, where its number was defined before or not, and a definition is open or not.
pub fn opening_code(opening: Opening, again: bool, nested: bool) -> Option<CifCode>
    ensures { (s : CifState) (divisor n : ℕ) (scale : Option CifScale) → OpeningStands divisor n scale opening → Decides again (is_defined s n ≡ true)
        → Decides nested (IsSome s.opening) → IsLeastCode s (Opens n scale) result }
{
    opening_verdict_code(again, nested, has_great(opening))
}

/// A number is too great.
fn has_great(opening: Opening) -> bool
    ensures { (divisor n : ℕ) (scale : Option CifScale) → OpeningStands divisor n scale opening
        → Decides result (SomeIs IsTooGreat (flat_map part_numbers (command_parts (Opens n scale)))) }
{
    let great = is_great(opening.number);
    match opening.scale {
        Some(scale) => {
            let times = is_great(scale.x);
            let per = is_great(scale.y);
            let either_great = either(times, per);
            either(great, either_great)
        }
        None => great,
    }
}
