// The codes of boxes.

ghost use Rattle.std.specs.Prelude.{◌≡◌, ℕ, ◌≤◌, ◌^◌, not, ℤ, pos, List, [], Option, flat_map};
ghost use Rattle.std.specs.Bool.{Decides};
ghost use Rattle.geom.specs.declared.point.Point.{Point};
ghost use Rattle.geom.specs.CifCommands.{CifCommand, DrawsBox, command_parts};
ghost use Rattle.geom.specs.CifDrawings.{CifState, scale_of, direction_or_east, centred_outline};
ghost use Rattle.geom.specs.CifShapes.{is_along_axis, is_zero};
ghost use Rattle.geom.specs.CifCodes.{SomeIs, IsTooGreat, MeetsCode, part_numbers, command_distances, outline_distances};
ghost use Rattle.geom.specs.declared.cif_code.CifCode.TheVariants.{C9};
ghost use Rattle.cif_values.specs.Numbers.{StandsFor};
ghost use Rattle.cif_values.specs.Values.{SidesStand, AreNearSides, PointStands, DirectionStands, IsNearNumber, IsNearPoint};
ghost use Rattle.cif_codes.specs.Scales.{ratio, grid_of, IsScale};
ghost use Rattle.cif_codes.specs.Checks.{Checked};
ghost use Rattle.cif_codes.specs.Least.{IsLeastCode};

use crate::checks::Checks;
use crate::scale::Scale;
use crate::truths::{either, is_along_axis, is_bare};
use crate::verdicts::shape_verdict_code;
use cif_values::Sides;
use geom::{CifCode, Layer, Point};

/// The least code that a box meets, where this layer is set, in a definition of this scale.
pub fn box_code(scale: Scale, layer: Option<Layer>, sides: Sides) -> Option<CifCode>
    requires scale { IsScale scale }
    requires near { AreNearSides sides }
    ensures { (s : CifState) (along across : ℕ) (centre : Point) (direction : Option Point) → s.layer ≡ layer → scale_of s.opening ≡ ratio scale
        → SidesStand (grid_of scale) along across centre direction sides → IsLeastCode s (DrawsBox along across centre direction) result }
{
    let checks = box_checks(scale, sides);
    let odd = is_odd(sides);
    let bare = is_bare(layer);
    shape_verdict_code(bare, checks.off, checks.far, odd, false)
}

/// A side is 0, or the direction is not along an axis.
fn is_odd(sides: Sides) -> bool
    ensures { (divisor along across : ℕ) (centre : Point) (direction : Option Point) (s : CifState) → SidesStand divisor along across centre direction sides
        → Decides result (MeetsCode C9 s (DrawsBox along across centre direction)) }
{
    let along = is_along(sides.direction);
    let narrow = either(sides.across == 0, !along);
    either(sides.along == 0, narrow)
}

/// The direction is along an axis.
fn is_along(direction: Option<Point>) -> bool
    ensures { (divisor : ℕ) (written : Option Point) → DirectionStands divisor written direction
        → result ≡ is_along_axis (direction_or_east written).x (direction_or_east written).y }
{
    match direction {
        Some(d) => is_along_axis(d.x, d.y),
        None => true,
    }
}

/// The direction is not along the x axis.
fn is_upright(direction: Option<Point>) -> bool
    ensures { (divisor : ℕ) (written : Option Point) → DirectionStands divisor written direction → result ≡ not (is_zero (direction_or_east written).y) }
{
    match direction {
        Some(d) => d.y != 0,
        None => false,
    }
}

/// What is wrong with the numbers and the edges.
fn box_checks(scale: Scale, sides: Sides) -> Checks
    requires scale { IsScale scale }
    requires near { AreNearSides sides }
    ensures { (along across : ℕ) (centre : Point) (direction : Option Point) → SidesStand (grid_of scale) along across centre direction sides
        → Checked (ratio scale) (flat_map part_numbers (command_parts (DrawsBox along across centre direction)))
        (command_distances (DrawsBox along across centre direction)) result }
{
    let numbers = number_checks(scale, sides);
    if !is_along(sides.direction) {
        return numbers;
    }
    if is_upright(sides.direction) {
        edge_checks(scale, numbers, sides.centre, sides.across, sides.along)
    } else {
        edge_checks(scale, numbers, sides.centre, sides.along, sides.across)
    }
}

/// What is wrong with the numbers.
fn number_checks(scale: Scale, sides: Sides) -> Checks
    ensures { (along across : ℕ) (centre : Point) (direction : Option Point) → SidesStand (grid_of scale) along across centre direction sides
        → Checked (ratio scale) (flat_map part_numbers (command_parts (DrawsBox along across centre direction))) [] result }
{
    let none = Checks::none();
    let one = none.with_number(scale, sides.along);
    let two = one.with_number(scale, sides.across);
    let three = two.with_number(scale, sides.centre.x);
    let four = three.with_number(scale, sides.centre.y);
    match sides.direction {
        Some(d) => {
            let five = four.with_number(scale, d.x);
            five.with_number(scale, d.y)
        }
        None => four,
    }
}

/// With the edges of a rectangle by its centre and its sides, from west to east and from south to north.
fn edge_checks(scale: Scale, checks: Checks, centre: Point, wide: i64, high: i64) -> Checks
    requires scale { IsScale scale }
    requires centre { IsNearPoint centre }
    requires wide { IsNearNumber wide }
    requires high { IsNearNumber high }
    ensures { (numbers : List ℤ) (c : Point) (w h : ℕ) → Checked (ratio scale) numbers [] checks → PointStands (grid_of scale) c centre
        → StandsFor (grid_of scale) (pos w) wide → StandsFor (grid_of scale) (pos h) high
        → ((SomeIs IsTooGreat numbers → ⊥) → (centre ≡ c) × (wide ≡ pos w) × (high ≡ pos h))
        → Checked (ratio scale) numbers (outline_distances (centred_outline c w h)) result }
{
    let left = checks.with_distance(scale, 2 * centre.x - wide);
    let bottom = left.with_distance(scale, 2 * centre.y - high);
    let right = bottom.with_distance(scale, 2 * centre.x + wide);
    right.with_distance(scale, 2 * centre.y + high)
}
