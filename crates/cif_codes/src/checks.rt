// What is wrong with the numbers and the distances of a command.

ghost use Rattle.std.specs.Prelude.{◌≡◌, ℤ, pos, ◌*ℤ◌, ◌≤◌, ◌^◌, List, [], ◌∷◌, ◌++◌};
ghost use Rattle.std.specs.Int.RustNames.{unsigned_abs};
ghost use Rattle.geom.specs.CifCommands.{CifScale};
ghost use Rattle.geom.specs.CifCodes.{SomeIs, IsTooGreat};
ghost use Rattle.cif_values.specs.Numbers.{AreAlike, StandsFor};
ghost use Rattle.cif_codes.specs.Scales.{ratio, grid_of, IsScale};
ghost use Rattle.cif_codes.specs.Checks.{Checked};

use crate::scale::{Scale, is_great};
use crate::truths::either;

/// What is wrong with the numbers and the distances of a command so far.
#[derive(Clone, Copy, Debug, PartialEq, Eq)]
pub struct Checks {
    /// A distance is off the grid after scaling.
    pub off: bool,
    /// A number is too great, or a distance too far off after scaling.
    pub far: bool,
}

impl Checks {
    /// Of no number and no distance.
    pub fn none() -> Checks
        ensures { (scale : CifScale) → Checked scale [] [] result }
    {
        Checks {
            off: false,
            far: false,
        }
    }

    /// With a number more, for which this one stands.
    pub fn with_number(self, scale: Scale, value: i64) -> Checks
        ensures { (numbers distances : List ℤ) (z : ℤ) → Checked (ratio scale) numbers distances self → StandsFor (grid_of scale) z value
            → Checked (ratio scale) (numbers ++ z ∷ []) distances result }
    {
        let great = is_great(value);
        let far = either(self.far, great);
        Checks { off: self.off, far }
    }

    /// With a distance more, for which twice a number of units stands.
    pub fn with_distance(self, scale: Scale, twice: i64) -> Checks
        requires scale { IsScale scale }
        requires near { unsigned_abs twice ≤ 2 ^ 55 }
        ensures { (numbers distances : List ℤ) (z : ℤ) → Checked (ratio scale) numbers distances self → AreAlike (grid_of scale) z twice
            → ((SomeIs IsTooGreat numbers → ⊥) → twice ≡ z) → Checked (ratio scale) numbers (distances ++ z ∷ []) result }
    {
        let is_off = scale.is_off_grid(twice);
        let is_far = scale.is_far_off(twice);
        let off = either(self.off, is_off);
        let far = either(self.far, is_far);
        Checks { off, far }
    }

    /// With a coordinate more, for which this one stands.
    pub fn with_coordinate(self, scale: Scale, value: i64) -> Checks
        requires scale { IsScale scale }
        requires near { unsigned_abs value ≤ 2 ^ 52 }
        ensures { (numbers distances : List ℤ) (z : ℤ) → Checked (ratio scale) numbers distances self → StandsFor (grid_of scale) z value
            → Checked (ratio scale) (numbers ++ z ∷ []) (distances ++ (pos 2 *ℤ z) ∷ []) result }
    {
        let numbers = self.with_number(scale, value);
        numbers.with_distance(scale, 2 * value)
    }
}
