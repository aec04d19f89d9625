// Points that may lie far outside what can be drawn.

ghost use Rattle.std.specs.Prelude.{◌≡◌, ℕ, ◌+◌, ◌^◌, neg_ℤ, ◌+ℤ◌, if◌then◌else◌};
ghost use Rattle.std.specs.Int.{int_min, int_max};
ghost use Rattle.geom.specs.Turns.{turned_x, turned_y, flipped};
ghost use Rattle.cif_drawing.specs.Placements.{IsNear};

use geom::Orient;

/// A point, or a distance in both directions, in lambda.
#[derive(Clone, Copy, Debug, PartialEq, Eq)]
pub struct WidePoint {
    pub x: i128,
    pub y: i128,
}

impl WidePoint {
    /// Where the point comes to.
    pub fn turned(self, turn: Orient) -> WidePoint
        requires { IsNear (2 ^ 125) self }
        ensures across { result.x ≡ turned_x turn self.x self.y }
        ensures upward { result.y ≡ turned_y turn self.x self.y }
        ensures near { (n : ℕ) → IsNear n self → IsNear n result }
    {
        self.swapped(turn).mirrored_x(turn).mirrored_y(turn)
    }

    /// With its coordinates exchanged, where the turn does so.
    fn swapped(self, turn: Orient) -> WidePoint
        ensures across { result.x ≡ (if turn.swap then self.y else self.x) }
        ensures upward { result.y ≡ (if turn.swap then self.x else self.y) }
        ensures near { (n : ℕ) → IsNear n self → IsNear n result }
    {
        if turn.swap {
            WidePoint {
                x: self.y,
                y: self.x,
            }
        } else {
            self
        }
    }

    /// With x negated, where the turn does so.
    fn mirrored_x(self, turn: Orient) -> WidePoint
        requires { IsNear (2 ^ 125) self }
        ensures across { result.x ≡ flipped turn.neg_x self.x }
        ensures upward { result.y ≡ self.y }
        ensures near { (n : ℕ) → IsNear n self → IsNear n result }
    {
        if turn.neg_x {
            WidePoint {
                x: -self.x,
                y: self.y,
            }
        } else {
            self
        }
    }

    /// With y negated, where the turn does so.
    fn mirrored_y(self, turn: Orient) -> WidePoint
        requires { IsNear (2 ^ 125) self }
        ensures across { result.x ≡ self.x }
        ensures upward { result.y ≡ flipped turn.neg_y self.y }
        ensures near { (n : ℕ) → IsNear n self → IsNear n result }
    {
        if turn.neg_y {
            WidePoint {
                x: self.x,
                y: -self.y,
            }
        } else {
            self
        }
    }

    /// The lower left corner of the least rectangle round both.
    pub fn least(self, other: WidePoint) -> WidePoint
        ensures across { result.x ≡ int_min self.x other.x }
        ensures upward { result.y ≡ int_min self.y other.y }
        ensures near { (n : ℕ) → IsNear n self → IsNear n other → IsNear n result }
    {
        WidePoint {
            x: self.x.min(other.x),
            y: self.y.min(other.y),
        }
    }

    /// The upper right corner of the least rectangle round both.
    pub fn greatest(self, other: WidePoint) -> WidePoint
        ensures across { result.x ≡ int_max self.x other.x }
        ensures upward { result.y ≡ int_max self.y other.y }
        ensures near { (n : ℕ) → IsNear n self → IsNear n other → IsNear n result }
    {
        WidePoint {
            x: self.x.max(other.x),
            y: self.y.max(other.y),
        }
    }

    /// Moved by a distance.
    pub fn plus(self, by: WidePoint) -> WidePoint
        requires self_near { IsNear (2 ^ 125) self }
        requires by_near { IsNear (2 ^ 125) by }
        ensures across { result.x ≡ self.x +ℤ by.x }
        ensures upward { result.y ≡ self.y +ℤ by.y }
        ensures near { (m n : ℕ) → IsNear m self → IsNear n by → IsNear (m + n) result }
    {
        WidePoint {
            x: self.x + by.x,
            y: self.y + by.y,
        }
    }
}
