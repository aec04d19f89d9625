// Where calls put their symbols.

ghost use Rattle.std.specs.Prelude.{◌≡◌, ℕ, ◌+◌, ◌^◌, fold};
ghost use Rattle.geom.specs.Squares.{BoxShape};
ghost use Rattle.geom.specs.Rows.{Among};
ghost use Rattle.cif_drawing.specs.Placements.{step_box, IsStep, IsOrdered, placed, IsNear};

use crate::wide_point::WidePoint;
use geom::Orient;

/// A transformation of a call: a turn, and then a move in lambda, within 2^40 each way. `T x y` moves, `M X`, `M Y` and
/// `R a b` turn alone.
#[derive(Clone, Copy, Debug, PartialEq, Eq)]
pub struct Step {
    pub turn: Orient,
    pub x: i64,
    pub y: i64,
}

/// A turn, and then a move: all transformations of calls in one.
#[derive(Clone, Copy, Debug, PartialEq, Eq)]
pub struct Placement {
    pub turn: Orient,
    pub by: WidePoint,
}

/// Nothing turned.
const STRAIGHT: Orient = Orient {
    swap: false,
    neg_x: false,
    neg_y: false,
};

impl Placement {
    /// Nothing turned, nothing moved.
    pub fn still() -> Placement
        ensures near { IsNear 0 result.by }
        ensures placed { (b : BoxShape) → IsOrdered b → placed result b ≡ b }
    {
        Placement {
            turn: STRAIGHT,
            by: WidePoint { x: 0, y: 0 },
        }
    }

    /// The transformation alone.
    fn of_step(step: Step) -> Placement
        requires { IsStep step }
        ensures near { IsNear (2 ^ 40) result.by }
        ensures placed { (b : BoxShape) → placed result b ≡ step_box b step }
    {
        Placement {
            turn: step.turn,
            by: WidePoint {
                x: i128::from(step.x),
                y: i128::from(step.y),
            },
        }
    }

    /// The transformations, one after another.
    pub fn of(steps: &[Step]) -> Placement
        requires { (step : Step) → Among steps.now step → IsStep step }
        ensures near { IsNear (2 ^ 103) result.by }
        ensures placed { (b : BoxShape) → IsOrdered b → placed result b ≡ fold step_box b steps.now }
    {
        let mut placement = Placement::still();
        for step in steps {
            placement = placement.then(Placement::of_step(*step));
        }
        placement
    }

    /// First this one, then the next.
    pub fn then(self, next: Placement) -> Placement
        requires self_near { IsNear (2 ^ 120) self.by }
        requires next_near { IsNear (2 ^ 120) next.by }
        ensures near { (m n : ℕ) → IsNear m self.by → IsNear n next.by → IsNear (m + n) result.by }
        ensures placed { (b : BoxShape) → placed result b ≡ placed next (placed self b) }
    {
        Placement {
            turn: self.turn.then(next.turn),
            by: self.by.turned(next.turn).plus(next.by),
        }
    }
}
