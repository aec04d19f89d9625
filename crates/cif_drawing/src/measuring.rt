// Measures of boxes.

ghost use Rattle.std.specs.Prelude.{ℕ, ◌+◌, ◌*◌, ◌^◌, List, [], ◌∷◌, ◌++◌, map, IfSome};
ghost use Rattle.geom.specs.Squares.{BoxShape};
ghost use Rattle.cif_drawing.specs.Placements.{placed, IsNear};
ghost use Rattle.cif_drawing.specs.Measures.{Measures, IsNearExtent, IsMeasure};

use crate::measure::{Extent, MOST_BOXES, Measure};
use crate::placement::Placement;
use geom::Box2;

impl Measure {
    /// That of a box.
    pub fn of(b: Box2) -> Measure
        ensures measures { Measures result (b ∷ []) }
        ensures near { IsNearExtent 0 result.extent }
    {
        Measure {
            count: 1,
            extent: Extent::of(b),
        }
    }

    /// That of both boxes.
    fn with(self, other: Measure) -> Measure
        ensures measures { (xs ys : List BoxShape) → Measures self xs → Measures other ys → Measures result (xs ++ ys) }
        ensures near { (n : ℕ) → IsNearExtent n self.extent → IsNearExtent n other.extent → IsNearExtent n result.extent }
    {
        Measure {
            count: self.count.saturating_add(other.count).min(MOST_BOXES + 1),
            extent: self.extent.with(other.extent),
        }
    }

    /// That of the boxes at a call.
    fn placed(self, placement: Placement) -> Measure
        requires extent_near { IsNearExtent 64 self.extent }
        requires near { IsNear (2 ^ 103) placement.by }
        ensures measures { (boxes : List BoxShape) → Measures self boxes → Measures result (map (placed placement) boxes) }
        ensures near { (n : ℕ) → IsNearExtent n self.extent → IsNearExtent (n + 1) result.extent }
    {
        Measure {
            count: self.count,
            extent: self.extent.placed(placement),
        }
    }
}

/// That of both lists of boxes.
pub fn joined(one: Option<Measure>, other: Option<Measure>) -> Option<Measure>
    ensures { (n : ℕ) (xs ys : List BoxShape) → IsMeasure n one xs → IsMeasure n other ys → IsMeasure n result (xs ++ ys) }
{
    match (one, other) {
        (Some(one), Some(other)) => Some(one.with(other)),
        (Some(one), None) => Some(one),
        (None, other) => other,
    }
}

/// That of the boxes at a call.
pub fn called(measure: Option<Measure>, placement: Placement) -> Option<Measure>
    requires extent_near { IfSome measure (λ m. IsNearExtent 64 m.extent) }
    requires near { IsNear (2 ^ 103) placement.by }
    ensures { (n : ℕ) (boxes : List BoxShape) → IsMeasure n measure boxes
        → IsMeasure (n + 1) result (map (placed placement) boxes) }
{
    match measure {
        Some(measure) => Some(measure.placed(placement)),
        None => None,
    }
}

/// That of boxes.
pub fn measure_boxes(boxes: &[Box2]) -> Option<Measure>
    ensures { IsMeasure 0 result boxes.now }
{
    let mut measure = None;
    for b in boxes {
        measure = joined(measure, Some(Measure::of(*b)));
    }
    measure
}
