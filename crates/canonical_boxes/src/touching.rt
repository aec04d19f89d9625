// Pairs of boxes of one set that share a stretch of a horizontal edge.

ghost use Rattle.std.specs.Prelude.{◌≡◌, ◌<◌, length, IfOk, OnOk};
ghost use Rattle.canonical_boxes.specs.Canonical.{IsCanonical};
ghost use Rattle.canonical_boxes.specs.Touches.{AreTouches, AddsTouches};

use crate::canonical::Canonical;
use crate::standing::begun_among;
use geom::Box2;
use rx_text::NoMemory;
use std::alloc::Global;

/// Two boxes of a set by their numbers: the upper one stands on the lower one, along a stretch of a horizontal edge.
#[derive(Clone, Copy, Debug, PartialEq, Eq)]
pub struct Touch {
    pub lower: usize,
    pub upper: usize,
}

/// The pairs of boxes of the set that touch. Takes n log n steps, and one for each pair.
///
/// # Errors
///
/// `NoMemory` where an allocation was refused.
pub fn touches(alloc: Global, set: &Canonical) -> Result<Vec<Touch>, NoMemory>
    ensures { IfOk result (λ found. AreTouches set.now found.items) }
{
    let boxes = set.boxes();
    let mut found = Vec::new(alloc);
    for lower in 0..boxes.len() {
        add_touches(boxes, lower, &mut found)?;
    }
    Ok(found)
}

/// Adds the pairs in which this box is the lower one.
fn add_touches(boxes: &[Box2], lower: usize, found: &mut Vec<Touch>) -> Result<(), NoMemory>
    requires canonical { IsCanonical boxes.now }
    requires within { lower < length boxes.now }
    ensures { OnOk result (AddsTouches boxes.now lower found.old.items found.new.items) }
{
    let b = boxes[lower];
    let (first, end) = begun_among(boxes, b.y2, b.x1, b.x2);
    for upper in first..end {
        found.push(Touch { lower, upper })?;
    }
    Ok(())
}
