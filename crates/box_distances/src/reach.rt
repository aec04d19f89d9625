// The squares that squares of a set reach.

ghost use Rattle.std.specs.Prelude.{pos, neg_ℤ, ◌^◌, ◌≤◌, ◌≤ℤ◌, ◌+ℤ◌, ◌-ℤ◌, IfOk};
ghost use Rattle.box_distances.specs.Narrow.{AreReached, IsHigh, IsLow, IsReachedBox};

use canonical_boxes::Canonical;
use geom::layer_box::FARTHEST_EDGE;
use geom::{Box2, Layer};
use rx_text::NoMemory;
use std::alloc::Global;

/// The squares that squares of the set reach, of all that boxes can cover: each reaches `back` squares to the left and down, and `ahead` to
/// the right and up.
pub(crate) fn reached(
    alloc: Global,
    set: &Canonical,
    back: u32,
    ahead: u32,
) -> Result<Canonical, NoMemory>
    requires back { back ≤ 2 ^ 20 }
    requires ahead { ahead ≤ 2 ^ 20 }
    ensures { IfOk result (λ grown. AreReached (pos back) (pos ahead) set.now grown) }
{
    let boxes = grown(alloc, set.boxes(), back, ahead)?;
    let set = Canonical::cover(alloc, &boxes)?;
    Ok(set)
}

/// Boxes over the squares that squares of these reach, of all that boxes can cover.
pub(crate) fn grown(
    alloc: Global,
    boxes: &[Box2],
    back: u32,
    ahead: u32,
) -> Result<Vec<Box2>, NoMemory>
    requires back { back ≤ 2 ^ 20 }
    requires ahead { ahead ≤ 2 ^ 20 }
    ensures { IfOk result (λ grown. AreReached (pos back) (pos ahead) boxes.now grown.items) }
{
    let mut grown = Vec::new(alloc);
    for number in 0..boxes.len() {
        grown.push(grown_box(&boxes[number], back, ahead))?;
    }
    Ok(grown)
}

/// The box over the squares of the plane that squares of this one reach.
fn grown_box(b: &Box2, back: u32, ahead: u32) -> Box2
    requires back { back ≤ 2 ^ 20 }
    requires ahead { ahead ≤ 2 ^ 20 }
    ensures { IsReachedBox (pos back) (pos ahead) b.now result }
{
    Box2 {
        layer: Layer::Metal,
        x1: low(b.x1, back),
        y1: low(b.y1, back),
        x2: high(b.x2, ahead),
        y2: high(b.y2, ahead),
    }
}

/// The edge so far to the left or below, or the edge of the plane where that lies beyond it.
fn low(edge: i64, by: u32) -> i64
    requires first { neg_ℤ (pos (2 ^ 40)) ≤ℤ edge }
    requires last { edge ≤ℤ pos (2 ^ 40) }
    requires few { by ≤ 2 ^ 20 }
    ensures { IsLow (edge -ℤ pos by) result }
{
    let moved = edge - i64::from(by);
    if moved < -FARTHEST_EDGE {
        -FARTHEST_EDGE
    } else {
        moved
    }
}

/// The edge so far to the right or above, or the edge of the plane where that lies beyond it.
fn high(edge: i64, by: u32) -> i64
    requires first { neg_ℤ (pos (2 ^ 40)) ≤ℤ edge }
    requires last { edge ≤ℤ pos (2 ^ 40) }
    requires few { by ≤ 2 ^ 20 }
    ensures { IsHigh (edge +ℤ pos by) result }
{
    let moved = edge + i64::from(by);
    if FARTHEST_EDGE < moved {
        FARTHEST_EDGE
    } else {
        moved
    }
}
