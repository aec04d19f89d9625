// The squares of a set that no block of it holds.

ghost use Rattle.std.specs.Prelude.{◌≡◌, ℤ, pos, neg_ℤ, ◌^◌, ◌≤◌, ◌-ℤ◌, ◌≤ℤ◌, ◌<ℤ◌, int_lt, IfOk, OnOk};
ghost use Rattle.geom.specs.Rows.{Over};
ghost use Rattle.canonical_boxes.specs.Plane.{InPlane};
ghost use Rattle.box_distances.specs.Narrow.{AreThin, AreNarrow, AreBlocks, AreCorners, IsStrip, is_narrow};

use crate::reach::{grown, reached};
use canonical_boxes::{Canonical, both, outside, without};
use geom::layer_box::FARTHEST_EDGE;
use geom::{Box2, Layer};
use rx_text::NoMemory;
use std::alloc::Global;

/// The squares of the set that lie in no block of `side` by `side` squares of it, where `side` is at least 2. They lie in boxes that are narrower or lower than that,
/// and no square farther from these than a block decides. Takes n log n steps in the boxes of the set and of the result.
///
/// # Errors
///
/// `NoMemory` where an allocation was refused.
pub fn thin(alloc: Global, set: &Canonical, side: u32) -> Result<Canonical, NoMemory>
    requires some { 2 ≤ side }
    requires few { side ≤ 2 ^ 20 }
    ensures { IfOk result (λ thin. AreThin (pos side) set.now thin) }
{
    let narrow = narrow_boxes(alloc, set.boxes(), side)?;
    let narrow = Canonical::cover(alloc, &narrow)?;
    let last = side - 1;
    let around = reached(alloc, &narrow, last, last)?;
    let part = both(alloc, set, &around)?;
    let blocks = blocks_of(alloc, &part, last)?;
    let thin = without(alloc, &narrow, &blocks)?;
    Ok(thin)
}

/// The boxes that are narrower or lower than a block.
fn narrow_boxes(alloc: Global, boxes: &[Box2], side: u32) -> Result<Vec<Box2>, NoMemory>
    ensures { IfOk result (λ narrow. AreNarrow (pos side) boxes.now narrow.items) }
{
    let mut narrow = Vec::new(alloc);
    for b in boxes {
        if is_narrow(b, side) {
            narrow.push(*b)?;
        }
    }
    Ok(narrow)
}

/// The box is narrower or lower than a block.
fn is_narrow(b: &Box2, side: u32) -> bool
    ensures { result ≡ is_narrow (pos side) b.now }
{
    is_short(b.x1, b.x2, side) || is_short(b.y1, b.y2, side)
}

/// The edges are less apart than that.
fn is_short(from: i64, to: i64, side: u32) -> bool
    requires first { neg_ℤ (pos (2 ^ 40)) ≤ℤ from }
    requires order { from <ℤ to }
    requires last { to ≤ℤ pos (2 ^ 40) }
    ensures { result ≡ int_lt (to -ℤ from) (pos side) }
{
    to - from < i64::from(side)
}

/// The squares of the blocks of the set that reach so many squares from their lower left corners.
fn blocks_of(alloc: Global, set: &Canonical, last: u32) -> Result<Canonical, NoMemory>
    requires some { 1 ≤ last }
    requires few { last ≤ 2 ^ 20 }
    ensures { IfOk result (λ blocks. AreBlocks (pos last) set.now blocks) }
{
    let corners = corners_of(alloc, set, last)?;
    let blocks = reached(alloc, &corners, 0, last)?;
    Ok(blocks)
}

/// The lower left corners of the blocks of the set: no square that the set does not have, and none beyond the plane, lies in them.
fn corners_of(alloc: Global, set: &Canonical, last: u32) -> Result<Canonical, NoMemory>
    requires some { 1 ≤ last }
    requires few { last ≤ 2 ^ 20 }
    ensures corners { IfOk result (λ corners. AreCorners (pos last) set.now corners) }
    ensures plane { OnOk result ((x y : ℤ) → Over set.now x y → InPlane x y) }
{
    let beyond = outside(alloc, set)?;
    let mut others = grown(alloc, beyond.boxes(), last, 0)?;
    let first = FARTHEST_EDGE - i64::from(last);
    others.push(strip(first, -FARTHEST_EDGE))?;
    others.push(strip(-FARTHEST_EDGE, first))?;
    let others = Canonical::cover(alloc, &others)?;
    let corners = without(alloc, set, &others)?;
    Ok(corners)
}

/// The squares of the plane from this column and this row on.
fn strip(x1: i64, y1: i64) -> Box2
    requires left { neg_ℤ (pos (2 ^ 40)) ≤ℤ x1 }
    requires right { x1 <ℤ pos (2 ^ 40) }
    requires bottom { neg_ℤ (pos (2 ^ 40)) ≤ℤ y1 }
    requires top { y1 <ℤ pos (2 ^ 40) }
    ensures { IsStrip x1 y1 result }
{
    Box2 {
        layer: Layer::Metal,
        x1,
        y1,
        x2: FARTHEST_EDGE,
        y2: FARTHEST_EDGE,
    }
}
