// The squares that two sets have, or one of them alone, and those that a set does not have.

ghost use Rattle.std.specs.Prelude.{◌≡◌, ◌↔◌, ℤ, IfOk, OnOk};
ghost use Rattle.geom.specs.Rows.{Over};
ghost use Rattle.canonical_boxes.specs.Plane.{InPlane};

use crate::canonical::Canonical;
use crate::gaps::gaps;
use geom::Box2;
use rx_text::NoMemory;
use std::alloc::Global;

/// The squares that are in both sets. Takes n log n steps in the boxes of both and of the result.
///
/// # Errors
///
/// `NoMemory` where an allocation was refused.
pub fn both(alloc: Global, a: &Canonical, b: &Canonical) -> Result<Canonical, NoMemory>
    ensures { IfOk result (λ set. (x y : ℤ) → Over set x y ↔ (Over a.now x y × Over b.now x y)) }
{
    let mut outside = gaps(alloc, a)?;
    let further = gaps(alloc, b)?;
    outside.extend_from_slice(&further)?;
    let set = rest(alloc, &outside)?;
    Ok(set)
}

/// The squares of the first set that the second does not have. Takes n log n steps in the boxes of both and of the result.
///
/// # Errors
///
/// `NoMemory` where an allocation was refused.
pub fn without(alloc: Global, a: &Canonical, b: &Canonical) -> Result<Canonical, NoMemory>
    ensures { IfOk result (λ set. (x y : ℤ) → Over set x y ↔ (Over a.now x y × (Over b.now x y → ⊥))) }
{
    let mut outside = gaps(alloc, a)?;
    let boxes = b.boxes();
    outside.extend_from_slice(boxes)?;
    let set = rest(alloc, &outside)?;
    Ok(set)
}

/// The squares that the set does not have, of all that boxes can cover. Takes n log n steps in the boxes of the set and of the result.
///
/// # Errors
///
/// `NoMemory` where an allocation was refused.
pub fn outside(alloc: Global, set: &Canonical) -> Result<Canonical, NoMemory>
    ensures squares { IfOk result (λ beyond. (x y : ℤ) → Over beyond x y ↔ (InPlane x y × (Over set.now x y → ⊥))) }
    ensures plane { OnOk result ((x y : ℤ) → Over set.now x y → InPlane x y) }
{
    let free = gaps(alloc, set)?;
    let beyond = Canonical::cover(alloc, &free)?;
    Ok(beyond)
}

/// The squares that none of the boxes cover, of all that boxes can cover.
fn rest(alloc: Global, boxes: &[Box2]) -> Result<Canonical, NoMemory>
    ensures { IfOk result (λ set. (x y : ℤ) → Over set x y ↔ (InPlane x y × (Over boxes.now x y → ⊥))) }
{
    let covered = Canonical::cover(alloc, boxes)?;
    let set = outside(alloc, &covered)?;
    Ok(set)
}
