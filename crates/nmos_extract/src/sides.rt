// The lines of squares beside boxes: whether a set has all of their squares, or none.

ghost use Rattle.std.specs.Prelude.{◌≡◌, ◌&&◌, ◌<◌, ℕ, length, IfOk};
ghost use Rattle.nmos_extract.specs.Sides.{AreFreeBeside, AreHeldBeside, HaveSize, direction, sides_at};

use crate::areas::{all_above, all_below, all_left, all_right};
use canonical_boxes::{Canonical, holds, holds_in_plane, outside};
use geom::Box2;
use rx_text::NoMemory;
use std::alloc::Global;

/// What there is of the lines above, below, to the left and to the right of boxes, each list in the order of the boxes.
#[derive(Drop)]
pub(crate) struct Lines {
    above: Vec<bool>,
    below: Vec<bool>,
    left: Vec<bool>,
    right: Vec<bool>,
}

/// What there is of the lines beside one box.
#[derive(Clone, Copy, Debug, PartialEq, Eq)]
pub(crate) struct Sides {
    pub above: bool,
    pub below: bool,
    pub left: bool,
    pub right: bool,
}

/// Whether the set has all squares of the lines beside each of the boxes.
pub(crate) fn held_beside(alloc: Global, set: &Canonical, boxes: &[Box2]) -> Result<Lines, NoMemory>
    ensures { IfOk result (AreHeldBeside set.now boxes.now) }
{
    let over = all_above(alloc, boxes)?;
    let above = holds(alloc, set, &over)?;
    let under = all_below(alloc, boxes)?;
    let below = holds(alloc, set, &under)?;
    let west = all_left(alloc, boxes)?;
    let left = holds(alloc, set, &west)?;
    let east = all_right(alloc, boxes)?;
    let right = holds(alloc, set, &east)?;
    Ok(Lines {
        above,
        below,
        left,
        right,
    })
}

/// Whether the set has none of the squares of the lines beside each of the boxes.
pub(crate) fn free_beside(alloc: Global, set: &Canonical, boxes: &[Box2]) -> Result<Lines, NoMemory>
    ensures { IfOk result (AreFreeBeside set.now boxes.now) }
{
    let beyond = outside(alloc, set)?;
    let over = all_above(alloc, boxes)?;
    let above = holds_in_plane(alloc, &beyond, &over)?;
    let under = all_below(alloc, boxes)?;
    let below = holds_in_plane(alloc, &beyond, &under)?;
    let west = all_left(alloc, boxes)?;
    let left = holds_in_plane(alloc, &beyond, &west)?;
    let east = all_right(alloc, boxes)?;
    let right = holds_in_plane(alloc, &beyond, &east)?;
    Ok(Lines {
        above,
        below,
        left,
        right,
    })
}

/// What there is of the lines beside the box of this number.
pub(crate) fn sides_at(lines: &Lines, number: usize) -> Sides
    requires { (n : ℕ) × HaveSize lines.now n × (number < n) }
    ensures { result ≡ sides_at lines.now number }
{
    Sides {
        above: lines.above[number],
        below: lines.below[number],
        left: lines.left[number],
        right: lines.right[number],
    }
}

/// Whether a box is upright, which has terminals above and below it, or lies with terminals to its left and right; `None` where it has
/// none of both.
pub(crate) fn direction(held: Sides, free: Sides) -> Option<bool>
    ensures { result ≡ direction held free }
{
    if held.above && held.below && free.left && free.right {
        Some(true)
    } else if held.left && held.right && free.above && free.below {
        Some(false)
    } else {
        None
    }
}
