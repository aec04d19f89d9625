// The squares of boxes, and the lines of squares beside them, as rectangles.

ghost use Rattle.std.specs.Prelude.{◌≡◌, map, IfOk};
ghost use Rattle.nmos_extract.specs.Areas.{above, area_of, below, left_of, right_of};

use canonical_boxes::Area;
use geom::Box2;
use rx_text::NoMemory;
use std::alloc::Global;

/// The squares of each box.
pub(crate) fn areas_of(alloc: Global, boxes: &[Box2]) -> Result<Vec<Area>, NoMemory>
    ensures { IfOk result (λ areas. areas.items ≡ map area_of boxes.now) }
{
    Ok(boxes.iter().map(|b| area_of(b)).collect(alloc)?)
}

/// The line of squares above each box.
pub(crate) fn all_above(alloc: Global, boxes: &[Box2]) -> Result<Vec<Area>, NoMemory>
    ensures { IfOk result (λ areas. areas.items ≡ map above boxes.now) }
{
    Ok(boxes.iter().map(|b| above(b)).collect(alloc)?)
}

/// The line of squares below each box.
pub(crate) fn all_below(alloc: Global, boxes: &[Box2]) -> Result<Vec<Area>, NoMemory>
    ensures { IfOk result (λ areas. areas.items ≡ map below boxes.now) }
{
    Ok(boxes.iter().map(|b| below(b)).collect(alloc)?)
}

/// The line of squares to the left of each box.
pub(crate) fn all_left(alloc: Global, boxes: &[Box2]) -> Result<Vec<Area>, NoMemory>
    ensures { IfOk result (λ areas. areas.items ≡ map left_of boxes.now) }
{
    Ok(boxes.iter().map(|b| left_of(b)).collect(alloc)?)
}

/// The line of squares to the right of each box.
pub(crate) fn all_right(alloc: Global, boxes: &[Box2]) -> Result<Vec<Area>, NoMemory>
    ensures { IfOk result (λ areas. areas.items ≡ map right_of boxes.now) }
{
    Ok(boxes.iter().map(|b| right_of(b)).collect(alloc)?)
}

/// The squares of the box.
fn area_of(b: &Box2) -> Area
    ensures { result ≡ area_of b.now }
{
    Area {
        x1: b.x1,
        y1: b.y1,
        x2: b.x2,
        y2: b.y2,
    }
}

/// The line of squares above the box.
fn above(b: &Box2) -> Area
    ensures { result ≡ above b.now }
{
    Area {
        x1: b.x1,
        y1: b.y2,
        x2: b.x2,
        y2: b.y2 + 1,
    }
}

/// The line of squares below the box.
fn below(b: &Box2) -> Area
    ensures { result ≡ below b.now }
{
    Area {
        x1: b.x1,
        y1: b.y1 - 1,
        x2: b.x2,
        y2: b.y1,
    }
}

/// The line of squares to the left of the box.
fn left_of(b: &Box2) -> Area
    ensures { result ≡ left_of b.now }
{
    Area {
        x1: b.x1 - 1,
        y1: b.y1,
        x2: b.x1,
        y2: b.y2,
    }
}

/// The line of squares to the right of the box.
fn right_of(b: &Box2) -> Area
    ensures { result ≡ right_of b.now }
{
    Area {
        x1: b.x2,
        y1: b.y1,
        x2: b.x2 + 1,
        y2: b.y2,
    }
}
