// Links between boxes of two layers that cuts join.

ghost use Rattle.std.specs.Prelude.{◌≡◌, ◌<◌, ◌+◌, ◌^◌, length, map, IfOk, IfSome, OnOk};
ghost use Rattle.canonical_boxes.specs.Canonical.{IsCanonical};
ghost use Rattle.nmos_extract.specs.Corners.{corner};
ghost use Rattle.nmos_extract.specs.Links.{AddsCuts, AddsFound};

use crate::links::{Link, link_of};
use canonical_boxes::laws::{boxes_are_numbered, boxes_stand_for_squares};
use canonical_boxes::{Canonical, locate};
use geom::{Box2, Point};
use rx_text::NoMemory;
use std::alloc::Global;

/// Adds links between the boxes of two sets over squares of `places`, which lie in both: one for each box of `places`, over its first square.
/// The node of the first box of the one is 0, and that of the other is `first`.
pub(crate) fn add_cuts(
    alloc: Global,
    places: &Canonical,
    one: &Canonical,
    other: &Canonical,
    first: u32,
    links: &mut Vec<Link>,
) -> Result<(), NoMemory>
    requires one { length one.now < 2 ^ 32 }
    requires other { first + length other.now < 2 ^ 32 }
    requires one_set { IsCanonical one.now }
    requires other_set { IsCanonical other.now }
    ensures { OnOk result (AddsCuts places.now one.now other.now 0 first links.old.items links.new.items) }
{
    boxes_are_numbered();
    boxes_stand_for_squares();
    let boxes = places.boxes();
    let squares = corners(alloc, boxes)?;
    let ones = locate(alloc, one, &squares)?;
    let others = locate(alloc, other, &squares)?;
    for at in 0..boxes.len() {
        let from = ones[at];
        let to = others[at];
        add_found(first, from, to, links)?;
    }
    Ok(())
}

/// Adds a link between the boxes of these numbers, where both are found.
fn add_found(
    first: u32,
    one: Option<usize>,
    other: Option<usize>,
    links: &mut Vec<Link>,
) -> Result<(), NoMemory>
    requires one { IfSome one (λ i. 0 + i < 2 ^ 32) }
    requires other { IfSome other (λ j. first + j < 2 ^ 32) }
    ensures { OnOk result (AddsFound first one other links.old.items links.new.items) }
{
    if let (Some(from), Some(to)) = (one, other) {
        links.push(link_of(0, first, from, to))?;
    }
    Ok(())
}

/// The first squares of the boxes.
fn corners(alloc: Global, boxes: &[Box2]) -> Result<Vec<Point>, NoMemory>
    ensures { IfOk result (λ squares. squares.items ≡ map corner boxes.now) }
{
    Ok(boxes.iter().map(|b| corner(b)).collect(alloc)?)
}

/// The first square of the box.
fn corner(b: &Box2) -> Point
    ensures { result ≡ corner b.now }
{
    Point { x: b.x1, y: b.y1 }
}
