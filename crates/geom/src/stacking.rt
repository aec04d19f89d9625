// Boxes of one left and one right edge, joined where they meet or overlap.

ghost use Rattle.std.specs.Prelude.{◌≡◌, ◌↔◌, IsTrue, IfOk, OnOk, ◌⊎◌, ◌≤ℤ◌};
ghost use Rattle.geom.specs.Squares.{BoxShape, IsBox};
ghost use Rattle.geom.specs.Rows.{Among, Pairwise};
ghost use Rattle.geom.specs.Columns.{AreStacks, IsBefore, Reaches, Joins, Adds, over_both};

use crate::layer_box::Box2;
use rx_text::NoMemory;
use std::alloc::Global;

/// The boxes, with those of the same left and right edges joined where they meet or overlap, in order of their left
/// edges.
pub fn stacked(alloc: Global, mut boxes: Vec<Box2>) -> Result<Vec<Box2>, NoMemory>
    requires { (b : BoxShape) → Among boxes.items b → IsBox b }
    ensures { IfOk result (λ stacks. AreStacks boxes.items stacks.items) }
{
    sort_by_column(&mut boxes)?;
    let mut stacks = Vec::new(alloc);
    for b in &boxes {
        stack(&mut stacks, *b)?;
    }
    Ok(stacks)
}

/// Sorts boxes by their left, then by their right, then by their lower edges.
fn sort_by_column(boxes: &mut Vec<Box2>) -> Result<(), NoMemory>
    ensures same { (b : BoxShape) → Among boxes.new.items b ↔ Among boxes.old.items b }
    ensures sorted { OnOk result (Pairwise IsBefore boxes.new.items) }
{
    boxes.sort_by_key(|b| column(b))?;
    Ok(())
}

/// The left, the right and the lower edge of the box.
fn column(b: &Box2) -> (i64, i64, i64)
    ensures { result ≡ (b.now.x1, b.now.x2, b.now.y1) }
{
    (b.x1, b.x2, b.y1)
}

/// Joins the box to the last of the others, where that reaches it, or puts it behind them.
fn stack(stacks: &mut Vec<Box2>, next: Box2) -> Result<(), NoMemory>
    ensures { OnOk result
        (Joins stacks.old.items next stacks.new.items ⊎ Adds stacks.old.items next stacks.new.items) }
{
    match stacks.pop() {
        Some(last) if reaches(&last, &next) => stacks.push(joined(&last, &next))?,
        Some(last) => {
            stacks.push(last)?;
            stacks.push(next)?;
        }
        None => stacks.push(next)?,
    }
    Ok(())
}

/// The second box has the edges of the first to the left and right, and begins no higher than it ends.
fn reaches(last: &Box2, next: &Box2) -> bool
    ensures { IsTrue result ↔ Reaches last.now next.now }
{
    in_one_column(last, next) && begins_by(next, last.y2)
}

/// The boxes have the same left and the same right edges.
fn in_one_column(last: &Box2, next: &Box2) -> bool
    ensures { IsTrue result ↔ (last.now.x1 ≡ next.now.x1) × (last.now.x2 ≡ next.now.x2) }
{
    last.x1 == next.x1 && last.x2 == next.x2
}

/// The box begins at this row or below it.
fn begins_by(b: &Box2, row: i64) -> bool
    ensures { IsTrue result ↔ (b.now.y1 ≤ℤ row) }
{
    b.y1 <= row
}

/// The first box made as high as the second.
fn joined(last: &Box2, next: &Box2) -> Box2
    ensures { result ≡ over_both last.now next.now }
{
    Box2 {
        layer: last.layer,
        x1: last.x1,
        y1: last.y1,
        x2: last.x2,
        y2: last.y2.max(next.y2),
    }
}
