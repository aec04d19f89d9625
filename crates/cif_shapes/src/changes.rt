// The columns at which a row of squares enters and leaves a polygon.

ghost use Rattle.std.specs.Prelude.{◌≡◌, ◌≤◌, ◌<ℤ◌, ◌≤ℤ◌, ℤ, length, take, ◌++◌, IfOk, OnOk};
ghost use Rattle.geom.specs.declared.point.Point.{Point};
ghost use Rattle.std.specs.List.Sorted.{IsPermutation};
ghost use Rattle.geom.specs.Squares.{IsSide};
ghost use Rattle.geom.specs.Turns.{IsReachable};
ghost use Rattle.geom.specs.Rows.{Among, Pairwise};
ghost use Rattle.cif_shapes.specs.Changes.{Rise, HaveChanges, AreChanges, ReachRow, Toggles, AreOddOnes, run_boxes};

use geom::{Box2, Layer, Point};
use rx_text::NoMemory;
use std::alloc::Global;

/// The columns at which the row changes between outside and inside, from left to right, of those of a lower row; and the
/// number of corners up to the row, of those up to the lower one.
pub fn raised(
    alloc: Global,
    columns: Vec<i64>,
    corners: &[Point],
    count: usize,
    row: i64,
) -> Result<(Vec<i64>, usize), NoMemory>
    requires rise { Rise corners.now }
    requires within { count ≤ length corners.now }
    requires have { HaveChanges (take count corners.now) columns.items }
    requires below { (p : Point) → Among (take count corners.now) p → p.y ≤ℤ row }
    ensures reach { IfOk result (λ r. ReachRow corners.now r.1 row) }
    ensures changes { IfOk result (λ r. AreChanges (take r.1 corners.now) r.0.items) }
{
    let mut columns = columns;
    let next = gather(&mut columns, corners, count, row)?;
    sort(&mut columns)?;
    Ok((odd_ones(alloc, &columns)?, next))
}

/// Adds the columns of the corners up to the row. Answers the number of corners up to it.
fn gather(
    columns: &mut Vec<i64>,
    corners: &[Point],
    count: usize,
    row: i64,
) -> Result<usize, NoMemory>
    requires rise { Rise corners.now }
    requires within { count ≤ length corners.now }
    requires have { HaveChanges (take count corners.now) columns.old.items }
    requires below { (p : Point) → Among (take count corners.now) p → p.y ≤ℤ row }
    ensures reach { IfOk result (λ next. ReachRow corners.now next row) }
    ensures have { IfOk result (λ next. HaveChanges (take next corners.now) columns.new.items) }
{
    let mut next = count;
    while next < corners.len() && corners[next].y <= row {
        columns.push(corners[next].x)?;
        next += 1;
    }
    Ok(next)
}

/// Sorts the numbers.
fn sort(numbers: &mut Vec<i64>) -> Result<(), NoMemory>
    ensures same { OnOk result (IsPermutation numbers.old.items numbers.new.items) }
    ensures sorted { OnOk result (Pairwise (λ low high. low ≤ℤ high) numbers.new.items) }
{
    numbers.sort()?;
    Ok(())
}

/// The numbers that occur an odd number of times, of numbers in order.
fn odd_ones(alloc: Global, sorted: &[i64]) -> Result<Vec<i64>, NoMemory>
    requires { Pairwise (λ low high. low ≤ℤ high) sorted.now }
    ensures { IfOk result (λ odd. AreOddOnes sorted.now odd.items) }
{
    let mut odd = Vec::new(alloc);
    for number in sorted {
        toggle(&mut odd, *number)?;
    }
    Ok(odd)
}

/// Takes the number away from the end, or puts it there where it is not.
fn toggle(odd: &mut Vec<i64>, number: i64) -> Result<(), NoMemory>
    ensures { OnOk result (Toggles odd.old.items number odd.new.items) }
{
    match odd.pop() {
        Some(last) if last == number => {}
        Some(last) => {
            odd.push(last)?;
            odd.push(number)?;
        }
        None => odd.push(number)?,
    }
    Ok(())
}

/// Adds the boxes between two heights, from each second column to the next.
pub fn add_runs(
    layer: Layer,
    low: i64,
    high: i64,
    columns: &[i64],
    boxes: &mut Vec<Box2>,
) -> Result<(), NoMemory>
    requires side { IsSide low high }
    requires rising { Pairwise (λ left right. left <ℤ right) columns.now }
    requires near { (x : ℤ) → Among columns.now x → IsReachable x }
    ensures { OnOk result (boxes.new.items ≡ boxes.old.items ++ run_boxes layer low high columns.now) }
{
    for at in 0..columns.len() / 2 {
        boxes.push(run(layer, low, high, columns[2 * at], columns[2 * at + 1]))?;
    }
    Ok(())
}

/// The box between two heights and two columns.
fn run(layer: Layer, low: i64, high: i64, left: i64, right: i64) -> Box2
    requires upward { IsSide low high }
    requires across { IsSide left right }
    ensures { result ≡ record { layer = layer; x1 = left; y1 = low; x2 = right; y2 = high } }
{
    Box2 {
        layer,
        x1: left,
        y1: low,
        x2: right,
        y2: high,
    }
}
