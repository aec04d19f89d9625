// Pairs of boxes that come near each other.

ghost use Rattle.std.specs.Prelude.{◌≡◌, ◌≤◌, ◌≤ℤ◌, ◌+ℤ◌, ◌-ℤ◌, pos, neg_ℤ, ◌^◌, map, IfOk, OnOk};
ghost use Rattle.canonical_boxes.specs.Canonical.{IsCanonical};
ghost use Rattle.box_distances.specs.Near.{AreNearPairs, AreNearPairsIn, AreAhead, AddsAbove, AddsRow, AddsBeside, AddsBesidePairs, AddsOver, AreBeside};

use canonical_boxes::laws::boxes_are_numbered;
use canonical_boxes::{Canonical, begun_among, locate};
use geom::{Box2, Point};
use rx_text::NoMemory;
use std::alloc::Global;

/// Two boxes, by their numbers in two sets.
#[derive(Clone, Copy, Debug, PartialEq, Eq)]
pub struct NearPair {
    pub one: usize,
    pub other: usize,
}

/// Pairs of a box of the one set and a box of the other, between which there are fewer than `reach` columns and fewer than `reach` rows: all
/// that have no square in common, and maybe others. Takes n log n steps, and one for each pair.
///
/// # Errors
///
/// `NoMemory` where an allocation was refused.
pub fn near(
    alloc: Global,
    one: &Canonical,
    other: &Canonical,
    reach: u32,
) -> Result<Vec<NearPair>, NoMemory>
    requires { reach ≤ 2 ^ 20 }
    ensures { IfOk result (λ found. AreNearPairs (pos reach) one.now other.now found.items) }
{
    boxes_are_numbered();
    let mut found = near_ahead(alloc, one, other, reach)?;
    let back = near_ahead(alloc, other, one, reach)?;
    for pair in &back {
        found.push(NearPair {
            one: pair.other,
            other: pair.one,
        })?;
    }
    Ok(found)
}

/// Pairs of boxes of the set, between which there are fewer than `reach` columns and fewer than `reach` rows: each two such boxes at least
/// once, in one order or the other. Takes n log n steps, and one for each pair.
///
/// # Errors
///
/// `NoMemory` where an allocation was refused.
pub fn near_in(alloc: Global, set: &Canonical, reach: u32) -> Result<Vec<NearPair>, NoMemory>
    requires { reach ≤ 2 ^ 20 }
    ensures { IfOk result (λ found. AreNearPairsIn (pos reach) set.now found.items) }
{
    boxes_are_numbered();
    let found = near_ahead(alloc, set, set, reach)?;
    Ok(found)
}

/// Near pairs in which the other box begins above the one, or has a square beside it in the row in which it begins.
fn near_ahead(
    alloc: Global,
    one: &Canonical,
    other: &Canonical,
    reach: u32,
) -> Result<Vec<NearPair>, NoMemory>
    requires { reach ≤ 2 ^ 20 }
    ensures ahead { IfOk result (λ found. AreAhead (pos reach) one.now other.now found.items) }
    ensures one { OnOk result (IsCanonical one.now) }
    ensures other { OnOk result (IsCanonical other.now) }
{
    let mut found = Vec::new(alloc);
    let ones = one.boxes();
    let others = other.boxes();
    for number in 0..ones.len() {
        add_above(&ones[number], number, others, reach, &mut found)?;
    }
    add_beside(alloc, ones, other, reach, &mut found)?;
    Ok(found)
}

/// Adds the pairs of this box, which has this number, and those that begin above it, fewer than `reach` rows and columns away.
fn add_above(
    b: &Box2,
    one: usize,
    others: &[Box2],
    reach: u32,
    found: &mut Vec<NearPair>,
) -> Result<(), NoMemory>
    requires few { reach ≤ 2 ^ 20 }
    requires canonical { IsCanonical others.now }
    ensures { OnOk result (AddsAbove (pos reach) b.now others.now one found.old.items found.new.items) }
{
    let from = behind(b.x1, reach);
    let to = ahead(b.x2, reach);
    for gap in 0..reach {
        let y = ahead(b.y2, gap);
        add_row(others, one, y, from, to, found)?;
    }
    Ok(())
}

/// Adds the pairs of this box and those that begin in row `y` and have a column from `from` up to but not including `to`.
fn add_row(
    others: &[Box2],
    one: usize,
    y: i64,
    from: i64,
    to: i64,
    found: &mut Vec<NearPair>,
) -> Result<(), NoMemory>
    requires { IsCanonical others.now }
    ensures { OnOk result (AddsRow others.now one y from to found.old.items found.new.items) }
{
    let (first, end) = begun_among(others, y, from, to);
    for other in first..end {
        found.push(NearPair { one, other })?;
    }
    Ok(())
}

/// Adds the pairs of each of the boxes and those that have one of the `reach` squares to its left or right in the row in which it begins.
fn add_beside(
    alloc: Global,
    ones: &[Box2],
    other: &Canonical,
    reach: u32,
    found: &mut Vec<NearPair>,
) -> Result<(), NoMemory>
    requires few { reach ≤ 2 ^ 20 }
    requires canonical { IsCanonical other.now }
    ensures { OnOk result (AddsBesidePairs (pos reach) ones.now other.now found.old.items found.new.items) }
{
    boxes_are_numbered();
    let beside = squares_beside(alloc, ones, reach)?;
    let squares = squares_of(alloc, &beside)?;
    let over = locate(alloc, other, &squares)?;
    for at in 0..beside.len() {
        add_over(beside[at].number, over[at], found)?;
    }
    Ok(())
}

/// Adds the pair of the one box and the other, where there is one.
fn add_over(one: usize, other: Option<usize>, found: &mut Vec<NearPair>) -> Result<(), NoMemory>
    ensures { OnOk result (AddsOver one other found.old.items found.new.items) }
{
    if let Some(other) = other {
        found.push(NearPair { one, other })?;
    }
    Ok(())
}

/// A square beside the box of this number.
#[derive(Clone, Copy, Debug, PartialEq, Eq)]
struct BesideSquare {
    number: usize,
    square: Point,
}

/// The squares.
fn squares_of(alloc: Global, beside: &[BesideSquare]) -> Result<Vec<Point>, NoMemory>
    ensures { IfOk result (λ squares. squares.items ≡ map (λ s. s.square) beside.now) }
{
    Ok(beside.iter().map(|s| s.square).collect(alloc)?)
}

/// The `reach` squares to the left and to the right of each box, in the row in which it begins.
fn squares_beside(alloc: Global, boxes: &[Box2], reach: u32) -> Result<Vec<BesideSquare>, NoMemory>
    requires { reach ≤ 2 ^ 20 }
    ensures { IfOk result (λ squares. AreBeside (pos reach) boxes.now squares.items) }
{
    let mut squares = Vec::new(alloc);
    for number in 0..boxes.len() {
        add_squares(&boxes[number], number, reach, &mut squares)?;
    }
    Ok(squares)
}

/// Adds the squares beside the box, which has this number.
fn add_squares(
    b: &Box2,
    number: usize,
    reach: u32,
    squares: &mut Vec<BesideSquare>,
) -> Result<(), NoMemory>
    requires { reach ≤ 2 ^ 20 }
    ensures { OnOk result (AddsBeside (pos reach) b.now number squares.old.items squares.new.items) }
{
    for gap in 0..reach {
        let left = behind(b.x1, gap + 1);
        let right = ahead(b.x2, gap);
        squares.push(beside(number, left, b.y1))?;
        squares.push(beside(number, right, b.y1))?;
    }
    Ok(())
}

/// The square, as one beside the box of this number.
fn beside(number: usize, x: i64, y: i64) -> BesideSquare
    ensures { result ≡ record { number = number; square = record { x = x; y = y } } }
{
    BesideSquare {
        number,
        square: Point { x, y },
    }
}

/// The edge so far to the right or above.
fn ahead(edge: i64, by: u32) -> i64
    requires low { neg_ℤ (pos (2 ^ 40)) ≤ℤ edge }
    requires high { edge ≤ℤ pos (2 ^ 40) }
    requires few { by ≤ 2 ^ 20 }
    ensures { result ≡ edge +ℤ pos by }
{
    edge + i64::from(by)
}

/// The edge so far to the left or below.
fn behind(edge: i64, by: u32) -> i64
    requires low { neg_ℤ (pos (2 ^ 40)) ≤ℤ edge }
    requires high { edge ≤ℤ pos (2 ^ 40) }
    requires few { by ≤ 2 ^ 20 }
    ensures { result ≡ edge -ℤ pos by }
{
    edge - i64::from(by)
}
