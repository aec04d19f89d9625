// A sweep upwards over the boxes of a set, for questions at squares row by row.

ghost use Rattle.std.specs.Prelude.{◌≡◌, ℤ, ℕ, ◌≤ℤ◌, IfOk, OnOk};
ghost use Rattle.geom.specs.Squares.{BoxShape};
ghost use Rattle.canonical_boxes.specs.Canonical.{IsCanonical};
ghost use Rattle.canonical_boxes.specs.Located.{IsLocated};
ghost use Rattle.canonical_boxes.specs.Sweeps.{IsHeld, HasBegun, IsGreatest, IsLatest};

use crate::standing::count_passed;
use geom::Box2;
use geom::layer_box::FARTHEST_EDGE;
use rx_text::NoMemory;
use std::alloc::Global;
use std::collections::BTreeMap;

/// The boxes of a set that begin at or below some row, which are the first `begun`. The map has those of them that reach above the
/// row, by their left edges; those that end are taken out where they are met.
#[derive(Drop)]
pub(crate) struct Sweep<'a> {
    boxes: &'a [Box2],
    begun: usize,
    runs: BTreeMap<i64, usize>,
}

impl<'a> Sweep<'a> {
    /// Below all boxes.
    pub(crate) fn new(alloc: Global, boxes: &'a [Box2]) -> Sweep<'a>
        ensures boxes { result.boxes.now ≡ boxes.now }
        ensures held { (y : ℤ) → IsHeld boxes.now result.begun y result.runs }
    {
        Sweep {
            boxes,
            begun: 0,
            runs: BTreeMap::new(alloc),
        }
    }

    /// Goes up to row `y`.
    ///
    /// # Errors
    ///
    /// `NoMemory` where an allocation was refused.
    pub(crate) fn rise(&mut self, y: i64) -> Result<(), NoMemory>
        requires canonical { IsCanonical self.old.boxes.now }
        requires held { IsHeld self.old.boxes.now self.old.begun y self.old.runs }
        ensures boxes { self.new.boxes.now ≡ self.old.boxes.now }
        ensures held { OnOk result (IsHeld self.old.boxes.now self.new.begun y self.new.runs) }
        ensures begun { OnOk result (HasBegun self.old.boxes.now self.new.begun y) }
    {
        let boxes = self.boxes;
        let end = count_passed(boxes, y, FARTHEST_EDGE);
        for number in self.begun..end {
            let b = boxes[number];
            self.runs.insert(b.x1, number)?;
        }
        self.begun = end;
        Ok(())
    }

    /// The box over the square (`x`, `y`), where row `y` is that to which it rose.
    pub(crate) fn box_at(&mut self, x: i64, y: i64) -> Option<usize>
        requires canonical { IsCanonical self.old.boxes.now }
        requires held { IsHeld self.old.boxes.now self.old.begun y self.old.runs }
        requires begun { HasBegun self.old.boxes.now self.old.begun y }
        ensures boxes { self.new.boxes.now ≡ self.old.boxes.now }
        ensures held { IsHeld self.old.boxes.now self.new.begun y self.new.runs }
        ensures begun { self.new.begun ≡ self.old.begun }
        ensures located { IsLocated self.old.boxes.now x y result }
    {
        let boxes = self.boxes;
        match self.latest(x, y) {
            Some(number) => {
                let b = boxes[number];
                if x < b.x2 { Some(number) } else { None }
            }
            None => None,
        }
    }

    /// The box that begins last at or before column `x`, of those that have begun and reach above row `y`.
    fn latest(&mut self, x: i64, y: i64) -> Option<usize>
        requires { IsHeld self.old.boxes.now self.old.begun y self.old.runs }
        ensures boxes { self.new.boxes.now ≡ self.old.boxes.now }
        ensures held { IsHeld self.old.boxes.now self.new.begun y self.new.runs }
        ensures begun { self.new.begun ≡ self.old.begun }
        ensures latest { IsLatest self.old.boxes.now self.old.begun x y result }
    {
        let boxes = self.boxes;
        while let Some(number) = greatest(&self.runs, x) {
            let b = boxes[number];
            if y < b.y2 {
                return Some(number);
            }
            self.runs.remove(&b.x1);
        }
        None
    }
}

/// The value at the greatest key of the map that is at most `x`.
fn greatest(runs: &BTreeMap<i64, usize>, x: i64) -> Option<usize>
    ensures { IsGreatest runs.now x result }
{
    match runs.range(..=x).next_back() {
        Some((_, number)) => Some(*number),
        None => None,
    }
}
