// A sweep over boxes of one layer, from left to right, that gives the runs of every row.

ghost use Rattle.std.specs.Prelude.{◌≡◌, ◌<ℤ◌, ◌≤ℤ◌, ℤ, IfOk, OnOk};
ghost use Rattle.geom.specs.Squares.{BoxShape, IsBox};
ghost use Rattle.geom.specs.Rows.{Among, AreParts, Over};
ghost use Rattle.geom.specs.Columns.{AreColumns};
ghost use Rattle.geom.specs.RowTrees.{column_at};
ghost use Rattle.geom.specs.Reaches.{IsLevel};
ghost use Rattle.geom.specs.Sweeps.{IsStrip, Passes, PutsAside};

use crate::layer::Layer;
use crate::layer_box::{Box2, FARTHEST_EDGE};
use crate::reach::{LOWEST_EDGE, Level, Reach};
use rx_text::NoMemory;
use std::alloc::Global;

/// Columns from `left` up to `right`, in the rows from `bottom` up to `top`.
#[derive(Clone, Copy, Debug, PartialEq, Eq)]
pub struct Strip {
    pub left: i64,
    pub right: i64,
    pub bottom: i64,
    pub top: i64,
}

/// A strip of all rows, to the right of every box.
const FENCE: Strip = Strip {
    left: FARTHEST_EDGE + 1,
    right: FARTHEST_EDGE + 2,
    bottom: LOWEST_EDGE,
    top: FARTHEST_EDGE,
};

/// The last run of each row so far, by the columns at which it begins and ends, and boxes of the runs before it. Both
/// columns only grow.
#[derive(Drop)]
pub struct Sweep {
    layer: Layer,
    begins: Reach,
    ends: Reach,
    runs: Vec<Box2>,
}

impl Sweep {
    /// Passes over the strip, which begins no further left than those before it.
    fn pass(&mut self, strip: Strip) -> Result<(), NoMemory>
        requires { IsStrip strip }
        ensures layer { self.new.layer ≡ self.old.layer }
        ensures passed { OnOk result (Passes self.old strip strip.bottom strip.top self.new) }
    {
        let mut row = strip.bottom;
        while row < strip.top {
            row = self.step(strip, row)?;
        }
        Ok(())
    }

    /// Passes over the strip from this row up to the one that is answered, which have equal last runs.
    fn step(&mut self, strip: Strip, row: i64) -> Result<i64, NoMemory>
        requires strip { IsStrip strip }
        requires from { strip.bottom ≤ℤ row }
        requires below { row <ℤ strip.top }
        ensures layer { self.new.layer ≡ self.old.layer }
        ensures within { IfOk result (λ next. (row <ℤ next) × (next ≤ℤ strip.top)) }
        ensures passed { IfOk result (λ next. Passes self.old strip row next self.new) }
    {
        let last = self.ends.level(row, strip.top);
        if last.value < strip.left {
            self.begin_run(strip, row, last)
        } else {
            self.lengthen(strip, row)
        }
    }

    /// Begins a run in the rows from this one up to the one that is answered, and puts the run before it aside.
    fn begin_run(&mut self, strip: Strip, row: i64, last: Level) -> Result<i64, NoMemory>
        requires strip { IsStrip strip }
        requires from { strip.bottom ≤ℤ row }
        requires to { last.end ≤ℤ strip.top }
        requires level { IsLevel self.old.ends row last }
        requires apart { last.value <ℤ strip.left }
        ensures layer { self.new.layer ≡ self.old.layer }
        ensures within { IfOk result (λ next. (row <ℤ next) × (next ≤ℤ strip.top)) }
        ensures passed { IfOk result (λ next. Passes self.old strip row next self.new) }
    {
        let first = self.begins.level(row, last.end);
        self.put_aside(row, first, last.value)?;
        self.begins.raise(row, first.end, strip.left)?;
        self.ends.raise(row, first.end, strip.right)?;
        Ok(first.end)
    }

    /// Puts aside the run from the level's number up to the column, in the rows from this one to the level's end, unless
    /// it is empty.
    fn put_aside(&mut self, row: i64, first: Level, to: i64) -> Result<(), NoMemory>
        ensures layer { self.new.layer ≡ self.old.layer }
        ensures begins { self.new.begins ≡ self.old.begins }
        ensures ends { self.new.ends ≡ self.old.ends }
        ensures aside { OnOk result
            (PutsAside self.old.layer row first to self.old.runs.items self.new.runs.items) }
    {
        if let Some(run) = Box2::new(self.layer, first.value, row, to, first.end) {
            self.runs.push(run)?;
        }
        Ok(())
    }

    /// Makes the last runs of the rows that the strip meets, from this row up to the one that is answered, as long as the
    /// strip.
    fn lengthen(&mut self, strip: Strip, row: i64) -> Result<i64, NoMemory>
        requires strip { IsStrip strip }
        requires from { strip.bottom ≤ℤ row }
        requires below { row <ℤ strip.top }
        requires met { strip.left ≤ℤ column_at self.old.ends row }
        ensures layer { self.new.layer ≡ self.old.layer }
        ensures within { IfOk result (λ next. (row <ℤ next) × (next ≤ℤ strip.top)) }
        ensures passed { IfOk result (λ next. Passes self.old strip row next self.new) }
    {
        let end = self.ends.reached(strip.left, row, strip.top);
        self.ends.raise(row, end, strip.right)?;
        Ok(end)
    }
}

/// The columns and rows of the box.
fn strip_of(b: &Box2) -> Strip
    ensures { result ≡ record { left = b.now.x1; right = b.now.x2; bottom = b.now.y1; top = b.now.y2 } }
{
    Strip {
        left: b.x1,
        right: b.x2,
        bottom: b.y1,
        top: b.y2,
    }
}

/// Boxes of the layer that are runs in each of their rows, with the squares of these boxes.
pub fn row_runs(alloc: Global, boxes: &[Box2], layer: Layer) -> Result<Vec<Box2>, NoMemory>
    requires boxes { (b : BoxShape) → Among boxes.now b → IsBox b }
    requires columns { AreColumns boxes.now }
    ensures { IfOk result (λ runs. AreParts (Over boxes.now) layer runs.items) }
{
    let edges = row_edges(alloc, boxes)?;
    let mut sweep = Sweep {
        layer,
        begins: Reach::new(alloc, &edges)?,
        ends: Reach::new(alloc, &edges)?,
        runs: Vec::new(alloc),
    };
    for b in boxes {
        sweep.pass(strip_of(b))?;
    }
    sweep.pass(FENCE)?;
    Ok(sweep.runs)
}

/// The lower and upper edges of the boxes, in order, each once.
fn row_edges(alloc: Global, boxes: &[Box2]) -> Result<Vec<i64>, NoMemory> {
    let mut edges = Vec::new(alloc);
    for b in boxes {
        edges.push(b.y1)?;
        edges.push(b.y2)?;
    }
    edges.sort()?;
    edges.dedup();
    Ok(edges)
}
