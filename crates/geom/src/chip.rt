// Chips: kinds of boxes, where they are called, and labels.

ghost use Rattle.std.specs.Prelude.{◌≡◌, List};
ghost use Rattle.geom.specs.Chips.{ChipShape};

use crate::layer::Layer;
use crate::layer_box::Box2;
use rx_text::PadName;
use std::marker::Model;

/// A name of a pad at a point of a layer, in lambda.
#[derive(Clone, Copy, Debug, PartialEq, Eq)]
pub struct Label {
    pub pad: PadName,
    pub layer: Layer,
    pub x: i64,
    pub y: i64,
}

/// A kind, by its number from 0, with its origin at (x, y), in lambda.
#[derive(Clone, Copy, Debug, PartialEq, Eq)]
pub struct Call {
    pub kind: u32,
    pub x: i64,
    pub y: i64,
}

/// A rectangle by its lower left corner and its sides, in lambda.
#[derive(Clone, Copy, Debug, PartialEq, Eq)]
pub struct Rect {
    pub x: i64,
    pub y: i64,
    pub width: u64,
    pub height: u64,
}

/// A kind of a chip: boxes that are drawn wherever it is called.
#[derive(Drop)]
pub struct Kind {
    boxes: Vec<Box2>,
}

impl Model for Kind {
    ghost use Rattle.std.specs.Prelude.{List};
    ghost use Rattle.geom.specs.Squares.{BoxShape};

    ghost Value = { List BoxShape };

    ghost view = { λ k. k.boxes.items };
}

impl Kind {
    /// A kind of these boxes.
    pub fn new(boxes: Vec<Box2>) -> Kind
        ensures { result ≡ boxes.items }
    {
        Kind { boxes }
    }

    /// The boxes, in order.
    pub fn boxes(&self) -> &[Box2]
        ensures { result.now ≡ self.now }
    {
        &self.boxes
    }

    /// The boxes, in order.
    pub fn into_boxes(self) -> Vec<Box2>
        ensures { result.items ≡ self }
    {
        self.boxes
    }
}

/// A chip: its kinds, their calls, and its labels. It draws each kind's boxes at each call of the kind.
#[derive(Drop)]
pub struct Chip {
    kinds: Vec<Kind>,
    calls: Vec<Call>,
    labels: Vec<Label>,
}

impl Model for Chip {
    ghost use Rattle.geom.specs.Chips.{ChipShape};

    ghost Value = { ChipShape };

    ghost view = { λ c. record { kinds = c.kinds.items; calls = c.calls.items; labels = c.labels.items } };
}

impl Chip {
    /// A chip of these parts.
    pub fn new(kinds: Vec<Kind>, calls: Vec<Call>, labels: Vec<Label>) -> Chip
        ensures { result ≡ record { kinds = kinds.items; calls = calls.items; labels = labels.items } }
    {
        Chip {
            kinds,
            calls,
            labels,
        }
    }

    /// The kinds, in order.
    pub fn kinds(&self) -> &[Kind]
        ensures { result.now ≡ self.now.kinds }
    {
        &self.kinds
    }

    /// The calls, in order.
    pub fn calls(&self) -> &[Call]
        ensures { result.now ≡ self.now.calls }
    {
        &self.calls
    }

    /// The labels, in order.
    pub fn labels(&self) -> &[Label]
        ensures { result.now ≡ self.now.labels }
    {
        &self.labels
    }
}
