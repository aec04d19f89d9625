// How it is kept what commands draw.

ghost use Rattle.std.specs.Prelude.{◌≡◌, ◌∷◌, [], IfOk};
ghost use Rattle.cif_drawing.specs.Shapes.{Drawn, Called, call_by, call_in, boxes_in, rare_ink, kept_ink, kept_place};

use crate::placement::Placement;
use crate::text_place::TextPlace;
use crate::wide_point::WidePoint;
use geom::{Box2, Orient};
use rx_text::{NoMemory, Place};
use std::alloc::Global;
use std::slice;

/// A call of a symbol, by its number in the order of the text, from 0.
#[derive(Clone, Copy, Debug, PartialEq, Eq)]
pub struct Call {
    pub symbol: usize,
    pub placement: Placement,
}

/// The line of a call, its symbol, and where the symbol's origin comes to.
#[derive(Clone, Copy, Debug, PartialEq, Eq)]
pub struct LineShift {
    pub line: u32,
    pub symbol: u32,
    pub x: i64,
    pub y: i64,
}

/// The line of a box, and the box.
#[derive(Clone, Copy, Debug, PartialEq, Eq)]
pub struct LineBox {
    pub line: u32,
    pub one: Box2,
}

/// What few commands draw: other numbers of boxes than one, or a symbol of a great number or far away.
#[derive(Drop)]
pub enum Rare {
    Several(Vec<Box2>),
    Called(Call),
}

/// A place, and what a command there draws.
#[derive(Drop)]
pub struct PlacedRare {
    pub place: TextPlace,
    pub ink: Rare,
}

/// A command that draws: its place, and boxes, or a symbol somewhere, by its own scale. All take two words, since a text may hold
/// nothing but calls of three bytes; a call of a symbol that is not moved takes no more than these.
#[derive(Drop)]
pub enum Kept {
    Still {
        turn: Orient,
        symbol: u32,
        line: u32,
        column: u32,
    },
    Moved {
        turn: Orient,
        column: u32,
        to: Box<LineShift>,
    },
    Single {
        column: u32,
        at: Box<LineBox>,
    },
    Other(Box<PlacedRare>),
}

impl Kept {
    /// A box.
    pub fn single(alloc: Global, place: TextPlace, b: Box2) -> Result<Kept, NoMemory>
        ensures place { IfOk result (λ kept. kept_place kept ≡ place) }
        ensures ink { IfOk result (λ kept. kept_ink kept ≡ Drawn (b ∷ [])) }
    {
        let at = LineBox {
            line: place.line,
            one: b,
        };
        Ok(Kept::Single {
            column: place.column,
            at: Box::new(alloc, at)?,
        })
    }

    /// Boxes.
    pub fn several(alloc: Global, place: TextPlace, boxes: Vec<Box2>) -> Result<Kept, NoMemory>
        ensures place { IfOk result (λ kept. kept_place kept ≡ place) }
        ensures ink { IfOk result (λ kept. kept_ink kept ≡ Drawn boxes.items) }
    {
        Kept::rare(alloc, place, Rare::Several(boxes))
    }

    /// A symbol somewhere.
    pub fn called(alloc: Global, place: TextPlace, call: Call) -> Result<Kept, NoMemory>
        ensures place { IfOk result (λ kept. kept_place kept ≡ place) }
        ensures ink { IfOk result (λ kept. kept_ink kept ≡ Called call) }
    {
        let by = call.placement.by;
        let symbol = u32::try_from(call.symbol);
        match (symbol, i64::try_from(by.x), i64::try_from(by.y)) {
            (Ok(symbol), Ok(x), Ok(y)) => {
                Kept::near_call(alloc, place, symbol, call.placement.turn, x, y)
            }
            _ => Kept::rare(alloc, place, Rare::Called(call)),
        }
    }

    /// A symbol, turned and then moved so far.
    fn near_call(
        alloc: Global,
        place: TextPlace,
        symbol: u32,
        turn: Orient,
        x: i64,
        y: i64,
    ) -> Result<Kept, NoMemory>
        ensures place { IfOk result (λ kept. kept_place kept ≡ place) }
        ensures ink { IfOk result (λ kept. kept_ink kept ≡ Called (call_by symbol turn x y)) }
    {
        let line = place.line;
        let column = place.column;
        if x == 0 && y == 0 {
            return Ok(Kept::Still {
                turn,
                symbol,
                line,
                column,
            });
        }
        let to = LineShift { line, symbol, x, y };
        Ok(Kept::Moved {
            turn,
            column,
            to: Box::new(alloc, to)?,
        })
    }

    /// What few commands draw.
    fn rare(alloc: Global, place: TextPlace, ink: Rare) -> Result<Kept, NoMemory>
        ensures place { IfOk result (λ kept. kept_place kept ≡ place) }
        ensures ink { IfOk result (λ kept. kept_ink kept ≡ rare_ink ink) }
    {
        Ok(Kept::Other(Box::new(alloc, PlacedRare { place, ink })?))
    }

    /// Its place.
    pub fn place(&self) -> Place
        ensures { result ≡ kept_place self.now }
    {
        match self {
            Kept::Still { line, column, .. } => Place::Text {
                line: *line,
                column: *column,
            },
            Kept::Moved { column, to, .. } => Place::Text {
                line: to.line,
                column: *column,
            },
            Kept::Single { column, at } => Place::Text {
                line: at.line,
                column: *column,
            },
            Kept::Other(placed) => placed.place.place(),
        }
    }

    /// The call, where it is one.
    pub fn call(&self) -> Option<Call>
        ensures { result ≡ call_in (kept_ink self.now) }
    {
        match self {
            Kept::Still { turn, symbol, .. } => Some(call_by(*symbol, *turn, 0, 0)),
            Kept::Moved { turn, to, .. } => Some(call_by(to.symbol, *turn, to.x, to.y)),
            Kept::Single { .. } => None,
            Kept::Other(placed) => match &placed.ink {
                Rare::Several(_) => None,
                Rare::Called(call) => Some(*call),
            },
        }
    }

    /// The boxes, where it is no call.
    pub fn boxes(&self) -> &[Box2]
        ensures { result.now ≡ boxes_in (kept_ink self.now) }
    {
        match self {
            Kept::Still { .. } => &[],
            Kept::Moved { .. } => &[],
            Kept::Single { at, .. } => slice::from_ref(&at.one),
            Kept::Other(placed) => match &placed.ink {
                Rare::Several(boxes) => boxes.as_slice(),
                Rare::Called(_) => &[],
            },
        }
    }
}

/// A call of the symbol, turned and then moved.
fn call_by(symbol: u32, turn: Orient, x: i64, y: i64) -> Call
    ensures { result ≡ call_by symbol turn x y }
{
    Call {
        symbol: symbol as usize,
        placement: Placement {
            turn,
            by: WidePoint {
                x: i128::from(x),
                y: i128::from(y),
            },
        },
    }
}
