// Metal in rows and poly in columns, and the tiles that they make.

ghost use Rattle.std.specs.Prelude.{◌≡◌, ◌+◌, ◌<◌, ◌^◌, ◌&&◌, nat_le};
ghost use Rattle.micro_tiles.specs.Basics.{number_named};
ghost use Rattle.wiring.specs.Wirings.{begins_before, ends_behind, is_end, wire_tile};
ghost use Rattle.node_cell.specs.Made.{ends_in, runs_over};

use micro_tiles::{Basic, Tile};
use std::marker::Model;

/// Metal of a net in a row, from one column east to another, in each of which it meets poly of its net. Without a column it leads
/// out on that side.
#[derive(Clone, Copy, Debug, PartialEq, Eq)]
pub(crate) struct Run {
    pub from: Option<u32>,
    pub to: Option<u32>,
    pub net: u32,
}

impl Model for Run {
    ghost use Rattle.wiring.specs.Wirings as wirings;

    ghost Value = { wirings.Run };

    ghost view = { λ r. record { from = r.from; to = r.to; net = r.net } };

    ghost inverse = { λ r. record { from = r.from; to = r.to; net = r.net } };
}

/// Whether poly that crosses the borders of rows from `first` to `last` crosses this one.
pub(crate) fn crosses(first: u32, last: u32, border: u32) -> bool
    ensures { result ≡ (nat_le first border && nat_le border last) }
{
    first <= border && border <= last
}

/// Whether metal that begins in this column, or outside, crosses the west border of a column.
fn begins_before(from: Option<u32>, border: u32) -> bool
    ensures { result ≡ begins_before from border }
{
    match from {
        None => true,
        Some(col) => col < border,
    }
}

/// Whether metal that ends in this column, or outside, crosses the west border of a column.
fn ends_behind(to: Option<u32>, border: u32) -> bool
    ensures { result ≡ ends_behind to border }
{
    match to {
        None => true,
        Some(col) => border <= col,
    }
}

/// Whether metal that begins or ends in this column, or outside, has its contact in the column.
fn is_end(col: u32, end: Option<u32>) -> bool
    ensures { result ≡ is_end col end }
{
    match end {
        None => false,
        Some(end) => end == col,
    }
}

/// Whether the metal of a row crosses the west border of the column.
fn runs_over(run: &Option<Run>, border: u32) -> bool
    ensures { result ≡ runs_over run.now border }
{
    match run {
        None => false,
        Some(run) => begins_before(run.from, border) && ends_behind(run.to, border),
    }
}

/// Whether the metal of a row has a contact in the column.
fn ends_in(run: &Option<Run>, col: u32) -> bool
    ensures { result ≡ ends_in run.now col }
{
    match run {
        None => false,
        Some(run) => is_end(col, run.from) || is_end(col, run.to),
    }
}

/// The tile in the column of a row with this metal, or without, that has poly at its north and south side, or has not.
pub(crate) fn tile_of(north: bool, south: bool, run: &Option<Run>, col: u32) -> Tile
    requires { col < 2 ^ 31 }
    ensures { result ≡ number_named (wire_tile north south (runs_over run.now col) (runs_over run.now (col + 1)) (ends_in run.now col)) }
{
    wire_tile(
        north,
        south,
        runs_over(run, col),
        runs_over(run, col + 1),
        ends_in(run, col),
    )
    .tile()
}

/// The tile with poly at its north and south side, metal at its west and east side, and a contact, or without them.
fn wire_tile(north: bool, south: bool, west: bool, east: bool, contact: bool) -> Basic
    ensures { result ≡ wire_tile north south west east contact }
{
    match (north, south, west, east, contact) {
        (true, true, false, false, false) => Basic::PolyNorthSouth,
        (true, false, false, false, false) => Basic::PolyNorth,
        (false, true, false, false, false) => Basic::PolySouth,
        (false, false, true, true, false) => Basic::MetalEastWest,
        (true, true, true, true, false) => Basic::Crossing,
        (true, true, false, true, true) => Basic::EastToPolyNorthSouth,
        (true, false, false, true, true) => Basic::EastToPolyNorth,
        (false, true, false, true, true) => Basic::EastToPolySouth,
        (true, true, true, false, true) => Basic::WestToPolyNorthSouth,
        (true, false, true, false, true) => Basic::WestToPolyNorth,
        (false, true, true, false, true) => Basic::WestToPolySouth,
        _ => Basic::Empty,
    }
}
