// The tiles of wires.

ghost use Rattle.std.specs.Prelude.{◌≡◌};
ghost use Rattle.wiring.specs.Wirings.{wire_tile};

use micro_tiles::Basic;

/// The tile with poly at its north and south side and metal at its west and east side, as asked for, joined by a contact or not:
/// metal ends at a contact, and crosses poly that passes without one. No wires of a plan meet otherwise; the tile is then empty.
pub fn wire_tile(north: bool, south: bool, west: bool, east: bool, contact: bool) -> Basic
    ensures { result ≡ wire_tile north south west east contact }
{
    match (north, south, west, east, contact) {
        (true, true, false, false, false) => Basic::PolyNorthSouth,
        (true, false, false, false, false) => Basic::PolyNorth,
        (false, true, false, false, false) => Basic::PolySouth,
        (false, false, true, true, false) => Basic::MetalEastWest,
        (true, true, true, true, false) => Basic::Crossing,
        (true, true, false, true, true) => Basic::EastToPolyNorthSouth,
        (true, false, false, true, true) => Basic::EastToPolyNorth,
        (false, true, false, true, true) => Basic::EastToPolySouth,
        (true, true, true, false, true) => Basic::WestToPolyNorthSouth,
        (true, false, true, false, true) => Basic::WestToPolyNorth,
        (false, true, true, false, true) => Basic::WestToPolySouth,
        _ => Basic::Empty,
    }
}
