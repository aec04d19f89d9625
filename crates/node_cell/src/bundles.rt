// Blocks of bundles alone: a bundle that passes, two that cross, or one that turns.

ghost use Rattle.std.specs.Prelude.{◌≡◌, [], ◌<◌, ◌^◌, IfSome, Some, None};
ghost use Rattle.std.specs.List.{list_any};
ghost use Rattle.std.specs.Option.{option_and_then, option_map_or};
ghost use Rattle.wiring.specs.Wirings.{crosses};
ghost use Rattle.cell_network.specs.Home.{AreFew};
ghost use Rattle.node_cell.specs.Blocks.{block_side, wire_in_row};
ghost use Rattle.node_cell.specs.Made.{corner_runs, corner_spans, wires_runs, wires_spans, wires_tile};

use crate::lines::{block_side, net_in_col, wire_in_row, wire_row};
use crate::run::{Run, crosses, tile_of};
use block_grid::{BlockKind, Turn};
use cell_network::Counts;
use micro_tiles::Tile;

/// The tile of a block of bundles in this row and column.
pub(crate) fn wires_tile(counts: Counts, kind: BlockKind, row: u32, col: u32) -> Tile
    requires few { AreFew counts }
    requires row { row < block_side counts }
    requires col { col < block_side counts }
    ensures { result ≡ wires_tile counts kind row col }
{
    let net = net_in_col(counts.bundle(), col);
    let metal = metal_in(counts, kind, row);
    tile_of(
        wires_poly(counts, kind, net, row),
        wires_poly(counts, kind, net, row + 1),
        &metal,
        col,
    )
}

/// Whether the poly of a wire, if the column has one, crosses the north border of the row.
fn wires_poly(counts: Counts, kind: BlockKind, net: Option<u32>, border: u32) -> bool
    requires few { AreFew counts }
    requires net { IfSome net (λ i. i < 2 ^ 16) }
    ensures { result ≡ list_any (crosses border) (option_map_or (wires_spans counts kind) net []) }
{
    let Some(wire) = net else {
        return false;
    };
    match kind {
        BlockKind::Vertical | BlockKind::Cross => crosses(0, block_side(counts), border),
        BlockKind::Corner(turn) => corner_poly(counts, turn, wire, border),
        BlockKind::Empty | BlockKind::Horizontal | BlockKind::Node(_) | BlockKind::Frame(_) =>
            false,
    }
}

/// Whether the poly of a wire that turns crosses the north border of the row.
fn corner_poly(counts: Counts, turn: Turn, wire: u32, border: u32) -> bool
    requires few { AreFew counts }
    requires wire { wire < 2 ^ 16 }
    ensures { result ≡ list_any (crosses border) (corner_spans counts turn wire) }
{
    let row = wire_row(counts, wire);
    match turn {
        Turn::NorthEast | Turn::NorthWest => crosses(0, row, border),
        Turn::SouthEast | Turn::SouthWest => crosses(row + 1, block_side(counts), border),
    }
}

/// The metal in the row, if there is any.
fn metal_in(counts: Counts, kind: BlockKind, row: u32) -> Option<Run>
    requires { AreFew counts }
    ensures { result ≡ option_and_then (wires_runs counts kind) (wire_in_row counts row) }
{
    let wire = wire_in_row(counts, row)?;
    match kind {
        BlockKind::Horizontal => Some(level(wire)),
        BlockKind::Cross => Some(level(counts.bundle() + wire)),
        BlockKind::Corner(turn) => Some(turned(turn, wire)),
        BlockKind::Empty | BlockKind::Vertical | BlockKind::Node(_) | BlockKind::Frame(_) => None,
    }
}

/// Metal from west to east.
fn level(net: u32) -> Run
    ensures { result ≡ record { from = None; to = None; net = net } }
{
    Run {
        from: None,
        to: None,
        net,
    }
}

/// The metal of a wire that turns.
fn turned(turn: Turn, wire: u32) -> Run
    requires { wire < 2 ^ 16 }
    ensures { Some result ≡ corner_runs turn wire }
{
    let col = Some(2 + 2 * wire);
    match turn {
        Turn::NorthEast | Turn::SouthEast => Run {
            from: col,
            to: None,
            net: wire,
        },
        Turn::NorthWest | Turn::SouthWest => Run {
            from: None,
            to: col,
            net: wire,
        },
    }
}
