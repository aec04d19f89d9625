// Sizes of blocks, and the rows and columns of wires in them.

ghost use Rattle.std.specs.Prelude.{◌≡◌, ◌+◌, ◌*◌, ◌≤◌, ◌<◌, ◌==◌, ◌^◌, IfSome, find};
ghost use Rattle.std.specs.List.{range_with_len};
ghost use Rattle.cell_network.specs.Home.{AreFew};
ghost use Rattle.cell_network.specs.Parts.{inn_wire};
ghost use Rattle.node_cell.specs.Blocks.{block_side, net_in_col, wire_row, wire_in_row};
ghost use Rattle.node_cell.specs.BlockTiles.{east_wire, foot_rows, part_rows};

use cell_network::Counts;

/// How many rows and columns of tiles a block has.
pub(crate) fn block_side(counts: Counts) -> u32
    requires { AreFew counts }
    ensures side { result ≡ block_side counts }
    ensures few { result ≤ 700 }
{
    10 * (counts.lines + counts.symbols + counts.outputs) + 60
}

/// The wire of IN in a bundle, behind which stands that of OUT.
pub(crate) fn inn_wire(counts: Counts) -> u32
    requires { AreFew counts }
    ensures { result ≡ inn_wire counts }
{
    counts.symbols + counts.outputs
}

/// How many rows a part is drawn in.
pub(crate) fn part_rows(counts: Counts) -> u32
    requires { AreFew counts }
    ensures rows { result ≡ part_rows counts }
    ensures few { result ≤ 700 }
{
    block_side(counts) - 2 * counts.bundle() - 4
}

/// How many rows there are below the part.
pub(crate) fn foot_rows(counts: Counts) -> u32
    requires { AreFew counts }
    ensures { result ≡ foot_rows counts }
{
    2 * counts.bundle() + 3
}

/// The row of a wire from east to west.
pub(crate) fn wire_row(counts: Counts, wire: u32) -> u32
    requires few { AreFew counts }
    requires wire { wire < 2 ^ 16 }
    ensures { result ≡ wire_row counts wire }
{
    block_side(counts) - 2 * counts.bundle() + 2 * wire
}

/// Which of so many lines stands at this place, where the first stands at `first` and each next one two behind.
fn every_second(first: u32, count: u32, at: u32) -> Option<u32>
    ensures line { result ≡ find (λ i. first + 2 * i == at) (range_with_len 0 count) }
    ensures within { IfSome result (λ i. i < count) }
{
    if first <= at && (at - first) % 2 == 0 && (at - first) / 2 < count {
        Some((at - first) / 2)
    } else {
        None
    }
}

/// Which of so many nets has its poly in the column.
pub(crate) fn net_in_col(nets: u32, col: u32) -> Option<u32>
    ensures net { result ≡ net_in_col nets col }
    ensures within { IfSome result (λ net. net < nets) }
{
    every_second(2, nets, col)
}

/// Which wire from east to west has its metal in the row.
pub(crate) fn wire_in_row(counts: Counts, row: u32) -> Option<u32>
    requires { AreFew counts }
    ensures wire { result ≡ wire_in_row counts row }
    ensures within { IfSome result (λ wire. wire < 2 ^ 16) }
{
    every_second(wire_row(counts, 0), counts.bundle(), row)
}

/// Which wire of the bundle to the east has its metal in the row below a part.
pub(crate) fn east_wire(counts: Counts, row: u32) -> Option<u32>
    requires { AreFew counts }
    ensures wire { result ≡ east_wire counts row }
    ensures within { IfSome result (λ wire. wire < 2 ^ 16) }
{
    every_second(3, counts.bundle(), row)
}
