// Squares of four squares, and the edges between them.

ghost use Rattle.std.specs.Prelude.{◌≡◌, ◌+◌, ◌*◌, ◌≤◌, ◌^◌, None, All, IfOk};
ghost use Rattle.block_grid.specs.Changes.{side_by_side};
ghost use Rattle.block_grid.specs.Sheets.{stands_at};
ghost use Rattle.tree_layout.specs.Drawing.{IsOrdered};
ghost use Rattle.tree_layout.specs.Squares.{four, four_squares, kind_of, square};

use crate::links::{draw_links, links_between};
use crate::numbered::Entry;
use block_grid::{BlockKind, Blocks};
use channel_route::laws::drawing_adds_one_edge;
use rx_text::NoMemory;
use std::alloc::Global;

/// A square for the entries from number `first` on, of 4^`level` blocks.
pub fn square(alloc: Global, entries: &[Entry], level: u32, first: u32) -> Result<Blocks, NoMemory>
    requires ordered { IsOrdered entries.now }
    requires level { level ≤ 7 }
    requires first { first + 4 ^ level ≤ 4 ^ 8 }
    ensures { IfOk result (λ blocks. blocks ≡ square entries.now level first) }
{
    drawing_adds_one_edge();
    if level == 0 {
        return Blocks::one(alloc, kind_of(entries, first));
    }
    let quarter = four_to(level - 1);
    let north_west = square(alloc, entries, level - 1, first)?;
    let north_east = square(alloc, entries, level - 1, first + quarter)?;
    let south_west = square(alloc, entries, level - 1, first + 2 * quarter)?;
    let south_east = square(alloc, entries, level - 1, first + 3 * quarter)?;
    let blocks = four(north_west, north_east, south_west, south_east)?;
    with_links_between(alloc, blocks, entries, level - 1, first, quarter)
}

/// The square of four squares, with the edges between them drawn.
fn with_links_between(
    alloc: Global,
    blocks: Blocks,
    entries: &[Entry],
    below: u32,
    first: u32,
    quarter: u32,
) -> Result<Blocks, NoMemory>
    requires ordered { IsOrdered entries.now }
    requires below { below ≤ 6 }
    requires first { first + 4 * quarter ≤ 4 ^ 8 }
    requires quarter { quarter ≡ 4 ^ below }
    requires blocks { blocks ≡ four_squares entries.now below first }
    ensures { IfOk result (λ all. all ≡ square entries.now (below + 1) first) }
{
    drawing_adds_one_edge();
    let mut all = blocks;
    let links = links_between(alloc, entries, first, quarter)?;
    draw_links(alloc, &mut all, entries, &links)?;
    Ok(all)
}

/// Two squares above two others.
fn four(
    north_west: Blocks,
    north_east: Blocks,
    south_west: Blocks,
    south_east: Blocks,
) -> Result<Blocks, NoMemory>
    requires north { All (λ node. stands_at north_west.nodes node.node ≡ None) north_east.nodes }
    requires south { All (λ node. stands_at south_west.nodes node.node ≡ None) south_east.nodes }
    requires differ { All (λ node. stands_at (side_by_side north_west north_east).nodes node.node ≡ None) (side_by_side south_west south_east).nodes }
    requires north_cols { north_west.cols + north_east.cols ≤ 2 ^ 20 }
    requires south_cols { south_west.cols + south_east.cols ≤ 2 ^ 20 }
    requires few_rows { (side_by_side north_west north_east).rows + (side_by_side south_west south_east).rows ≤ 2 ^ 20 }
    ensures { IfOk result (λ blocks. blocks ≡ four north_west north_east south_west south_east) }
{
    let north = north_west.beside(north_east)?;
    let south = south_west.beside(south_east)?;
    north.above(south)
}

/// 4^`level`.
fn four_to(level: u32) -> u32
    requires { level ≤ 7 }
    ensures { result ≡ 4 ^ level }
{
    1 << (2 * level)
}

/// The block with this number, which is empty behind the last entry.
fn kind_of(entries: &[Entry], number: u32) -> BlockKind
    ensures { result ≡ kind_of entries.now number }
{
    match entries.get(number as usize) {
        None => BlockKind::Empty,
        Some(entry) => {
            if number == 0 {
                BlockKind::Frame(entry.node)
            } else {
                BlockKind::Node(entry.node)
            }
        }
    }
}
