// One edge, drawn.

ghost use Rattle.std.specs.Prelude.{◌≡◌, ◌≢◌, ◌+◌, ◌<◌, ◌≤◌, ◌^◌, true, false, IsSome, OnOk, OnErr};
ghost use Rattle.block_grid.specs.Lines.{col_of, row_of};
ghost use Rattle.block_grid.specs.Sheets.{IsInOpen, IsOutOpen, IsSheet, stands_at};
ghost use Rattle.channel_route.specs.Drawing.{drawn, is_heavy, place_in, turns_along};

use crate::role::EdgeRole;
use block_grid::Blocks;
use block_grid::laws::{
    insertion_lengthens_bundles, insertion_moves_nodes, nodes_stand_apart,
    open_ports_are_uncrossed, rims_are_uncrossed,
};
use rx_text::NoMemory;
use std::alloc::Global;

/// Draws the edge from `parent` to `child`, in rows and columns that are inserted for it. A heavy edge has a column right of
/// its parent and a row above its child. A light edge has a row below its parent, a row above its child, and a column at the
/// east rim. It goes along these and south into its child. After an error the blocks are as before.
///
/// # Errors
///
/// `NoMemory` where an allocation was refused.
pub fn draw_edge(
    alloc: Global,
    blocks: &mut Blocks,
    parent: u32,
    child: u32,
    role: EdgeRole,
) -> Result<(), NoMemory>
    requires differ { parent ≢ child }
    requires parent_stands { IsSome (stands_at blocks.old.nodes parent) }
    requires child_stands { IsSome (stands_at blocks.old.nodes child) }
    requires out_open { IsOutOpen blocks.old parent (is_heavy role) }
    requires in_open { IsInOpen blocks.old child }
    requires few_rows { blocks.old.rows + 2 ≤ 2 ^ 20 }
    requires few_cols { blocks.old.cols + 1 ≤ 2 ^ 20 }
    ensures ok { OnOk result (blocks.new ≡ drawn blocks.old parent child (is_heavy role)) }
    ensures err { OnErr result (blocks.new ≡ blocks.old) }
{
    let mut with_edge = blocks.copy(alloc)?;
    match role {
        EdgeRole::Light => draw_light(alloc, &mut with_edge, parent, child)?,
        EdgeRole::Heavy => draw_heavy(alloc, &mut with_edge, parent, child)?,
    }
    *blocks = with_edge;
    Ok(())
}

/// Draws a heavy edge. After an error the blocks may have rows and columns more.
fn draw_heavy(alloc: Global, blocks: &mut Blocks, parent: u32, child: u32) -> Result<(), NoMemory>
    requires differ { parent ≢ child }
    requires parent_stands { IsSome (stands_at blocks.old.nodes parent) }
    requires child_stands { IsSome (stands_at blocks.old.nodes child) }
    requires out_open { IsOutOpen blocks.old parent true }
    requires in_open { IsInOpen blocks.old child }
    requires few_rows { blocks.old.rows + 1 ≤ 2 ^ 20 }
    requires few_cols { blocks.old.cols + 1 ≤ 2 ^ 20 }
    ensures { OnOk result (blocks.new ≡ drawn blocks.old parent child true) }
{
    insertion_lengthens_bundles();
    insertion_moves_nodes();
    nodes_stand_apart();
    open_ports_are_uncrossed();
    rims_are_uncrossed();
    let start = place_in(blocks, parent);
    blocks.insert_col(start.1 + 1)?;
    let finish = place_in(blocks, child);
    blocks.insert_row(finish.0)?;
    let start = place_in(blocks, parent);
    let finish = place_in(blocks, child);
    let turns = heavy_turns(start, finish);
    blocks.lay_turns(alloc, parent, child, true, &turns)
}

/// Draws a light edge. After an error the blocks may have rows and columns more.
fn draw_light(alloc: Global, blocks: &mut Blocks, parent: u32, child: u32) -> Result<(), NoMemory>
    requires differ { parent ≢ child }
    requires parent_stands { IsSome (stands_at blocks.old.nodes parent) }
    requires child_stands { IsSome (stands_at blocks.old.nodes child) }
    requires out_open { IsOutOpen blocks.old parent false }
    requires in_open { IsInOpen blocks.old child }
    requires few_rows { blocks.old.rows + 2 ≤ 2 ^ 20 }
    requires few_cols { blocks.old.cols + 1 ≤ 2 ^ 20 }
    ensures { OnOk result (blocks.new ≡ drawn blocks.old parent child false) }
{
    insertion_lengthens_bundles();
    insertion_moves_nodes();
    nodes_stand_apart();
    open_ports_are_uncrossed();
    rims_are_uncrossed();
    let start = place_in(blocks, parent);
    blocks.insert_row(start.0 + 1)?;
    let finish = place_in(blocks, child);
    blocks.insert_row(finish.0)?;
    let last = blocks.cols();
    blocks.insert_col(last)?;
    let start = place_in(blocks, parent);
    let finish = place_in(blocks, child);
    let turns = light_turns(start, finish, last);
    blocks.lay_turns(alloc, parent, child, false, &turns)
}

/// The row and the column of the node.
fn place_in(blocks: &Blocks, node: u32) -> (u32, u32)
    ensures place { result ≡ place_in blocks.now node }
    ensures sheet { IsSheet blocks.now }
{
    blocks.place_of(node).unwrap_or((0, 0))
}

/// Where a heavy edge turns.
fn heavy_turns(start: (u32, u32), finish: (u32, u32)) -> [(u32, u32); 3]
    requires above { 1 ≤ row_of finish }
    requires right { col_of start + 1 < 2 ^ 32 }
    ensures { result ≡ turns_along true start finish 0 }
{
    [
        (start.0, start.1 + 1),
        (finish.0 - 1, start.1 + 1),
        (finish.0 - 1, finish.1),
    ]
}

/// Where a light edge turns, whose column is the last one.
fn light_turns(start: (u32, u32), finish: (u32, u32), last: u32) -> [(u32, u32); 4]
    requires above { 1 ≤ row_of finish }
    requires below { row_of start + 1 < 2 ^ 32 }
    ensures { result ≡ turns_along false start finish last }
{
    [
        (start.0 + 1, start.1),
        (start.0 + 1, last),
        (finish.0 - 1, last),
        (finish.0 - 1, finish.1),
    ]
}
