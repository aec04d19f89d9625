// The kinds of all blocks of a sheet at once.

ghost use Rattle.std.specs.Prelude.{◌≡◌, ℕ, ◌+◌, ◌*◌, ◌<◌, ◌≤◌, ◌^◌, ◌++◌, Some, nat_lt, length, map, slice_get, All, IfOk, OnOk};
ghost use Rattle.std.specs.List.{list_any, range_with_len};
ghost use Rattle.std.specs.Option.{option_map_or};
ghost use Rattle.block_grid.specs.Raster.{AreKinds, LiesIn, Tells, wire_at};
ghost use Rattle.block_grid.specs.Sheets.{IsSheet, node_kind, node_on, north_of, west_of};
ghost use Rattle.block_grid.specs.declared.kind.BlockKind.{BlockKind};

use crate::blocks::wire_kind;
use crate::edge::Edge;
use crate::kind::BlockKind;
use crate::standing::Standing;
use rx_text::NoMemory;
use std::alloc::Global;

/// For each border between rows, and for the rims, whether an edge crosses it: as many for each row as there are columns.
fn norths(alloc: Global, rows: u32, cols: u32, edges: &[Edge]) -> Result<Vec<bool>, NoMemory>
    requires few_rows { rows ≤ 2 ^ 20 }
    requires few_cols { cols ≤ 2 ^ 20 }
    requires inside { All (LiesIn rows cols) edges.now }
    ensures size { IfOk result (λ marks. length marks.items ≡ (rows + 1) * cols) }
    ensures tells { IfOk result (λ marks. Tells cols marks.items (rows + 1) (λ row col. list_any (λ e. nat_lt 0 (north_of e row col)) edges.now)) }
{
    let mut marks = vec![in alloc; false; (rows as usize + 1) * cols as usize]?;
    for edge in edges {
        edge.mark_norths(&mut marks, cols as usize);
    }
    Ok(marks)
}

/// For each border between columns, and for the rims, whether an edge crosses it: as many for each column as there are rows.
fn wests(alloc: Global, rows: u32, cols: u32, edges: &[Edge]) -> Result<Vec<bool>, NoMemory>
    requires few_rows { rows ≤ 2 ^ 20 }
    requires few_cols { cols ≤ 2 ^ 20 }
    requires inside { All (LiesIn rows cols) edges.now }
    ensures size { IfOk result (λ marks. length marks.items ≡ (cols + 1) * rows) }
    ensures tells { IfOk result (λ marks. Tells rows marks.items (cols + 1) (λ col row. list_any (λ e. nat_lt 0 (west_of e row col)) edges.now)) }
{
    let mut marks = vec![in alloc; false; (cols as usize + 1) * rows as usize]?;
    for edge in edges {
        edge.mark_wests(&mut marks, rows as usize);
    }
    Ok(marks)
}

/// The kinds of all blocks, row by row.
pub(crate) fn kinds(
    alloc: Global,
    rows: u32,
    cols: u32,
    nodes: &[Standing],
    edges: &[Edge],
) -> Result<Vec<BlockKind>, NoMemory>
    requires { IsSheet (record { rows = rows; cols = cols; nodes = nodes.now; edges = edges.now }) }
    ensures { IfOk result (λ kinds. AreKinds (record { rows = rows; cols = cols; nodes = nodes.now; edges = edges.now }) kinds.items) }
{
    let norths = norths(alloc, rows, cols, edges)?;
    let wests = wests(alloc, rows, cols, edges)?;
    let mut kinds = Vec::with_capacity(alloc, rows as usize * cols as usize)?;
    for row in 0..rows as usize {
        add_row(
            &mut kinds,
            &norths,
            &wests,
            rows as usize,
            cols as usize,
            row,
        )?;
    }
    put_nodes(&mut kinds, nodes, cols as usize);
    Ok(kinds)
}

/// Adds the wire blocks of a row.
fn add_row(
    kinds: &mut Vec<BlockKind>,
    norths: &[bool],
    wests: &[bool],
    rows: usize,
    cols: usize,
    row: usize,
) -> Result<(), NoMemory>
    requires norths { (row + 2) * cols ≤ length norths.now }
    requires wests { (cols + 1) * rows ≤ length wests.now }
    requires row { row < rows }
    requires few_rows { rows ≤ 2 ^ 20 }
    requires few_cols { cols ≤ 2 ^ 20 }
    ensures { OnOk result (kinds.new.items ≡ kinds.old.items ++ map (wire_at norths.now wests.now rows cols row) (range_with_len 0 cols)) }
{
    for col in 0..cols {
        kinds.push(wire_kind(
            norths[row * cols + col],
            norths[(row + 1) * cols + col],
            wests[col * rows + row],
            wests[(col + 1) * rows + row],
        ))?;
    }
    Ok(())
}

/// Puts the nodes into their places, the first one last.
fn put_nodes(kinds: &mut [BlockKind], nodes: &[Standing], cols: usize)
    requires { All (λ node. (node.col < cols) × ((node.row + 1) * cols ≤ length kinds.old)) nodes.now }
    ensures size { length kinds.new ≡ length kinds.old }
    ensures nodes { (r c : ℕ) (k : BlockKind) → c < cols → slice_get kinds.old (r * cols + c) ≡ Some k
        → slice_get kinds.new (r * cols + c) ≡ Some (option_map_or node_kind (node_on nodes.now r c) k) }
{
    let count = nodes.len();
    for put in 0..count {
        let node = nodes[count - 1 - put];
        kinds[node.row as usize * cols + node.col as usize] = node.kind();
    }
}
