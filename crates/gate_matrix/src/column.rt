// What the columns of a gate matrix hold.

ghost use Rattle.std.specs.Prelude.{◌≡◌, ◌≤◌, ◌<◌, ◌+◌, map, length, replicate, slice_set, IfOk};
ghost use Rattle.std.specs.List.{range_with_len};
ghost use Rattle.gate_matrix.specs.declared.column.Column.TheVariants.{Load, Gate, Wire, Device, Free};
ghost use Rattle.gate_matrix.specs.Columns.{column_of, AreWires};

use rx_text::NoMemory;
use std::alloc::Global;

/// What a column holds: loads, the gates of loads, the poly of a net, the devices that the net gates, or nothing but the metal
/// of rows.
#[derive(Clone, Copy, Debug, PartialEq, Eq)]
pub enum Column {
    Load,
    Gate,
    Wire(u32),
    Device(u32),
    Free,
}

/// The columns of a matrix whose nets have their poly in the columns `at`.
pub fn columns_of(alloc: Global, at: &[u32], cols: u32) -> Result<Vec<Column>, NoMemory>
    requires { AreWires at.now cols }
    ensures { IfOk result (λ columns. columns.items ≡ map (column_of at.now) (range_with_len 0 cols)) }
{
    let mut columns = load_columns(alloc, cols)?;
    for net in 0..at.len() {
        place_wire(&mut columns, at[net], net as u32);
    }
    Ok(columns)
}

/// The columns of loads, and free columns behind them.
fn load_columns(alloc: Global, cols: u32) -> Result<Vec<Column>, NoMemory>
    requires { 2 ≤ cols }
    ensures { IfOk result (λ columns. columns.items ≡ slice_set (slice_set (replicate cols Free) 0 Load) 1 Gate) }
{
    let mut columns = vec![in alloc; Column::Free; cols as usize]?;
    columns[0] = Column::Load;
    columns[1] = Column::Gate;
    Ok(columns)
}

/// Puts the net into its column, and its devices into the column behind.
fn place_wire(columns: &mut Vec<Column>, at: u32, net: u32)
    requires { at + 1 < length columns.old.items }
    ensures { columns.new.items ≡ slice_set (slice_set columns.old.items at (Wire net)) (at + 1) (Device net) }
{
    columns[at as usize] = Column::Wire(net);
    columns[at as usize + 1] = Column::Device(net);
}
