// The rows of a gate matrix, and the tile that a row has in a column.

ghost use Rattle.std.specs.Prelude.{◌≡◌, IfOk};
ghost use Rattle.gate_matrix.specs.Cells.{cell, is_gated, load_cell, gate_cell, wire_cell, device_cell, metal_cell};

use crate::column::Column;
use crate::gated::Gated;
use micro_tiles::Basic;
use rx_text::NoMemory;
use std::alloc::Global;
use std::marker::Model;

/// The rows of a group, from the north: metal of the high supply, a load, and metal of the net that it pulls up; or metal, devices,
/// and metal again. `Start`, `Through` and `Stop` rows only begin, carry on and end the poly of the nets.
#[derive(Clone, Copy, Debug, PartialEq, Eq)]
pub enum RowKind {
    Start,
    Through,
    Stop,
    Vdd,
    Load,
    Out,
    Top,
    Middle,
    Bottom,
}

/// A row: its kind, the net of its metal, where it has metal, the nets that gate the devices of its group, and whether its metal
/// goes on to the east in poly.
#[derive(Drop)]
pub struct Row {
    pub kind: RowKind,
    pub metal: u32,
    pub gated: Gated,
    pub onward: bool,
}

impl Model for Row {
    ghost use Rattle.gate_matrix.specs.Rows.{MatrixRow};

    ghost Value = { MatrixRow };

    ghost view = { λ r. record { kind = r.kind; metal = r.metal; gated = r.gated; onward = r.onward } };
}

impl Row {
    /// A row of this kind, metal and group, whose metal goes on to the east or not.
    pub fn new(
        alloc: Global,
        kind: RowKind,
        metal: u32,
        gated: &[u32],
        onward: bool,
    ) -> Result<Row, NoMemory>
        ensures { IfOk result (λ row. row ≡ record { kind = kind; metal = metal; gated = gated.now; onward = onward }) }
    {
        let gated = Gated::new(alloc, gated)?;
        Ok(Row {
            kind,
            metal,
            gated,
            onward,
        })
    }
}

/// The tile that the row has in the column, which is the last or not.
pub fn cell(row: &Row, column: Column, last: bool) -> Basic
    ensures { result ≡ cell row.now column last }
{
    match column {
        Column::Load => load_cell(row.kind),
        Column::Gate => gate_cell(row.kind),
        Column::Wire(net) => wire_cell(row.kind, row.metal == net, is_gated(row, net)),
        Column::Device(net) => device_cell(row.kind, is_gated(row, net), last, row.onward),
        Column::Free => device_cell(row.kind, false, last, row.onward),
    }
}

/// Whether the net gates a device of the row's group.
fn is_gated(row: &Row, net: u32) -> bool
    ensures { result ≡ is_gated row.now.gated net }
{
    row.gated.has(net)
}

/// The tile in the column of loads.
fn load_cell(kind: RowKind) -> Basic
    ensures { result ≡ load_cell kind }
{
    match kind {
        RowKind::Vdd => Basic::EastToDiffusionSouth,
        RowKind::Load => Basic::Load,
        RowKind::Out => Basic::EastToDiffusionNorth,
        RowKind::Top | RowKind::Bottom => Basic::MetalEast,
        RowKind::Start | RowKind::Through | RowKind::Stop | RowKind::Middle => Basic::Empty,
    }
}

/// The tile in the column of the loads' gates.
fn gate_cell(kind: RowKind) -> Basic
    ensures { result ≡ gate_cell kind }
{
    match kind {
        RowKind::Load => Basic::PolySouthWest,
        RowKind::Out => Basic::EastWestToPolyNorth,
        RowKind::Vdd | RowKind::Top | RowKind::Bottom => Basic::MetalEastWest,
        RowKind::Start | RowKind::Through | RowKind::Stop | RowKind::Middle => Basic::Empty,
    }
}

/// The tile in the column of a net's poly, which the metal of the row meets where it is of this net.
fn wire_cell(kind: RowKind, meets: bool, gated: bool) -> Basic
    ensures { result ≡ wire_cell kind meets gated }
{
    match kind {
        RowKind::Start => Basic::PolySouth,
        RowKind::Stop => Basic::PolyNorth,
        RowKind::Through | RowKind::Load => Basic::PolyNorthSouth,
        RowKind::Middle => {
            if gated {
                Basic::PolyNorthEastSouth
            } else {
                Basic::PolyNorthSouth
            }
        }
        RowKind::Vdd | RowKind::Out | RowKind::Top | RowKind::Bottom => {
            if meets {
                Basic::EastWestToPolyNorthSouth
            } else {
                Basic::Crossing
            }
        }
    }
}

/// The tile in the column behind a net's poly, which has a device where the net gates one.
fn device_cell(kind: RowKind, gated: bool, last: bool, onward: bool) -> Basic
    ensures { result ≡ device_cell kind gated last onward }
{
    match kind {
        RowKind::Out | RowKind::Top if gated => {
            if last {
                Basic::WestToDiffusionSouth
            } else {
                Basic::EastWestToDiffusionSouth
            }
        }
        RowKind::Bottom if gated => {
            if last {
                Basic::WestToDiffusionNorth
            } else {
                Basic::EastWestToDiffusionNorth
            }
        }
        RowKind::Middle if gated => Basic::Pass,
        RowKind::Vdd | RowKind::Out | RowKind::Top | RowKind::Bottom => metal_cell(last, onward),
        RowKind::Start | RowKind::Through | RowKind::Stop | RowKind::Load | RowKind::Middle => {
            Basic::Empty
        }
    }
}

/// The metal of a row, which ends in the last column, or goes on to the east in poly.
fn metal_cell(last: bool, onward: bool) -> Basic
    ensures { result ≡ metal_cell last onward }
{
    match (last, onward) {
        (false, _) => Basic::MetalEastWest,
        (true, false) => Basic::MetalWest,
        (true, true) => Basic::WestToPolyEast,
    }
}
