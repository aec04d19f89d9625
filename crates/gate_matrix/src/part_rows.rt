// The rows in which a part is drawn.

ghost use Rattle.std.specs.Prelude.{◌≡◌, ◌≤◌, ◌-◌, ◌+◌, ◌++◌, [], ◌∷◌, flat_map, replicate, if◌then◌else◌, IfOk, OnOk};
ghost use Rattle.gate_matrix.specs.PartRows.{height_of_part, rows_of_part, rows_with, rows_of_gates, rows_of_load, rows_of_transfer};
ghost use Rattle.gate_matrix.specs.OpenLoads.{AreOpen};
ghost use Rattle.nor_net.specs.Part.{IsPart, clock_net};
ghost use Rattle.gate_matrix.specs.declared.row.RowKind.TheVariants.{Middle, Bottom};
ghost use Rattle.gate_matrix.specs.Rows.{blank_row, closed_row, load_rows, device_rows, gate_rows};

use crate::heights::needed;
use crate::open_loads::OpenLoads;
use crate::row::{Row, RowKind};
use nor_net::{Gate, Part, Transfer};
use rx_text::{NoMemory, Role};
use std::alloc::Global;

/// The rows of the part, behind those that it does not need.
pub fn part_rows(alloc: Global, part: &Part, rows: u32) -> Result<Vec<Row>, NoMemory>
    requires { height_of_part part.now ≤ rows }
    ensures rows { IfOk result (λ list. list.items ≡ replicate (rows - height_of_part part.now) blank_row ++ rows_of_part part.now) }
    ensures part { IsPart part.now }
{
    let mut list = blank_rows(alloc, rows - needed(part).0)?;
    let mut open_loads = OpenLoads::of(part);
    add_gates(alloc, part, &mut open_loads, &mut list)?;
    add_loads(alloc, part, &open_loads, &mut list)?;
    add_transfers(alloc, part, &mut list)?;
    Ok(list)
}

/// So many rows that only carry the poly of the nets on.
fn blank_rows(alloc: Global, count: u32) -> Result<Vec<Row>, NoMemory>
    ensures { IfOk result (λ list. list.items ≡ replicate count blank_row) }
{
    let mut list = Vec::new(alloc);
    for made in 0..count {
        list.push(closed_row(alloc, RowKind::Through, 0, &[])?)?;
    }
    Ok(list)
}

/// A row of this kind that goes on nowhere.
pub fn closed_row(alloc: Global, kind: RowKind, metal: u32, gated: &[u32]) -> Result<Row, NoMemory>
    ensures { IfOk result (λ row. row ≡ closed_row kind metal gated.now) }
{
    Row::new(alloc, kind, metal, gated, false)
}

/// Adds a load between the high supply and the net, and the tops of devices.
fn add_load_rows(
    alloc: Global,
    list: &mut Vec<Row>,
    vdd: u32,
    net: u32,
    gated: &[u32],
) -> Result<(), NoMemory>
    ensures { OnOk result (list.new.items ≡ list.old.items ++ load_rows vdd net gated.now) }
{
    list.push(closed_row(alloc, RowKind::Vdd, vdd, &[])?)?;
    list.push(closed_row(alloc, RowKind::Load, 0, &[])?)?;
    list.push(closed_row(alloc, RowKind::Out, net, gated)?)?;
    Ok(())
}

/// Adds devices, and the metal of a net to the south of them.
fn add_devices(
    alloc: Global,
    list: &mut Vec<Row>,
    gated: &[u32],
    bottom: u32,
) -> Result<(), NoMemory>
    ensures { OnOk result (list.new.items ≡ list.old.items ++ closed_row Middle 0 gated.now ∷ closed_row Bottom bottom gated.now ∷ []) }
{
    list.push(closed_row(alloc, RowKind::Middle, 0, gated)?)?;
    list.push(closed_row(alloc, RowKind::Bottom, bottom, gated)?)?;
    Ok(())
}

/// Adds devices between two nets of metal.
fn add_device_rows(
    alloc: Global,
    list: &mut Vec<Row>,
    top: u32,
    gated: &[u32],
    bottom: u32,
) -> Result<(), NoMemory>
    ensures { OnOk result (list.new.items ≡ list.old.items ++ device_rows top gated.now bottom) }
{
    list.push(closed_row(alloc, RowKind::Top, top, gated)?)?;
    add_devices(alloc, list, gated, bottom)
}

/// Adds the rows of all gates, each with its load where that is still open.
fn add_gates(
    alloc: Global,
    part: &Part,
    open_loads: &mut OpenLoads,
    list: &mut Vec<Row>,
) -> Result<(), NoMemory>
    requires { AreOpen part.now [] open_loads.old }
    ensures rows { OnOk result (list.new.items ≡ list.old.items ++ rows_of_gates part.now [] part.now.gates) }
    ensures taken { OnOk result (AreOpen part.now part.now.gates open_loads.new) }
{
    for gate in part.gates() {
        let loaded = open_loads.take(gate.out());
        add_gate(alloc, part, loaded, gate, list)?;
    }
    Ok(())
}

/// Adds the rows of a gate, with its load or without it.
fn add_gate(
    alloc: Global,
    part: &Part,
    loaded: bool,
    gate: &Gate,
    list: &mut Vec<Row>,
) -> Result<(), NoMemory>
    ensures { OnOk result (list.new.items ≡ list.old.items ++ rows_with part.now loaded gate.now) }
{
    let supplies = part.supplies();
    let (out, inputs) = (gate.out(), gate.inputs());
    if loaded {
        add_load_rows(alloc, list, supplies.vdd, out, inputs)?;
        add_devices(alloc, list, inputs, supplies.gnd)
    } else {
        add_device_rows(alloc, list, out, inputs, supplies.gnd)
    }
}

/// Adds the rows of the loads that no gate has.
fn add_loads(
    alloc: Global,
    part: &Part,
    open_loads: &OpenLoads,
    list: &mut Vec<Row>,
) -> Result<(), NoMemory>
    requires { AreOpen part.now part.now.gates open_loads.now }
    ensures { OnOk result (list.new.items ≡ list.old.items ++ flat_map (rows_of_load part.now) part.now.loads) }
{
    for net in part.loads() {
        add_load(alloc, part, open_loads.has(*net), *net, list)?;
    }
    Ok(())
}

/// Adds the rows of the load of the net, where it is open.
fn add_load(
    alloc: Global,
    part: &Part,
    is_open: bool,
    net: u32,
    list: &mut Vec<Row>,
) -> Result<(), NoMemory>
    ensures { OnOk result (list.new.items ≡ list.old.items ++ (if is_open then load_rows part.now.vdd net [] else [])) }
{
    if is_open {
        add_load_rows(alloc, list, part.supplies().vdd, net, &[])
    } else {
        Ok(())
    }
}

/// Adds the rows of all transfers.
fn add_transfers(alloc: Global, part: &Part, list: &mut Vec<Row>) -> Result<(), NoMemory>
    ensures { OnOk result (list.new.items ≡ list.old.items ++ flat_map (rows_of_transfer part.now) part.now.transfers) }
{
    for transfer in part.transfers() {
        let gated = [clock_net(part, transfer.clock)];
        add_device_rows(alloc, list, transfer.from, &gated, transfer.to)?;
    }
    Ok(())
}

/// The net of the clock of this role, or else of the supply.
fn clock_net(part: &Part, role: Role) -> u32
    ensures { result ≡ clock_net part.now role }
{
    let supplies = part.supplies();
    match role {
        Role::Phi1 => supplies.phi1,
        Role::Phi2 => supplies.phi2,
        Role::Vdd => supplies.vdd,
        Role::Gnd | Role::Reset | Role::Input | Role::Output => supplies.gnd,
    }
}
