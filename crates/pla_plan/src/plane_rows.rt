// The rows of the two planes.

ghost use Rattle.std.specs.Prelude.{◌≡◌, ◌+◌, ◌-◌, ◌≤◌, ◌<◌, ◌^◌, ◌++◌, ◌∷◌, [], length, map, All, IfOk, OnOk};
ghost use Rattle.gate_matrix.specs.declared.row.RowKind.TheVariants.{Top};
ghost use Rattle.gate_matrix.specs.Rows.{blank_row};
ghost use Rattle.pla_plan.specs.Fits.{IsPlaneGate};
ghost use Rattle.pla_plan.specs.Planes.{onward_row, open_gate_rows, left_rows, rows_of_terms, rows_of_sum, rows_of_sums};

use crate::planes::Planes;
use gate_matrix::part_rows::closed_row;
use gate_matrix::{Row, RowKind};
use nor_net::Gate;
use rx_text::NoMemory;
use std::alloc::Global;

/// A row whose metal goes on to the east in poly.
fn onward_row(alloc: Global, kind: RowKind, metal: u32, gated: &[u32]) -> Result<Row, NoMemory>
    ensures { IfOk result (λ row. row ≡ onward_row kind metal gated.now) }
{
    Row::new(alloc, kind, metal, gated, true)
}

/// A row that only carries the poly of the nets on.
fn blank_row(alloc: Global) -> Result<Row, NoMemory>
    ensures { IfOk result (λ row. row ≡ blank_row) }
{
    closed_row(alloc, RowKind::Through, 0, &[])
}

/// Adds the metal of a supply, which goes on to the east, and a row below it.
fn add_supply(alloc: Global, rows: &mut Vec<Row>, supply: u32) -> Result<(), NoMemory>
    ensures { OnOk result (rows.new.items ≡ rows.old.items ++ onward_row Top supply [] ∷ blank_row ∷ []) }
{
    rows.push(onward_row(alloc, RowKind::Top, supply, &[])?)?;
    rows.push(blank_row(alloc)?)?;
    Ok(())
}

/// Adds a gate with its load, whose output goes on to the east. The high supply is net 0.
fn add_open_gate(
    alloc: Global,
    rows: &mut Vec<Row>,
    gnd: u32,
    out: u32,
    gated: &[u32],
) -> Result<(), NoMemory>
    ensures { OnOk result (rows.new.items ≡ rows.old.items ++ open_gate_rows gnd out gated.now) }
{
    rows.push(closed_row(alloc, RowKind::Vdd, 0, &[])?)?;
    rows.push(closed_row(alloc, RowKind::Load, 0, &[])?)?;
    rows.push(onward_row(alloc, RowKind::Out, out, gated)?)?;
    rows.push(closed_row(alloc, RowKind::Middle, 0, gated)?)?;
    rows.push(closed_row(alloc, RowKind::Bottom, gnd, gated)?)?;
    Ok(())
}

/// The rows of the left plane: the metal of the high supply, five rows for each term, and the metal of the ground.
pub(crate) fn left_rows(alloc: Global, planes: &Planes) -> Result<Vec<Row>, NoMemory>
    ensures { IfOk result (λ rows. rows.items ≡ left_rows planes.now) }
{
    let gnd = planes.left() + 1;
    let mut rows = Vec::new(alloc);
    rows.push(closed_row(alloc, RowKind::Start, 0, &[])?)?;
    rows.push(blank_row(alloc)?)?;
    add_supply(alloc, &mut rows, 0)?;
    add_terms(alloc, &mut rows, gnd, planes.terms())?;
    add_supply(alloc, &mut rows, gnd)?;
    rows.push(blank_row(alloc)?)?;
    Ok(rows)
}

/// Adds the rows of all terms, whose outputs are the nets behind the ground.
fn add_terms(alloc: Global, rows: &mut Vec<Row>, gnd: u32, terms: &[Gate]) -> Result<(), NoMemory>
    requires { gnd + length terms.now < 2 ^ 31 }
    ensures { OnOk result (rows.new.items ≡ rows.old.items ++ rows_of_terms gnd (gnd + 1) terms.now) }
{
    for number in 0..terms.len() {
        add_open_gate(
            alloc,
            rows,
            gnd,
            gnd + 1 + number as u32,
            terms[number].inputs(),
        )?;
    }
    Ok(())
}

/// The rows of the right plane before it is laid on its side: eight for each sum, of which the very last ends the nets.
pub(crate) fn right_rows(alloc: Global, planes: &Planes) -> Result<Vec<Row>, NoMemory>
    ensures { IfOk result (λ rows. rows.items ≡ rows_of_sums planes.now (length planes.now.terms + 2) planes.now.sums) }
{
    let sums = planes.sums();
    let first = planes.terms().len() as u32 + 2;
    let mut rows = Vec::new(alloc);
    for number in 0..sums.len() {
        add_sum(
            alloc,
            &mut rows,
            planes,
            first + number as u32,
            &sums[number],
            number + 1 == sums.len(),
        )?;
    }
    Ok(rows)
}

/// Adds the rows of a sum, which is the last or not.
fn add_sum(
    alloc: Global,
    rows: &mut Vec<Row>,
    planes: &Planes,
    out: u32,
    sum: &Gate,
    last: bool,
) -> Result<(), NoMemory>
    requires { IsPlaneGate planes.now.part.nets (planes.now.part.nets + length planes.now.terms) sum.now }
    ensures { OnOk result (rows.new.items ≡ rows.old.items ++ rows_of_sum planes.now out sum.now last) }
{
    let gnd = planes.terms().len() as u32 + 1;
    let gated = plane_nets(alloc, planes.part().nets(), sum.inputs())?;
    add_open_gate(alloc, rows, gnd, out, &gated)?;
    rows.push(blank_row(alloc)?)?;
    rows.push(blank_row(alloc)?)?;
    rows.push(closed_row(
        alloc,
        if last {
            RowKind::Stop
        } else {
            RowKind::Through
        },
        0,
        &[],
    )?)?;
    Ok(())
}

/// The nets of terms as nets of the right plane, in which the first term comes behind the high supply.
fn plane_nets(alloc: Global, first: u32, terms: &[u32]) -> Result<Vec<u32>, NoMemory>
    requires { All (λ net. (first ≤ net) × (net < first + 2 ^ 20)) terms.now }
    ensures { IfOk result (λ nets. nets.items ≡ map (λ net. net - first + 1) terms.now) }
{
    let mut nets = Vec::new(alloc);
    for net in terms {
        nets.push(*net - first + 1)?;
    }
    Ok(nets)
}
