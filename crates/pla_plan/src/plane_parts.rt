// What the tiles of an array are made of.

ghost use Rattle.std.specs.Prelude.{◌≡◌, ◌<◌, ◌+◌, ◌^◌, ◌≤◌, ◌%◌, ◌-◌, ◌||◌, length, map, nat_lt, IfOk};
ghost use Rattle.std.specs.List.{range_with_len};
ghost use Rattle.pla_plan.specs.Planes.{left_places, left_plane, right_places, right_plane, right_from, is_sum_column, cap_in, cap, lower_matrix};

use crate::plane_rows::{left_rows, right_rows};
use crate::planes::Planes;
use gate_matrix::column::columns_of;
use gate_matrix::part_rows::part_rows;
use gate_matrix::{Column, Matrix};
use micro_tiles::Basic;
use rx_text::NoMemory;
use std::alloc::Global;

/// The left plane.
pub(crate) fn left_matrix(alloc: Global, planes: &Planes) -> Result<Matrix, NoMemory>
    ensures { IfOk result (λ matrix. matrix ≡ left_plane planes.now) }
{
    let at = left_places(alloc, planes.left() + 2)?;
    let rows = left_rows(alloc, planes)?;
    Matrix::new(alloc, rows, at, planes.right_from())
}

/// The right plane before it is laid on its side.
pub(crate) fn right_matrix(alloc: Global, planes: &Planes) -> Result<Matrix, NoMemory>
    ensures { IfOk result (λ matrix. matrix ≡ right_plane planes.now) }
{
    let at = right_places(alloc, planes.terms().len() as u32)?;
    let rows = right_rows(alloc, planes)?;
    Matrix::new(alloc, rows, at, planes.plane_rows())
}

/// The part below the planes.
pub(crate) fn lower_matrix(alloc: Global, planes: &Planes) -> Result<Matrix, NoMemory>
    ensures { IfOk result (λ matrix. matrix ≡ lower_matrix planes.now) }
{
    let height = planes.rows() - planes.plane_rows() - 1;
    let at = Vec::from_slice(alloc, planes.at())?;
    let rows = part_rows(alloc, planes.part(), height)?;
    Matrix::new(alloc, rows, at, planes.cols())
}

/// The columns of so many nets, two for each behind those of loads.
fn left_places(alloc: Global, nets: u32) -> Result<Vec<u32>, NoMemory>
    requires { nets ≤ 2 ^ 20 }
    ensures { IfOk result (λ places. places.items ≡ left_places nets) }
{
    let mut places = Vec::new(alloc);
    for net in 0..nets {
        places.push(2 + 2 * net)?;
    }
    Ok(places)
}

/// The columns of the right plane's nets before it is laid on its side: the high supply, so many terms, and the ground.
fn right_places(alloc: Global, terms: u32) -> Result<Vec<u32>, NoMemory>
    requires { terms ≤ 2 ^ 20 }
    ensures { IfOk result (λ places. places.items ≡ right_places terms) }
{
    let mut places = Vec::new(alloc);
    places.push(2)?;
    for term in 0..terms {
        places.push(6 + 5 * term)?;
    }
    places.push(4 + 5 * terms)?;
    Ok(places)
}

/// The row between the planes and the part.
pub(crate) fn caps(alloc: Global, planes: &Planes) -> Result<Vec<Basic>, NoMemory>
    ensures { IfOk result (λ caps. caps.items ≡ map (cap planes.now) (range_with_len 0 planes.now.cols)) }
{
    let columns = columns_of(alloc, planes.at(), planes.cols())?;
    let mut caps = Vec::new(alloc);
    for col in 0..planes.cols() {
        caps.push(cap_in(columns[col as usize], is_fed(planes, col)))?;
    }
    Ok(caps)
}

/// The poly of a net, which comes from above or begins.
fn cap_in(column: Column, fed: bool) -> Basic
    ensures { result ≡ cap_in column fed }
{
    match (column, fed) {
        (Column::Wire(_), true) => Basic::PolyNorthSouth,
        (Column::Wire(_), false) => Basic::PolySouth,
        _ => Basic::Empty,
    }
}

/// Whether poly of the planes would come down in this column: that of the left plane's nets, or of a sum.
fn is_fed(planes: &Planes, col: u32) -> bool
    ensures { result ≡ (nat_lt col (right_from planes.now) || is_sum_column planes.now col) }
{
    let from = planes.right_from();
    let end = from + 8 * planes.sums().len() as u32;
    col < from || (col < end && (col - from) % 8 == 2)
}
