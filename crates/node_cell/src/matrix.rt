// The matrix of a part in its block.

ghost use Rattle.std.specs.Prelude.{◌≡◌, ◌≤◌, ◌^◌, IfOk};
ghost use Rattle.cell_network.specs.Home.{AreFew};
ghost use Rattle.node_cell.specs.Made.{FitsBlock, matrix_of, net_cols};

use crate::lines::{block_side, part_rows};
use cell_network::Counts;
use gate_matrix::Matrix;
use gate_matrix::part_rows::part_rows as rows_of;
use nor_net::Part;
use rx_text::NoMemory;
use std::alloc::Global;

/// The matrix of a part, each net in the column of its number.
pub(crate) fn matrix_of(alloc: Global, counts: Counts, part: &Part) -> Result<Matrix, NoMemory>
    requires few { AreFew counts }
    requires fits { FitsBlock counts part.now }
    ensures { IfOk result (λ matrix. matrix ≡ matrix_of counts part.now) }
{
    let at = net_cols(alloc, part.nets())?;
    let rows = rows_of(alloc, part, part_rows(counts))?;
    Matrix::new(alloc, rows, at, block_side(counts))
}

/// The columns of so many nets.
fn net_cols(alloc: Global, nets: u32) -> Result<Vec<u32>, NoMemory>
    requires { nets ≤ 2 ^ 20 }
    ensures { IfOk result (λ cols. cols.items ≡ net_cols nets) }
{
    let mut cols = Vec::new(alloc);
    for net in 0..nets {
        cols.push(2 + 2 * net)?;
    }
    Ok(cols)
}
