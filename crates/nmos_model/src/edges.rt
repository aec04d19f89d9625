// Where the columns and rows of a frame lie in lambda.

ghost use Rattle.std.specs.Prelude.{◌≡◌, ◌<◌, pos, ◌+ℤ◌};
ghost use Rattle.nmos_model.specs.Extents.{IsNear};
ghost use Rattle.nmos_model.specs.Regions.{square_at};

use crate::raster::Frame;
use crate::refusal::{ExtractCode, ExtractFault, ReadChipFault};
use rx_text::Place;

/// The left edge of the column, in lambda.
pub(crate) fn column_edge(frame: Frame, column: u32) -> i64
    requires column { column < frame.width }
    requires near { IsNear frame }
    ensures { result ≡ frame.x +ℤ pos column }
{
    frame.x + i64::from(column)
}

/// The lower edge of the row, in lambda.
pub(crate) fn row_edge(frame: Frame, row: u32) -> i64
    requires row { row < frame.height }
    requires near { IsNear frame }
    ensures { result ≡ frame.y +ℤ pos row }
{
    frame.y + i64::from(row)
}

/// The fault at the square of the column and row.
pub(crate) fn refusal_at(code: ExtractCode, frame: Frame, column: u32, row: u32) -> ReadChipFault
    requires column { column < frame.width }
    requires row { row < frame.height }
    requires near { IsNear frame }
    ensures { result ≡ ReadChipFault.Fault (record { code = code; place = square_at frame column row }) }
{
    ReadChipFault::Fault(ExtractFault {
        code,
        place: Place::Square {
            x: column_edge(frame, column),
            y: row_edge(frame, row),
        },
    })
}
