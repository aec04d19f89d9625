// Rows and columns by the number of the tile, where tiles are counted row by row.

ghost use Rattle.std.specs.Prelude.{◌≡◌, ◌+◌, ◌*◌, ◌^◌, ◌<◌};

/// The row and the column of a tile.
#[derive(Clone, Copy, Debug, PartialEq, Eq)]
pub(crate) struct Place {
    pub row: u32,
    pub col: u32,
}

/// The place of the tile that has so many before it, where a row has so many columns.
pub(crate) fn place_of(before: usize, cols: u32) -> Place
    requires { before < 2 ^ 20 * cols }
    ensures number { result.row * cols + result.col ≡ before }
    ensures is_col { result.col < cols }
{
    Place {
        row: (before / cols as usize) as u32,
        col: (before % cols as usize) as u32,
    }
}
