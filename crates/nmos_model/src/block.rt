// Blocks: rectangles of squares in a frame, the lines of squares next to them, and channel regions that are blocks.

ghost use Rattle.std.specs.Prelude.{◌≡◌, ◌<◌, ◌+◌, ◌^◌};
ghost use Rattle.nmos_model.specs.Regions.{above_and_below, left_and_right};

use crate::raster::Stretch;

/// The squares in these columns and rows.
#[derive(Clone, Copy, Debug, PartialEq, Eq)]
pub(crate) struct Block {
    pub columns: Stretch,
    pub rows: Stretch,
}

/// Two lines of squares on opposite sides of a block.
#[derive(Clone, Copy, Debug, PartialEq, Eq)]
pub(crate) struct Lines {
    pub one: Block,
    pub other: Block,
}

/// A block of channel squares.
#[derive(Clone, Copy, Debug, PartialEq, Eq)]
pub(crate) struct Region {
    pub block: Block,
    /// It lies under implant.
    pub depletion: bool,
}

impl Block {
    /// The lines above and below the block.
    pub(crate) fn above_and_below(self) -> Lines
        requires below { 0 < self.rows.from }
        requires above { self.rows.to + 1 < 2 ^ 32 }
        ensures { result ≡ above_and_below self }
    {
        Lines {
            one: self.with_rows(self.rows.to, self.rows.to + 1),
            other: self.with_rows(self.rows.from - 1, self.rows.from),
        }
    }

    /// The lines to the left and right of the block.
    pub(crate) fn left_and_right(self) -> Lines
        requires left { 0 < self.columns.from }
        requires right { self.columns.to + 1 < 2 ^ 32 }
        ensures { result ≡ left_and_right self }
    {
        Lines {
            one: self.with_columns(self.columns.from - 1, self.columns.from),
            other: self.with_columns(self.columns.to, self.columns.to + 1),
        }
    }

    /// The squares in the same columns and these rows.
    fn with_rows(self, from: u32, to: u32) -> Block
        ensures { result ≡ record { columns = self.columns; rows = record { from = from; to = to } } }
    {
        Block {
            columns: self.columns,
            rows: Stretch { from, to },
        }
    }

    /// The squares in these columns and the same rows.
    fn with_columns(self, from: u32, to: u32) -> Block
        ensures { result ≡ record { columns = record { from = from; to = to }; rows = self.rows } }
    {
        Block {
            columns: Stretch { from, to },
            rows: self.rows,
        }
    }
}
