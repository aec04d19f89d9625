// The kinds of blocks.

/// The two sides that a corner joins.
#[derive(Clone, Copy, Debug, PartialEq, Eq)]
pub enum Turn {
    NorthEast,
    NorthWest,
    SouthEast,
    SouthWest,
}

/// What a block holds.
#[derive(Clone, Copy, Debug, PartialEq, Eq)]
pub enum BlockKind {
    /// Nothing.
    Empty,
    /// A bundle from west to east.
    Horizontal,
    /// A bundle from north to south.
    Vertical,
    /// Both of these, which do not touch.
    Cross,
    /// A bundle that turns.
    Corner(Turn),
    /// The node with this number.
    Node(u32),
    /// The frame, by its number.
    Frame(u32),
}
