// The two kinds of edges of a tree of blocks.

/// Whether an edge goes to a light or to a heavy child.
#[derive(Clone, Copy, Debug, PartialEq, Eq)]
pub enum EdgeRole {
    /// It leaves its parent by the south port.
    Light,
    /// It leaves its parent by the east port.
    Heavy,
}
