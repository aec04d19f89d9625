// What a block is made of.

use block_grid::BlockKind;

/// What a block is made of: bundles alone, or the part of a leaf, of a node with two parts, of which the left one may be the light
/// one, or of the frame.
#[derive(Clone, Copy, Debug, PartialEq, Eq)]
pub enum Form {
    Wires(BlockKind),
    Leaf,
    Pair(bool),
    Frame,
}
