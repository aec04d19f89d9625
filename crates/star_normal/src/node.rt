// Nodes of a normal form as entries of a table.

/// What a node is. Its parts are numbers in the table of nodes.
#[derive(Clone, Copy, Debug, PartialEq, Eq)]
pub enum NodeKind {
    /// The symbol with this number.
    Leaf(u8),
    /// The left part, then the right one.
    Seq {
        /// The node of the left part.
        left: u32,
        /// The node of the right part.
        right: u32,
    },
    /// One of the two parts.
    Alt {
        /// The node of the left part.
        left: u32,
        /// The node of the right part.
        right: u32,
    },
}

/// A node. Bit i of a mask stands for output i.
#[derive(Clone, Copy, Debug, PartialEq, Eq)]
pub struct Node {
    /// What it is, loop, empty word and marks aside.
    pub kind: NodeKind,
    /// Whether it is repeated, any number of times but at least once.
    pub loops: bool,
    /// Whether it spells the empty word.
    pub eps: bool,
    /// Whether its words may begin at any time.
    pub scan: bool,
    /// The outputs that it marks at each of its words that is not empty.
    pub marks: u16,
    /// The outputs that it marks at the empty word, wherever it or a further turn of it may begin.
    pub eps_marks: u16,
}
