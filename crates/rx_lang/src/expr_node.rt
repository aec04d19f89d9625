// Expressions as entries of a table.

/// A node of an expression. Its children are numbers in the table of nodes.
#[derive(Clone, Copy, Debug, PartialEq, Eq)]
pub enum ExprNode {
    /// The symbol with this number.
    Leaf(u8),
    /// The first expression, then the second.
    Seq(u32, u32),
    /// One of the two expressions.
    Alt(u32, u32),
    /// The expression any number of times.
    Star(u32),
    /// The expression at least once.
    Plus(u32),
    /// The expression or nothing.
    Opt(u32),
    /// The expression, at whose end the output with this number is marked.
    Mark(u32, u8),
    /// The expression at least and at most so many times.
    Repeat(u32, u8, u8),
}
