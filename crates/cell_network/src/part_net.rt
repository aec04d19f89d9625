// The nets of a part by name.

/// A net of a part by what it carries. The first six are wires that the part shares with its neighbours; the others are
/// the part's own.
#[derive(Clone, Copy, Debug, PartialEq, Eq)]
pub enum PartNet {
    /// High where the vector matches the symbol.
    Symbol(u8),
    /// Low where some node marks the output.
    Shared(u8),
    /// High where a prefix leads to the node.
    In,
    /// High where a word of the node that is not empty has just ended.
    Out,
    /// The reset.
    Reset,
    /// The high supply.
    Vdd,
    /// The complement of `Begins`.
    NotBegins,
    /// High where the node begins, or a further turn of it does. It is IN of the left part.
    Begins,
    /// The complement of a leaf's symbol.
    NotSymbol,
    /// What a leaf stores.
    Data,
    /// The first storage node of a register, behind PHI1.
    Master,
    /// The complement of the first storage node.
    Inverse,
    /// The second storage node of a register, behind PHI2: the complement of the register.
    Stored,
    /// OUT of the left part.
    LeftOut,
    /// IN of the right part.
    RightIn,
    /// OUT of the right part.
    RightOut,
    /// The complement of IN of the right part.
    NotRight,
    /// The complement of OUT.
    NotOut,
    /// An input line.
    Line(u8),
    /// The complement of an input line.
    Complement(u8),
    /// An output.
    Output(u8),
}
