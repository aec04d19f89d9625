// What can be wrong with a CIF text.

/// Why a CIF text is refused. Where nothing else is said it stands at the first byte of a command.
#[derive(Clone, Copy, Debug, PartialEq, Eq)]
pub enum CifCode {
    /// Syntax: no command goes on with this byte, or a number of a scale is 0. It stands at the byte, or the number.
    C1,
    /// A short name is that of no layer.
    C2,
    /// A shape is drawn where no layer is set.
    C3,
    /// A symbol is called that no closed definition before defines.
    C4,
    /// A symbol is defined again.
    C5,
    /// A definition opens inside another, `DF` stands outside definitions, or `E` inside one.
    C6,
    /// An edge, a point or a translation is off the grid of lambda.
    C7,
    /// A number, an edge or a translation is too far from 0.
    C8,
    /// A shape, a direction or a command is outside the profile.
    C9,
    /// The text ends before `E`. It stands at the end.
    C10,
    /// A byte that is no blank stands behind `E`. It stands at that byte.
    C11,
    /// A label is malformed.
    C12,
    /// More than 8,000,000 boxes are drawn.
    C13,
    /// A call makes a chain of more than 64 calls.
    C14,
    /// A polygon or a wire has more than 4,096 points.
    C15,
}
