// Patterns over the input lines.

/// One place of a pattern: the bit that a line must have there, if any.
#[derive(Clone, Copy, Debug, Default, PartialEq, Eq)]
pub enum PatternBit {
    Zero,
    One,
    #[default]
    Any,
}
