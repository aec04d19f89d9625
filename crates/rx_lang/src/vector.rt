// Input vectors in a small value.

/// An input vector: bit i of `bits`, counted from the lowest, is the bit of line i.
#[derive(Clone, Copy, Debug, PartialEq, Eq)]
pub struct Vector {
    pub bits: u16,
}
