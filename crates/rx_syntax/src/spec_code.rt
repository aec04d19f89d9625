// What can be wrong with the text of a specification.

/// What is wrong with the text of a specification.
#[derive(Clone, Copy, Debug, PartialEq, Eq)]
pub enum SpecCode {
    /// BadByte: a byte begins no token, blank or comment.
    S1,
    /// BadToken: no specification goes on with this token, or ends here.
    S2,
    /// UnknownName: a name in an expression is no symbol, or after `!` no output.
    S3,
    /// DoubleName: a name was declared before.
    S4,
    /// PatternLength: a pattern has not as many places as there are lines.
    S5,
    /// NoLines: a later section or the end comes where the first `line` is due.
    S6,
    /// NoSymbols: a later section or the end comes where the first `symbol` is due.
    S7,
    /// NoOutputs: a later section or the end comes where the first `output` is due.
    S8,
    /// NoExpression: the end comes where the first `expr` is due, or in version 2 the first `expr` or `scan`.
    S9,
    /// TooManyLines: more than 16 lines.
    S10,
    /// TooManySymbols: more than 32 symbols.
    S11,
    /// TooManyOutputs: more than 16 outputs.
    S12,
    /// TooManyLeaves: more symbols in all expressions than the command allows, copies counted.
    S13,
    /// TooDeep: more than 200 parentheses are open at once.
    S14,
    /// BadBounds: a number in braces is above 255, or the second is 0 or less than the first.
    S15,
}
