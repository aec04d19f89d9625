// What a token of a specification can be.

/// What a token is. A byte that begins no token and a word that is too long for a name are kinds too, so that every
/// text has a list of tokens.
#[derive(Clone, Copy, Debug, PartialEq, Eq)]
pub enum Kind {
    /// A byte that begins no token, blank or comment.
    Bad,
    /// A word of more than 31 bytes.
    Long,
    /// A name.
    Name,
    /// A run of `0` and `1`, which is a pattern and a number.
    Bits,
    /// A run of `0`, `1` and `-` that is no number.
    Pattern,
    /// A run of digits that is no pattern.
    Number,
    /// A run of digits and `-` that is neither a pattern nor a number.
    Run,
    /// The keyword `line`.
    Line,
    /// The keyword `symbol`.
    Symbol,
    /// The keyword `output`.
    Output,
    /// The keyword `expr`.
    Expr,
    /// The keyword `scan`, in version 2.
    Scan,
    /// The sign `|`.
    Bar,
    /// The sign `*`.
    Star,
    /// The sign `+`.
    Plus,
    /// The sign `?`.
    Question,
    /// The sign `!`.
    Mark,
    /// The sign `(`.
    Open,
    /// The sign `)`.
    Close,
    /// The sign `=`.
    Equals,
    /// The sign `;`.
    Semicolon,
    /// The sign `{`, in version 2.
    OpenBrace,
    /// The sign `}`, in version 2.
    CloseBrace,
    /// The sign `,`, in version 2.
    Comma,
    /// The sign `[`, in version 2.
    OpenBracket,
    /// The sign `]`, in version 2.
    CloseBracket,
}
