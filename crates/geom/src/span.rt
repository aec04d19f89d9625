// Rows from one up to another, without a first or without a last where none is named.

ghost use Rattle.std.specs.Prelude.{◌≡◌, ◌↔◌, ◌<ℤ◌, ◌≤ℤ◌, ℤ, IsTrue, Some, None};
ghost use Rattle.geom.specs.Spans.{Restricts};

/// Rows from `from` on, or all from the lowest on, up to `to`, or to the highest.
#[derive(Clone, Copy, Debug, PartialEq, Eq)]
pub struct Span {
    pub from: Option<i64>,
    pub to: Option<i64>,
}

impl Span {
    /// All rows belong to the span.
    pub fn is_all(self) -> bool
        ensures { IsTrue result ↔ (self.from ≡ None) × (self.to ≡ None) }
    {
        self.from.is_none() && self.to.is_none()
    }

    /// The rows of the span that lie below the middle, named among the rows below the middle, if there are any.
    pub fn below(self, middle: i64) -> Option<Span>
        ensures { Restricts self middle (λ y. y <ℤ middle) result }
    {
        match self.from {
            Some(from) if middle <= from => None,
            _ => Some(Span {
                from: self.from,
                to: self.to.filter(|to| *to < middle),
            }),
        }
    }

    /// The rows of the span from the middle on, named among the rows from the middle on, if there are any.
    pub fn above(self, middle: i64) -> Option<Span>
        ensures { Restricts self middle (λ y. middle ≤ℤ y) result }
    {
        match self.to {
            Some(to) if to <= middle => None,
            _ => Some(Span {
                from: self.from.filter(|from| middle < *from),
                to: self.to,
            }),
        }
    }
}
