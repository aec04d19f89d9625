// Signs behind expressions.

ghost use Rattle.std.specs.Prelude.{◌≡◌};
ghost use Rattle.demo_spec.specs.Piles.{sign_node};

use rx_lang::ExprNode;

/// A sign behind an expression. A mark is one, with the number of its output.
#[derive(Clone, Copy)]
pub(crate) enum Sign {
    Star,
    Plus,
    Optional,
    Marked(u8),
}

impl Sign {
    /// The node of the sign behind the expression with this number.
    pub(crate) fn node(self, inner: u32) -> ExprNode
        ensures { result ≡ sign_node self inner }
    {
        match self {
            Sign::Star => ExprNode::Star(inner),
            Sign::Plus => ExprNode::Plus(inner),
            Sign::Optional => ExprNode::Opt(inner),
            Sign::Marked(output) => ExprNode::Mark(inner, output),
        }
    }
}
