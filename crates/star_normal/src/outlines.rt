// What is known of each expression before its normal form is made. Its signs are gathered, so that a chain of signs is gone
// through once, however often the expression is copied.

ghost use Rattle.std.specs.Prelude.{◌≡◌, ◌≤◌, ◌<◌, ◌^◌, length, IfOk};
ghost use Rattle.star_normal.specs.Outlines.{AreFit, AreOutlines, ChildrenBelow, NodeFits, bare_outline, copied_trees, looped_outline, marked_outline, opted_outline, outline_of, repeated_outline};

use crate::signs::Signs;
use rx_lang::ExprNode;
use rx_text::NoMemory;
use std::alloc::Global;

/// What stands below signs.
#[derive(Clone, Copy, Debug, PartialEq, Eq)]
pub enum Base {
    /// The symbol with this number.
    Leaf(u8),
    /// The first expression and then the second.
    Seq(u32, u32),
    /// One of two expressions.
    Alt(u32, u32),
    /// Copies of an expression: at least so many, and so many further ones behind the first.
    Repeat(u32, u8, u8),
}

/// An expression as signs behind another one.
#[derive(Clone, Copy, Debug, PartialEq, Eq)]
pub struct Outline {
    pub base: Base,
    pub signs: Signs,
    /// Whether the expression spells the empty word.
    pub nullable: bool,
}

/// The outline of each expression of the table.
pub fn outlines(alloc: Global, nodes: &[ExprNode]) -> Result<Vec<Outline>, NoMemory>
    requires { AreFit nodes.now }
    ensures { IfOk result (λ outlines. AreOutlines (copied_trees nodes.now) (length nodes.now) outlines.items) }
{
    let mut outlines = Vec::with_capacity(alloc, nodes.len())?;
    for node in nodes {
        let outline = outline_of(*node, &outlines);
        outlines.push(outline)?;
    }
    Ok(outlines)
}

/// The outline of a node, from those of the nodes before it.
fn outline_of(node: ExprNode, before: &[Outline]) -> Outline
    requires children { ChildrenBelow (length before.now) node }
    requires fits { NodeFits node }
    ensures { result ≡ outline_of before.now node }
{
    match node {
        ExprNode::Leaf(symbol) => bare(Base::Leaf(symbol), false),
        ExprNode::Seq(first, second) => bare(
            Base::Seq(first, second),
            before[first as usize].nullable && before[second as usize].nullable,
        ),
        ExprNode::Alt(first, second) => bare(
            Base::Alt(first, second),
            before[first as usize].nullable || before[second as usize].nullable,
        ),
        ExprNode::Star(inner) => looped(before[inner as usize], true),
        ExprNode::Plus(inner) => looped(before[inner as usize], before[inner as usize].nullable),
        ExprNode::Opt(inner) => opted(before[inner as usize]),
        ExprNode::Mark(inner, output) => marked(before[inner as usize], output),
        ExprNode::Repeat(inner, least, most) => {
            repeated(before[inner as usize], inner, least, most)
        }
    }
}

/// An expression without signs.
fn bare(base: Base, nullable: bool) -> Outline
    ensures { result ≡ bare_outline base nullable }
{
    Outline {
        base,
        signs: Signs::none(),
        nullable,
    }
}

/// A loop over the expression, which spells the empty word or not.
fn looped(inner: Outline, nullable: bool) -> Outline
    ensures { result ≡ looped_outline inner nullable }
{
    Outline {
        base: inner.base,
        signs: inner.signs.looped(nullable),
        nullable,
    }
}

/// An option of the expression.
fn opted(inner: Outline) -> Outline
    ensures { result ≡ opted_outline inner }
{
    Outline {
        base: inner.base,
        signs: inner.signs.emptied(),
        nullable: true,
    }
}

/// The expression with a mark at its end.
fn marked(inner: Outline, output: u8) -> Outline
    requires { output < 16 }
    ensures { result ≡ marked_outline inner output }
{
    Outline {
        base: inner.base,
        signs: inner.signs.marked(output, inner.nullable),
        nullable: inner.nullable,
    }
}

/// A counted repeat of the expression with this number. At most once is an option, or the expression itself.
fn repeated(inner: Outline, number: u32, least: u8, most: u8) -> Outline
    requires { 1 ≤ most }
    ensures { result ≡ repeated_outline inner number least most }
{
    if most > 1 {
        let base = Base::Repeat(number, least, most - 1);
        bare(base, least == 0 || inner.nullable)
    } else if least == 0 {
        opted(inner)
    } else {
        inner
    }
}
