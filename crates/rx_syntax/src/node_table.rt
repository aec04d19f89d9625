// A table of nodes that grows.

ghost use Rattle.std.specs.Prelude.{◌≡◌, ◌<◌, ◌++◌, ◌∷◌, ◌^◌, [], length, IfOk, OnOk};
ghost use Rattle.rx_syntax.specs.NodeBuilder.{join_node, joined, sign_node, signed};

use rx_lang::ExprNode;
use rx_text::NoMemory;
use std::alloc::Global;
use std::marker::Model;

/// What makes one expression of two.
#[derive(Clone, Copy)]
pub(crate) enum Join {
    Sequence,
    Union,
}

impl Join {
    fn node(self, first: u32, second: u32) -> ExprNode
        ensures { result ≡ join_node self first second }
    {
        match self {
            Join::Sequence => ExprNode::Seq(first, second),
            Join::Union => ExprNode::Alt(first, second),
        }
    }
}

/// A postfix sign. A mark is one, with the number of its output, and a counted repeat, with its least and most number.
#[derive(Clone, Copy)]
pub(crate) enum Sign {
    Star,
    Plus,
    Optional,
    Marked(u8),
    Counted(u8, u8),
}

impl Sign {
    fn node(self, inner: u32) -> ExprNode
        ensures { result ≡ sign_node self inner }
    {
        match self {
            Sign::Star => ExprNode::Star(inner),
            Sign::Plus => ExprNode::Plus(inner),
            Sign::Optional => ExprNode::Opt(inner),
            Sign::Marked(output) => ExprNode::Mark(inner, output),
            Sign::Counted(least, most) => ExprNode::Repeat(inner, least, most),
        }
    }
}

/// Nodes of expressions, each behind its children: fewer than 2^32, as the entries of every list.
#[derive(Drop)]
pub(crate) struct NodeTable {
    nodes: Vec<ExprNode>,
}

impl Model for NodeTable {
    ghost use Rattle.std.specs.Prelude.{List, ◌<◌, ◌^◌, length};
    ghost use Rattle.rx_lang.specs.declared.expr_node.ExprNode.{ExprNode};

    ghost Value = { List ExprNode };

    ghost view = { λ t. t.nodes.items };

    ghost invariant = { λ t. length t.nodes.items < 2 ^ 32 };
}

impl NodeTable {
    pub(crate) fn new(alloc: Global) -> NodeTable
        ensures { result ≡ [] }
    {
        NodeTable {
            nodes: Vec::new(alloc),
        }
    }

    /// One more node, and its number. A growth past 2^32 - 1 nodes is refused as by want of memory.
    pub(crate) fn add(&mut self, node: ExprNode) -> Result<u32, NoMemory>
        ensures number { IfOk result (λ number. number ≡ length self.old) }
        ensures nodes { OnOk result (self.new ≡ self.old ++ node ∷ []) }
    {
        let number = self.nodes.len();
        if number >= u32::MAX as usize {
            return Err(NoMemory);
        }
        self.nodes.push(node)?;
        Ok(number as u32)
    }

    /// The node of two expressions as one, or of the one that is there.
    pub(crate) fn join(
        &mut self,
        join: Join,
        first: Option<u32>,
        second: Option<u32>,
    ) -> Result<Option<u32>, NoMemory>
        ensures part { IfOk result (λ part. part ≡ (joined join self.old first second).part) }
        ensures nodes { OnOk result (self.new ≡ (joined join self.old first second).nodes) }
    {
        match (first, second) {
            (Some(first), Some(second)) => Ok(Some(self.add(join.node(first, second))?)),
            (None, part) | (part, None) => Ok(part),
        }
    }

    /// The node of an expression with a sign, where it is there.
    pub(crate) fn sign(&mut self, sign: Sign, inner: Option<u32>) -> Result<Option<u32>, NoMemory>
        ensures part { IfOk result (λ part. part ≡ (signed sign self.old inner).part) }
        ensures nodes { OnOk result (self.new ≡ (signed sign self.old inner).nodes) }
    {
        match inner {
            None => Ok(None),
            Some(inner) => Ok(Some(self.add(sign.node(inner))?)),
        }
    }

    /// The nodes as a list.
    pub(crate) fn into_nodes(self) -> Vec<ExprNode>
        ensures nodes { result.items ≡ self }
        ensures few { length result.items < 2 ^ 32 }
    {
        self.nodes
    }
}
