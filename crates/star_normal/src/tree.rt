// The normal form of a specification.

ghost use Rattle.std.specs.Prelude.{◌≡◌, ◌≤◌, length};
ghost use Rattle.star_normal.specs.Tables.{IsTree};

use crate::node::Node;
use std::marker::Model;

/// One full binary tree with 1 to 4096 leaves, as a table of nodes in which each part stands before its parent. Every node
/// but the root is a part of exactly one node. The base of each loop, marks left aside, is its own strip, so that no loop
/// stands over a part that spells the empty word.
#[derive(Drop)]
pub struct Tree {
    nodes: Vec<Node>,
    root: u32,
}

impl Model for Tree {
    ghost use Rattle.star_normal.specs.Tables.{TreeTable, IsTree};

    ghost Value = { TreeTable };

    ghost view = { λ t. record { nodes = t.nodes.items; root = t.root } };

    ghost invariant = { λ t. IsTree (record { nodes = t.nodes.items; root = t.root }) };
}

impl Tree {
    /// The tree with these nodes and this root.
    pub(crate) fn new(nodes: Vec<Node>, root: u32) -> Tree
        requires { IsTree (record { nodes = nodes.items; root = root }) }
        ensures { result ≡ record { nodes = nodes.items; root = root } }
    {
        Self { nodes, root }
    }

    /// The nodes, each behind its parts.
    pub fn nodes(&self) -> &[Node]
        ensures nodes { result.now ≡ self.now.nodes }
        ensures few { length self.now.nodes ≤ 8191 }
        ensures tree { IsTree self.now }
    {
        &self.nodes
    }

    /// The number of the root.
    pub fn root(&self) -> u32
        ensures root { result ≡ self.now.root }
        ensures tree { IsTree self.now }
    {
        self.root
    }
}
