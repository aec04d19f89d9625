// The positions with which the words of a node begin.

ghost use Rattle.std.specs.Prelude.{◌≡◌, ◌<◌, ◌+◌, ◌^◌, ◌++◌, length, OnOk};
ghost use Rattle.position_nfa.specs.LeafRows.{firsts};
ghost use Rattle.position_nfa.specs.Summaries.{AreSummaries, summary_at};
ghost use Rattle.position_nfa.specs.Waiting.{AreOrdered, IsSubtree, numbered_tree, left_subtree, right_subtree, first_positions, first_subtrees};

use crate::summaries::Summary;
use rx_text::NoMemory;
use star_normal::{Node, NodeKind};
use std::alloc::Global;

/// A node with the position of its first leaf.
#[derive(Clone, Copy, Debug, PartialEq, Eq)]
pub struct Subtree {
    pub node: u32,
    pub base: u32,
}

/// Adds the positions with which the words of a node begin, from left to right.
pub fn add_firsts(
    alloc: Global,
    list: &mut Vec<u32>,
    nodes: &[Node],
    summaries: &[Summary],
    subtree: Subtree,
) -> Result<(), NoMemory>
    requires order { AreOrdered nodes.now }
    requires summaries { AreSummaries nodes.now summaries.now }
    requires subtree { IsSubtree nodes.now subtree }
    ensures { OnOk result (list.new.items ≡ list.old.items ++ firsts (numbered_tree nodes.now subtree)) }
{
    let mut subtrees = vec![in alloc; subtree]?;
    while let Some(subtree) = subtrees.pop() {
        put_first(list, &mut subtrees, nodes, summaries, subtree)?;
    }
    Ok(())
}

/// Adds the position of a leaf, or the parts with which a word may begin.
fn put_first(
    list: &mut Vec<u32>,
    subtrees: &mut Vec<Subtree>,
    nodes: &[Node],
    summaries: &[Summary],
    subtree: Subtree,
) -> Result<(), NoMemory>
    requires order { AreOrdered nodes.now }
    requires summaries { AreSummaries nodes.now summaries.now }
    requires subtree { IsSubtree nodes.now subtree }
    ensures list { OnOk result (list.new.items ≡ list.old.items ++ first_positions nodes.now subtree) }
    ensures subtrees { OnOk result (subtrees.new.items ≡ subtrees.old.items ++ first_subtrees nodes.now summaries.now subtree) }
{
    match nodes[subtree.node as usize].kind {
        NodeKind::Leaf(_) => list.push(subtree.base)?,
        NodeKind::Seq { left, right } => {
            if nodes[left as usize].eps {
                subtrees.push(right_subtree(summaries, subtree, left, right))?;
            }
            subtrees.push(left_subtree(subtree, left))?;
        }
        NodeKind::Alt { left, right } => {
            subtrees.push(right_subtree(summaries, subtree, left, right))?;
            subtrees.push(left_subtree(subtree, left))?;
        }
    }
    Ok(())
}

/// The left part of a subtree.
pub fn left_subtree(subtree: Subtree, left: u32) -> Subtree
    ensures { result ≡ left_subtree subtree left }
{
    Subtree {
        node: left,
        base: subtree.base,
    }
}

/// The right part, whose leaves stand behind those of the left one.
pub fn right_subtree(summaries: &[Summary], subtree: Subtree, left: u32, right: u32) -> Subtree
    requires left { left < length summaries.now }
    requires fits { subtree.base + (summary_at summaries.now left).leaves < 2 ^ 32 }
    ensures { result ≡ right_subtree summaries.now subtree left right }
{
    Subtree {
        node: right,
        base: subtree.base + summaries[left as usize].leaves,
    }
}
