// From a normal form to its position automaton.

ghost use Rattle.std.specs.Prelude.{◌≡◌, [], ◌∷◌, if◌then◌else◌, IfOk, Some, None};
ghost use Rattle.rx_lang.specs.Specification.{Specification};
ghost use Rattle.star_normal.specs.Trees.{leaves};
ghost use Rattle.star_normal.specs.Tables.{form_at, forms, whole};
ghost use Rattle.position_nfa.specs.Agreement.{IsAutomatonOf, IsTreeOf};
ghost use Rattle.position_nfa.specs.Automaton.{IsAutomaton};
ghost use Rattle.position_nfa.specs.LeafRows.{tree_rows};
ghost use Rattle.position_nfa.specs.Summaries.{AreSummaries, node_at};
ghost use Rattle.position_nfa.specs.Waiting.{AreOrdered, IsSubtree, numbered_tree, GainRows};
ghost use Rattle.position_nfa.specs.TreeParts.{automaton_with, IsPart, kind_rest, kind_scan, rest_of, scan_of, part_tree, part_firsts, part_mask};

use crate::firsts::{Subtree, add_firsts, left_subtree, right_subtree};
use crate::leaf_rows::{LeafRows, add_rows};
use crate::nfa::Nfa;
use crate::summaries::{Summary, summaries};
use rx_text::NoMemory;
use star_normal::laws::tables_have_the_leaves_of_their_trees;
use star_normal::{Node, NodeKind, Tree};
use std::alloc::Global;

/// The position automaton of a normal form. Its positions are the leaves from left to right. Where the tree is that of a
/// specification, each state leads exactly to the occurrences with which words may go on, and no list repeats one, since no
/// loop of the tree stands over a part that loops at its ends (the star normal form of Brüggemann-Klein, 1993). Each follow set
/// is made once and handed down to its leaf. Its time grows with the tree and the lists, and with the depth of what stands
/// before a first position.
///
/// # Errors
///
/// `NoMemory` where an allocation was refused.
pub fn positions(alloc: Global, tree: &Tree) -> Result<Nfa, NoMemory>
    ensures symbols { IfOk result (λ nfa. nfa.symbols ≡ leaves (whole tree.now)) }
    ensures automaton { IfOk result (λ nfa. (spec : Specification) → IsTreeOf spec (whole tree.now) → IsAutomatonOf spec nfa) }
{
    tables_have_the_leaves_of_their_trees();
    let nodes = tree.nodes();
    let summaries = summaries(alloc, tree)?;
    let root = Subtree {
        node: tree.root(),
        base: 0,
    };
    let parts = parts_of(nodes, &summaries, root);
    let first = firsts_of(alloc, nodes, &summaries, parts.rest)?;
    let scan_first = firsts_of(alloc, nodes, &summaries, parts.scan)?;
    let start = empties_of(nodes, &summaries, parts.rest);
    let scan_marked = empties_of(nodes, &summaries, parts.scan);
    let rows = rows_of(alloc, nodes, &summaries, root, start)?;
    Ok(into_automaton(rows, first, scan_first, scan_marked))
}

/// The rows of all leaves, behind the outputs that are marked at the reset.
fn rows_of(
    alloc: Global,
    nodes: &[Node],
    summaries: &[Summary],
    root: Subtree,
    start: u16,
) -> Result<LeafRows, NoMemory>
    requires order { AreOrdered nodes.now }
    requires summaries { AreSummaries nodes.now summaries.now }
    requires root { IsSubtree nodes.now root }
    ensures { IfOk result (λ rows. GainRows (leaves (form_at (forms nodes.now) root.node)) (tree_rows (numbered_tree nodes.now root))
        (record { symbols = []; follow = []; marked = start ∷ [] }) rows) }
{
    let mut rows = LeafRows {
        symbols: Vec::new(alloc),
        follow: Vec::new(alloc),
        marked: vec![in alloc; start]?,
    };
    add_rows(alloc, &mut rows, nodes, summaries, root)?;
    Ok(rows)
}

/// The automaton of these rows.
fn into_automaton(rows: LeafRows, first: Vec<u32>, scan_first: Vec<u32>, scan_marked: u16) -> Nfa
    requires { IsAutomaton (automaton_with rows first.items scan_first.items scan_marked) }
    ensures { result ≡ automaton_with rows first.items scan_first.items scan_marked }
{
    let LeafRows {
        symbols,
        follow,
        marked,
    } = rows;
    Nfa::new(symbols, first, scan_first, follow, marked, scan_marked)
}

/// The scan node of a tree, and the rest of it, where there are such.
#[derive(Clone, Copy)]
struct Parts {
    rest: Option<Subtree>,
    scan: Option<Subtree>,
}

/// The parts of a tree, by the node at its root.
fn parts_of(nodes: &[Node], summaries: &[Summary], root: Subtree) -> Parts
    requires order { AreOrdered nodes.now }
    requires summaries { AreSummaries nodes.now summaries.now }
    requires root { IsSubtree nodes.now root }
    ensures { result ≡ record { rest = rest_of nodes.now root; scan = scan_of nodes.now summaries.now root } }
{
    let node = nodes[root.node as usize];
    if node.scan {
        Parts {
            rest: None,
            scan: Some(root),
        }
    } else {
        parts_by_kind(nodes, summaries, root, node.kind)
    }
}

/// The parts of a tree whose root does not scan.
fn parts_by_kind(nodes: &[Node], summaries: &[Summary], root: Subtree, kind: NodeKind) -> Parts
    requires order { AreOrdered nodes.now }
    requires summaries { AreSummaries nodes.now summaries.now }
    requires root { IsSubtree nodes.now root }
    requires kind { kind ≡ (node_at nodes.now root.node).kind }
    ensures { result ≡ record { rest = kind_rest nodes.now root kind; scan = kind_scan nodes.now summaries.now root kind } }
{
    match kind {
        NodeKind::Leaf(_) | NodeKind::Seq { .. } => Parts {
            rest: Some(root),
            scan: None,
        },
        NodeKind::Alt { left, right } => {
            let behind = right_subtree(summaries, root, left, right);
            either(
                nodes[right as usize].scan,
                root,
                left_subtree(root, left),
                behind,
            )
        }
    }
}

/// The parts of a union, from whether its right part scans.
fn either(scans: bool, root: Subtree, left: Subtree, right: Subtree) -> Parts
    ensures { result ≡ record {
      rest = Some (if scans then left else root);
      scan = if scans then Some right else None;
    } }
{
    if scans {
        Parts {
            rest: Some(left),
            scan: Some(right),
        }
    } else {
        Parts {
            rest: Some(root),
            scan: None,
        }
    }
}

/// The positions with which the words of a part begin.
fn firsts_of(
    alloc: Global,
    nodes: &[Node],
    summaries: &[Summary],
    part: Option<Subtree>,
) -> Result<Vec<u32>, NoMemory>
    requires order { AreOrdered nodes.now }
    requires summaries { AreSummaries nodes.now summaries.now }
    requires part { IsPart nodes.now part }
    ensures { IfOk result (λ list. list.items ≡ part_firsts (part_tree nodes.now part)) }
{
    let mut list = Vec::new(alloc);
    if let Some(subtree) = part {
        add_firsts(alloc, &mut list, nodes, summaries, subtree)?;
    }
    Ok(list)
}

/// The outputs that a part marks for the empty word.
fn empties_of(nodes: &[Node], summaries: &[Summary], part: Option<Subtree>) -> u16
    requires summaries { AreSummaries nodes.now summaries.now }
    requires part { IsPart nodes.now part }
    ensures { result ≡ part_mask summaries.now part }
{
    match part {
        Some(subtree) => summaries[subtree.node as usize].empties,
        None => 0,
    }
}
