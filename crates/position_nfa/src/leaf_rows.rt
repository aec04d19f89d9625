// From the leaves of a tree to the rows of an automaton. Each node waits with the list of what may come behind it, and hands
// it on to its parts; a leaf keeps it as its follow set. So each list is made once.

ghost use Rattle.std.specs.Prelude.{◌≡◌, ◌<◌, ◌+◌, ◌^◌, ◌++◌, [], ◌∷◌, length, IfOk, OnOk};
ghost use Rattle.star_normal.specs.declared.node.NodeKind.TheVariants.{Seq};
ghost use Rattle.star_normal.specs.Trees.{leaves};
ghost use Rattle.star_normal.specs.Tables.{form_at, forms};
ghost use Rattle.position_nfa.specs.LeafRows.{firsts, tree_rows};
ghost use Rattle.position_nfa.specs.Summaries.{AreSummaries, node_at, summary_at};
ghost use Rattle.position_nfa.specs.Waiting.{AreOrdered, IsSubtree, numbered_tree, left_subtree, right_subtree, left_mask, left_next, right_firsts, end_mask, duty_behind, duty_rows, duty_duties, kind_duties, with_rows, GainRows};

use crate::firsts::{Subtree, add_firsts, left_subtree, right_subtree};
use crate::nfa::FollowSet;
use crate::summaries::Summary;
use rx_text::NoMemory;
use star_normal::{Node, NodeKind};
use std::alloc::Global;
use std::marker::Model;

/// Symbols, follow sets and masks of positions.
#[derive(Drop)]
pub struct LeafRows {
    pub symbols: Vec<u8>,
    pub follow: Vec<FollowSet>,
    pub marked: Vec<u16>,
}

impl Model for LeafRows {
    ghost use Rattle.position_nfa.specs.Waiting.{LeafLists};

    ghost Value = { LeafLists };

    ghost view = { λ r. record { symbols = r.symbols.items; follow = r.follow.items; marked = r.marked.items } };
}

/// A node that waits, with the positions that may come behind it, and the outputs that are marked where it ends.
#[derive(Drop)]
struct Task {
    subtree: Subtree,
    next: Vec<u32>,
    ends: u16,
}

impl Model for Task {
    ghost use Rattle.position_nfa.specs.Waiting.{Duty};

    ghost Value = { Duty };

    ghost view = { λ t. record { subtree = t.subtree; next = t.next.items; ends = t.ends } };
}

impl Task {
    /// The node that waits.
    fn subtree(&self) -> Subtree
        ensures { result ≡ self.now.subtree }
    {
        self.subtree
    }
}

/// Adds a row for each leaf of the tree with this root.
pub fn add_rows(
    alloc: Global,
    rows: &mut LeafRows,
    nodes: &[Node],
    summaries: &[Summary],
    root: Subtree,
) -> Result<(), NoMemory>
    requires order { AreOrdered nodes.now }
    requires summaries { AreSummaries nodes.now summaries.now }
    requires root { IsSubtree nodes.now root }
    ensures { OnOk result (GainRows (leaves (form_at (forms nodes.now) root.node)) (tree_rows (numbered_tree nodes.now root)) rows.old rows.new) }
{
    let mut tasks = vec![in alloc;
        Task {
            subtree: root,
            next: Vec::new(alloc),
            ends: 0,
        },
    ]?;
    while let Some(task) = tasks.pop() {
        put_task(alloc, rows, &mut tasks, nodes, summaries, task)?;
    }
    Ok(())
}

/// Adds the row of a leaf, or the tasks of the parts.
fn put_task(
    alloc: Global,
    rows: &mut LeafRows,
    tasks: &mut Vec<Task>,
    nodes: &[Node],
    summaries: &[Summary],
    task: Task,
) -> Result<(), NoMemory>
    requires order { AreOrdered nodes.now }
    requires summaries { AreSummaries nodes.now summaries.now }
    requires subtree { IsSubtree nodes.now task.subtree }
    ensures rows { OnOk result (rows.new ≡ with_rows rows.old (duty_rows nodes.now summaries.now task)) }
    ensures tasks { OnOk result (tasks.new.items ≡ tasks.old.items ++ duty_duties nodes.now summaries.now task) }
{
    let subtree = task.subtree();
    let node = nodes[subtree.node as usize];
    let ends = end_mask(node, summaries[subtree.node as usize], task.ends);
    let next = behind(alloc, nodes, summaries, task)?;
    match node.kind {
        NodeKind::Leaf(symbol) => put_row(rows, symbol, next, ends),
        NodeKind::Seq { left, right } => {
            put_sequence(
                alloc, tasks, nodes, summaries, subtree, left, right, next, ends,
            )
        }
        NodeKind::Alt { left, right } => {
            put_alternative(alloc, tasks, summaries, subtree, left, right, next, ends)
        }
    }
}

/// Adds the row of a leaf.
fn put_row(rows: &mut LeafRows, symbol: u8, next: Vec<u32>, ends: u16) -> Result<(), NoMemory>
    ensures { OnOk result (rows.new ≡ with_rows rows.old (record { symbols = symbol ∷ []; follow = next.items ∷ []; marked = ends ∷ [] })) }
{
    rows.symbols.push(symbol)?;
    rows.follow.push(FollowSet::new(next))?;
    rows.marked.push(ends)?;
    Ok(())
}

/// What may come behind a turn of the task's node: what may come behind the node, and, where it loops, its first positions.
fn behind(
    alloc: Global,
    nodes: &[Node],
    summaries: &[Summary],
    task: Task,
) -> Result<Vec<u32>, NoMemory>
    requires order { AreOrdered nodes.now }
    requires summaries { AreSummaries nodes.now summaries.now }
    requires subtree { IsSubtree nodes.now task.subtree }
    ensures { IfOk result (λ next. next.items ≡ duty_behind nodes.now task) }
{
    let Task {
        subtree,
        mut next,
        ..
    } = task;
    if nodes[subtree.node as usize].loops {
        add_firsts(alloc, &mut next, nodes, summaries, subtree)?;
    }
    Ok(next)
}

/// The outputs that are marked where a turn of the node ends.
fn end_mask(node: Node, summary: Summary, ends: u16) -> u16
    ensures { result ≡ end_mask node summary ends }
{
    let again = if node.loops { summary.empties } else { 0 };
    ends | node.marks | again
}

/// Adds the tasks of the parts of a sequence: behind the left part come the first positions of the right one, and, where that
/// spells the empty word, what comes behind it.
fn put_sequence(
    alloc: Global,
    tasks: &mut Vec<Task>,
    nodes: &[Node],
    summaries: &[Summary],
    subtree: Subtree,
    left: u32,
    right: u32,
    next: Vec<u32>,
    ends: u16,
) -> Result<(), NoMemory>
    requires order { AreOrdered nodes.now }
    requires summaries { AreSummaries nodes.now summaries.now }
    requires left { IsSubtree nodes.now (left_subtree subtree left) }
    requires right { IsSubtree nodes.now (right_subtree summaries.now subtree left right) }
    ensures { OnOk result (tasks.new.items
        ≡ tasks.old.items ++ kind_duties nodes.now summaries.now subtree (Seq left right) next.items ends) }
{
    let behind_left = left_next(
        alloc,
        nodes,
        summaries,
        right_subtree(summaries, subtree, left, right),
        &next,
    )?;
    let left_ends = left_mask(nodes[right as usize], summaries[right as usize], ends);
    tasks.push(Task {
        subtree: right_subtree(summaries, subtree, left, right),
        next,
        ends,
    })?;
    tasks.push(Task {
        subtree: left_subtree(subtree, left),
        next: behind_left,
        ends: left_ends,
    })?;
    Ok(())
}

/// What comes behind the left part of a sequence.
fn left_next(
    alloc: Global,
    nodes: &[Node],
    summaries: &[Summary],
    right: Subtree,
    next: &[u32],
) -> Result<Vec<u32>, NoMemory>
    requires order { AreOrdered nodes.now }
    requires summaries { AreSummaries nodes.now summaries.now }
    requires right { IsSubtree nodes.now right }
    ensures { IfOk result (λ list. list.items ≡ left_next (node_at nodes.now right.node) (firsts (numbered_tree nodes.now right)) next.now) }
{
    let mut list = Vec::new(alloc);
    add_firsts(alloc, &mut list, nodes, summaries, right)?;
    if nodes[right.node as usize].eps {
        list.extend_from_slice(next)?;
    }
    Ok(list)
}

/// The outputs that are marked where the left part of a sequence ends.
fn left_mask(right: Node, summary: Summary, ends: u16) -> u16
    ensures { result ≡ left_mask right summary ends }
{
    let passed = if right.eps { ends } else { 0 };
    summary.empties | passed
}

/// Adds the tasks of two alternatives, behind which the same may come.
fn put_alternative(
    alloc: Global,
    tasks: &mut Vec<Task>,
    summaries: &[Summary],
    subtree: Subtree,
    left: u32,
    right: u32,
    next: Vec<u32>,
    ends: u16,
) -> Result<(), NoMemory>
    requires left { left < length summaries.now }
    requires fits { subtree.base + (summary_at summaries.now left).leaves < 2 ^ 32 }
    ensures { OnOk result (tasks.new.items ≡ tasks.old.items
        ++ record { subtree = right_subtree summaries.now subtree left right; next = next.items; ends = ends }
        ∷ record { subtree = left_subtree subtree left; next = next.items; ends = ends } ∷ []) }
{
    let same = Vec::from_slice(alloc, &next)?;
    tasks.push(Task {
        subtree: right_subtree(summaries, subtree, left, right),
        next,
        ends,
    })?;
    tasks.push(Task {
        subtree: left_subtree(subtree, left),
        next: same,
        ends,
    })?;
    Ok(())
}
