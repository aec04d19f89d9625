// The nodes of normal forms in Polish notation. Copies of repeats are made here, one after the other, so that no more is
// made than the result has.

ghost use Rattle.std.specs.Prelude.{◌≡◌, ◌<◌, ◌≤◌, ◌++◌, ◌∷◌, [], false, length, map, OnOk};
ghost use Rattle.rx_lang.specs.Tables.{tree_at};
ghost use Rattle.star_normal.specs.Labels.{tree_labels, label_of};
ghost use Rattle.star_normal.specs.Normal.{normal};
ghost use Rattle.star_normal.specs.Outlines.{AreClosed, AreOutlines, BaseBelow, copied_trees};
ghost use Rattle.star_normal.specs.Tasks.{base_labels, base_tasks, copy_label, copy_tasks, label, one_labels, one_tasks, sequence_label, signed, single, task_labels, task_tasks};

use crate::node::{Node, NodeKind};
use crate::outlines::{Base, Outline};
use crate::signs::Signs;
use rx_lang::ExprNode;
use rx_text::NoMemory;
use std::alloc::Global;

/// Copies of an expression that wait for their labels: at least `least`, and `more` further ones behind the first.
#[derive(Clone, Copy, Debug, PartialEq, Eq)]
pub struct Task {
    pub node: u32,
    pub least: u8,
    pub more: u8,
    /// Whether they stand below a loop.
    pub under: bool,
    /// Signs of the top node besides.
    pub signs: Signs,
}

/// Adds the labels of the normal form of an expression of the table with these nodes and outlines.
pub fn put_normal(
    alloc: Global,
    labels: &mut Vec<Node>,
    nodes: &[ExprNode],
    outlines: &[Outline],
    node: u32,
) -> Result<(), NoMemory>
    requires outlines { AreOutlines (copied_trees nodes.now) (length outlines.now) outlines.now }
    requires node { node < length outlines.now }
    ensures { OnOk result (map label_of labels.new.items
        ≡ map label_of labels.old.items ++ tree_labels (normal false (tree_at (copied_trees nodes.now) node))) }
{
    let mut tasks = vec![in alloc; single(node, false)]?;
    while let Some(task) = tasks.pop() {
        put_task(labels, &mut tasks, outlines, task)?;
    }
    Ok(())
}

/// Adds the label of the top node of a task, and the tasks of its parts.
fn put_task(
    labels: &mut Vec<Node>,
    tasks: &mut Vec<Task>,
    outlines: &[Outline],
    task: Task,
) -> Result<(), NoMemory>
    requires closed { AreClosed outlines.now }
    requires node { task.node < length outlines.now }
    ensures labels { OnOk result (labels.new.items ≡ labels.old.items ++ task_labels outlines.now task) }
    ensures tasks { OnOk result (tasks.new.items ≡ tasks.old.items ++ task_tasks outlines.now task) }
{
    let task = signed(task);
    if task.more == 0 {
        put_one(labels, tasks, outlines, task)
    } else {
        put_copy(labels, tasks, outlines, task)
    }
}

/// The task with the sign of an option, where it may be passed over.
fn signed(task: Task) -> Task
    ensures { result ≡ signed task }
{
    if task.least == 0 {
        let signs = task.signs.opted(task.under);
        Task { signs, ..task }
    } else {
        task
    }
}

/// Puts the first copy before the others.
fn put_copy(
    labels: &mut Vec<Node>,
    tasks: &mut Vec<Task>,
    outlines: &[Outline],
    task: Task,
) -> Result<(), NoMemory>
    requires node { task.node < length outlines.now }
    requires more { 1 ≤ task.more }
    ensures labels { OnOk result (labels.new.items ≡ labels.old.items ++ copy_label outlines.now task ∷ []) }
    ensures tasks { OnOk result (tasks.new.items ≡ tasks.old.items ++ copy_tasks outlines.now task) }
{
    let least = task.least.saturating_sub(1);
    let nullable = outlines[task.node as usize].nullable;
    let rest_nullable = least == 0 || nullable;
    labels.push(sequence(task.signs, task.under, nullable, rest_nullable))?;
    tasks.push(Task {
        node: task.node,
        least,
        more: task.more - 1,
        under: task.under && nullable,
        signs: Signs::none(),
    })?;
    tasks.push(single(task.node, task.under && rest_nullable))?;
    Ok(())
}

/// Puts one copy: what stands below the signs of the expression.
fn put_one(
    labels: &mut Vec<Node>,
    tasks: &mut Vec<Task>,
    outlines: &[Outline],
    task: Task,
) -> Result<(), NoMemory>
    requires closed { AreClosed outlines.now }
    requires node { task.node < length outlines.now }
    ensures labels { OnOk result (labels.new.items ≡ labels.old.items ++ one_labels outlines.now task) }
    ensures tasks { OnOk result (tasks.new.items ≡ tasks.old.items ++ one_tasks outlines.now task) }
{
    let outline = outlines[task.node as usize];
    let under = task.under || outline.signs.loops;
    let signs = outline.signs.kept(task.under).merged(task.signs);
    put_base(labels, tasks, outlines, outline.base, under, signs)
}

/// Puts what stands below signs, with these signs.
fn put_base(
    labels: &mut Vec<Node>,
    tasks: &mut Vec<Task>,
    outlines: &[Outline],
    base: Base,
    under: bool,
    signs: Signs,
) -> Result<(), NoMemory>
    requires { BaseBelow (length outlines.now) base }
    ensures labels { OnOk result (labels.new.items ≡ labels.old.items ++ base_labels outlines.now base under signs) }
    ensures tasks { OnOk result (tasks.new.items ≡ tasks.old.items ++ base_tasks outlines.now base under signs) }
{
    match base {
        Base::Leaf(symbol) => labels.push(label(NodeKind::Leaf(symbol), signs, false))?,
        Base::Seq(first, second) => {
            let one = outlines[first as usize].nullable;
            let other = outlines[second as usize].nullable;
            labels.push(sequence(signs, under, one, other))?;
            tasks.push(single(second, under && one))?;
            tasks.push(single(first, under && other))?;
        }
        Base::Alt(first, second) => {
            let one = outlines[first as usize].nullable;
            let other = outlines[second as usize].nullable;
            labels.push(label(ALTERNATIVE, signs, !under && (one || other)))?;
            tasks.push(single(second, under))?;
            tasks.push(single(first, under))?;
        }
        Base::Repeat(node, least, more) => tasks.push(Task {
            node,
            least,
            more,
            under,
            signs,
        })?,
    }
    Ok(())
}

/// One copy of an expression without signs.
fn single(node: u32, under: bool) -> Task
    ensures { result ≡ single node under }
{
    Task {
        node,
        least: 1,
        more: 0,
        under,
        signs: Signs::none(),
    }
}

/// One of two parts, whose numbers are not known yet.
pub const ALTERNATIVE: NodeKind = NodeKind::Alt { left: 0, right: 0 };

/// The label of a sequence, below a loop or not, from whether its parts spell the empty word. Below a loop it is one or the other
/// where both do.
fn sequence(signs: Signs, under: bool, first: bool, second: bool) -> Node
    ensures { result ≡ sequence_label signs under first second }
{
    let kind = if under && (first && second) {
        ALTERNATIVE
    } else {
        NodeKind::Seq { left: 0, right: 0 }
    };
    label(kind, signs, !under && (first && second))
}

/// A node with these signs that spells the empty word or not.
pub fn label(kind: NodeKind, signs: Signs, nullable: bool) -> Node
    ensures { result ≡ label kind signs nullable }
{
    Node {
        kind,
        loops: signs.loops,
        eps: nullable || signs.eps,
        scan: false,
        marks: signs.marks,
        eps_marks: signs.eps_marks,
    }
}
