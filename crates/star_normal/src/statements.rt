// The labels of the normal form of statements.

ghost use Rattle.std.specs.Prelude.{◌||◌, ◌<◌, ◌≡◌, ℕ, ◌-◌, ◌≤◌, ◌++◌, length, map, take, IfOk, OnOk};
ghost use Rattle.rx_lang.specs.Tables.{tree_at};
ghost use Rattle.star_normal.specs.Labels.{tree_labels, label_of};
ghost use Rattle.star_normal.specs.Normal.{normal_form};
ghost use Rattle.star_normal.specs.Outlines.{AreOutlines, copied_trees, null_at};
ghost use Rattle.star_normal.specs.Unions.{AreFronts, AreRoots, some_null, scan_node, top_labels, union_labels, part_labels, scan_labels};

use crate::labelling::{ALTERNATIVE, label, put_normal};
use crate::node::Node;
use crate::outlines::Outline;
use crate::signs::Signs;
use rx_lang::ExprNode;
use rx_text::NoMemory;
use std::alloc::Global;

/// The labels of the normal form of statements, from the roots of those whose words begin at the reset, and of those whose
/// words begin at any time.
pub fn form_labels(
    alloc: Global,
    nodes: &[ExprNode],
    outlines: &[Outline],
    exprs: &[u32],
    scans: &[u32],
) -> Result<Vec<Node>, NoMemory>
    requires outlines { AreOutlines (copied_trees nodes.now) (length outlines.now) outlines.now }
    requires exprs { AreRoots outlines.now exprs.now }
    requires scans { AreRoots outlines.now scans.now }
    requires some { 1 ≤ length (exprs.now ++ scans.now) }
    ensures { IfOk result (λ list. map label_of list.items
        ≡ tree_labels (normal_form (map (tree_at (copied_trees nodes.now)) exprs.now) (map (tree_at (copied_trees nodes.now)) scans.now))) }
{
    let mut labels = Vec::new(alloc);
    put_top(&mut labels, outlines, exprs, scans)?;
    put_union(alloc, &mut labels, nodes, outlines, exprs)?;
    put_scan(alloc, &mut labels, nodes, outlines, scans)?;
    Ok(labels)
}

/// Adds the label of a root above both kinds of statements, where there are both.
fn put_top(
    labels: &mut Vec<Node>,
    outlines: &[Outline],
    exprs: &[u32],
    scans: &[u32],
) -> Result<(), NoMemory>
    requires exprs { AreRoots outlines.now exprs.now }
    requires scans { AreRoots outlines.now scans.now }
    ensures { OnOk result (labels.new.items ≡ labels.old.items ++ top_labels outlines.now exprs.now scans.now) }
{
    if !exprs.is_empty() && !scans.is_empty() {
        let nullable = is_nullable(outlines, exprs) || is_nullable(outlines, scans);
        labels.push(label(ALTERNATIVE, Signs::none(), nullable))?;
    }
    Ok(())
}

/// Whether the union of some expressions spells the empty word.
fn is_nullable(outlines: &[Outline], roots: &[u32]) -> bool
    requires { AreRoots outlines.now roots.now }
    ensures { result ≡ some_null outlines.now roots.now }
{
    for root in roots {
        if outlines[*root as usize].nullable {
            return true;
        }
    }
    false
}

/// Adds the labels of a union, whose top node's words may begin at any time.
fn put_scan(
    alloc: Global,
    labels: &mut Vec<Node>,
    nodes: &[ExprNode],
    outlines: &[Outline],
    roots: &[u32],
) -> Result<(), NoMemory>
    requires outlines { AreOutlines (copied_trees nodes.now) (length outlines.now) outlines.now }
    requires roots { AreRoots outlines.now roots.now }
    ensures { OnOk result (map label_of labels.new.items
        ≡ map label_of labels.old.items ++ scan_labels (map (tree_at (copied_trees nodes.now)) roots.now)) }
{
    let top = labels.len();
    put_union(alloc, labels, nodes, outlines, roots)?;
    if top < labels.len() {
        let node = labels[top];
        labels[top] = scanned(node);
    }
    Ok(())
}

/// The node, whose words may begin at any time.
fn scanned(node: Node) -> Node
    ensures { result ≡ scan_node node }
{
    Node { scan: true, ..node }
}

/// Adds the labels of a union, grouped to the left.
fn put_union(
    alloc: Global,
    labels: &mut Vec<Node>,
    nodes: &[ExprNode],
    outlines: &[Outline],
    roots: &[u32],
) -> Result<(), NoMemory>
    requires outlines { AreOutlines (copied_trees nodes.now) (length outlines.now) outlines.now }
    requires roots { AreRoots outlines.now roots.now }
    ensures { OnOk result (map label_of labels.new.items
        ≡ map label_of labels.old.items ++ part_labels (map (tree_at (copied_trees nodes.now)) roots.now)) }
{
    put_alternatives(alloc, labels, nodes, outlines, roots)?;
    for root in roots {
        put_normal(alloc, labels, nodes, outlines, *root)?;
    }
    Ok(())
}

/// Adds the labels of the unions, that of all before that of the first two.
fn put_alternatives(
    alloc: Global,
    labels: &mut Vec<Node>,
    nodes: &[ExprNode],
    outlines: &[Outline],
    roots: &[u32],
) -> Result<(), NoMemory>
    requires outlines { AreOutlines (copied_trees nodes.now) (length outlines.now) outlines.now }
    requires roots { AreRoots outlines.now roots.now }
    ensures { OnOk result (map label_of labels.new.items
        ≡ map label_of labels.old.items ++ union_labels (map (tree_at (copied_trees nodes.now)) roots.now) (length roots.now - 1)) }
{
    let fronts = fronts_nullable(alloc, outlines, roots)?;
    for j in (1..roots.len()).rev() {
        labels.push(label(ALTERNATIVE, Signs::none(), fronts[j]))?;
    }
    Ok(())
}

/// Whether the expressions before it spell the empty word, or it does.
fn adds(outlines: &[Outline], nullable: bool, root: u32) -> bool
    requires { root < length outlines.now }
    ensures { result ≡ (nullable || null_at outlines.now root) }
{
    nullable || outlines[root as usize].nullable
}

/// For each expression, whether it or one before it spells the empty word.
fn fronts_nullable(
    alloc: Global,
    outlines: &[Outline],
    roots: &[u32],
) -> Result<Vec<bool>, NoMemory>
    requires { AreRoots outlines.now roots.now }
    ensures { IfOk result (λ fronts. AreFronts outlines.now roots.now (length roots.now) fronts.items) }
{
    let mut fronts = Vec::with_capacity(alloc, roots.len())?;
    let mut nullable = false;
    for root in roots {
        nullable = adds(outlines, nullable, *root);
        fronts.push(nullable)?;
    }
    Ok(fronts)
}
