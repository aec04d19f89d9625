// Whether a specification has a counted repeat.

ghost use Rattle.std.specs.Prelude.{◌≡◌, ◌<◌, ◌≤◌, All, List, IfOk, length, map, slice_index_or, false};
ghost use Rattle.rx_lang.specs.Expression.{Expr};
ghost use Rattle.rx_lang.specs.Tables.{children, specification, tree_at, tree_of, trees};
ghost use Rattle.rx_syntax.specs.Printed.{has_repeat, have_repeat, needs_version_2};

use rx_lang::{ExprNode, Spec};
use rx_text::NoMemory;
use std::alloc::Global;

/// Whether a counted repeat or a `scan` statement stands in the specification.
pub(crate) fn needs_version_2(alloc: Global, spec: &Spec) -> Result<bool, NoMemory>
    ensures { IfOk result (λ needs. needs ≡ needs_version_2 (specification spec.now)) }
{
    let repeats = find_repeats(alloc, spec)?;
    Ok(
        have_repeat(&repeats, spec.exprs())
            || have_repeat(&repeats, spec.scans())
            || !spec.scans().is_empty(),
    )
}

// Whether each expression has a counted repeat.
fn find_repeats(alloc: Global, spec: &Spec) -> Result<Vec<bool>, NoMemory>
    ensures { IfOk result (λ tests. tests.items ≡ map has_repeat (trees spec.now.nodes)) }
{
    let mut tests = Vec::new(alloc);
    for node in spec.nodes() {
        tests.push(node_repeats(&tests, *node))?;
    }
    Ok(tests)
}

// Whether the expression of a node has a counted repeat, where this is known of its parts.
fn node_repeats(tests: &[bool], node: ExprNode) -> bool
    requires { All (λ child. child < length tests.now) (children node) }
    ensures { (made : List Expr) → tests.now ≡ map has_repeat made → result ≡ has_repeat (tree_of made node) }
{
    match node {
        ExprNode::Leaf(_) => false,
        ExprNode::Seq(one, other) | ExprNode::Alt(one, other) => {
            let first = test_at(tests, one);
            let second = test_at(tests, other);
            first | second
        }
        ExprNode::Star(inner)
        | ExprNode::Plus(inner)
        | ExprNode::Opt(inner)
        | ExprNode::Mark(inner, _) => test_at(tests, inner),
        ExprNode::Repeat(..) => true,
    }
}

// Whether the expression with this number has a counted repeat.
fn test_at(tests: &[bool], k: u32) -> bool
    requires { k < length tests.now }
    ensures { (made : List Expr) → tests.now ≡ map has_repeat made → result ≡ has_repeat (tree_at made k) }
{
    tests[k as usize]
}

// Whether one of the expressions with these roots has a counted repeat.
fn have_repeat(tests: &[bool], roots: &[u32]) -> bool
    requires { All (λ root. root < length tests.now) roots.now }
    ensures { (made : List Expr) → tests.now ≡ map has_repeat made → result ≡ have_repeat (map (tree_at made) roots.now) }
{
    for root in roots {
        if test_at(tests, *root) {
            return true;
        }
    }
    false
}
