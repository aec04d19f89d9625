// Expressions below the signs that stand on them. A chain of signs may be a million long, so a loop goes through it.

ghost use Rattle.std.specs.Prelude.{◌↔◌, ◌<◌, ◌≤◌, List, length};
ghost use Rattle.rx_lang.specs.VectorWords.{MarksWord, SpellsWord, node_tree};
ghost use Rattle.rx_lang.specs.Wrapped.{HasEntries, IsLayer, MarksBelow, above, core_tree, wrap};

use crate::expr_node::ExprNode;
use crate::spec::Spec;

/// An expression without a sign on it. Its parts are numbers in the table of nodes.
#[derive(Clone, Copy)]
pub(crate) enum Core {
    Symbol(u8),
    Sequence(u32, u32),
    Union(u32, u32),
    Repeat(u32, u8, u8),
}

/// A node: an expression without a sign, a sign that lets the inner expression loop or be left out, or a mark.
#[derive(Clone, Copy)]
enum Layer {
    Plain(Core),
    Sign {
        inner: u32,
        loops: bool,
        empty: bool,
    },
    Marked {
        inner: u32,
        output: u8,
    },
}

/// What a chain of signs amounts to: whether the expression below loops, and whether the empty word is added.
#[derive(Clone, Copy)]
pub(crate) struct Wrapped {
    pub(crate) core: Core,
    pub(crate) loops: bool,
    pub(crate) empty: bool,
}

fn outermost(node: ExprNode) -> Layer
    ensures { IsLayer node result }
{
    let (inner, loops, empty) = match node {
        ExprNode::Leaf(symbol) => return Layer::Plain(Core::Symbol(symbol)),
        ExprNode::Seq(first, second) => return Layer::Plain(Core::Sequence(first, second)),
        ExprNode::Alt(one, other) => return Layer::Plain(Core::Union(one, other)),
        ExprNode::Mark(inner, output) => return Layer::Marked { inner, output },
        ExprNode::Star(inner) => (inner, true, true),
        ExprNode::Plus(inner) => (inner, true, false),
        ExprNode::Opt(inner) => (inner, false, true),
        // At most once is a sign, so that a chain of such repeats costs no calls.
        ExprNode::Repeat(inner, least, 1) => (inner, false, least == 0),
        ExprNode::Repeat(inner, least, most) => {
            return Layer::Plain(Core::Repeat(inner, least, most));
        }
    };
    Layer::Sign {
        inner,
        loops,
        empty,
    }
}

/// The expression below the signs of this node, which spells the same words.
pub(crate) fn unwrapped(spec: &Spec, expr: u32) -> Wrapped
    requires { expr < length spec.now.nodes }
    ensures entries { HasEntries spec.now result.core }
    ensures below { above result.core ≤ expr }
    ensures spells { (word : List _) → SpellsWord spec.now (node_tree spec.now expr) word ↔ SpellsWord spec.now (wrap result.loops result.empty (core_tree spec.now result.core)) word }
{
    let mut node = expr;
    let mut loops = false;
    let mut empty = false;
    loop {
        match outermost(spec.nodes()[node as usize]) {
            Layer::Plain(core) => {
                return Wrapped { core, loops, empty };
            }
            Layer::Sign {
                inner,
                loops: may_loop,
                empty: may_be_empty,
            } => {
                node = inner;
                loops |= may_loop;
                empty |= may_be_empty;
            }
            Layer::Marked { inner, .. } => node = inner,
        }
    }
}

/// What a chain of signs and marks amounts to for one output: where `marked`, each word that the wrapped expression spells
/// is marked. What the expression below marks is marked in any case, where it loops also behind its own words.
#[derive(Clone, Copy)]
pub(crate) struct Unmarked {
    pub(crate) wrapped: Wrapped,
    pub(crate) marked: bool,
}

/// The expression below the signs and marks of this node, which marks the same words for the output.
pub(crate) fn marked_below(spec: &Spec, expr: u32, output: u8) -> Unmarked
    requires { expr < length spec.now.nodes }
    ensures entries { HasEntries spec.now result.wrapped.core }
    ensures below { above result.wrapped.core ≤ expr }
    ensures marks { (word : List _) → MarksWord spec.now (node_tree spec.now expr) output word ↔ MarksBelow spec.now result.marked result.wrapped.loops result.wrapped.empty (core_tree spec.now result.wrapped.core) output word }
{
    let mut node = expr;
    let mut loops = false;
    let mut empty = false;
    let mut marked = false;
    loop {
        match outermost(spec.nodes()[node as usize]) {
            Layer::Plain(core) => {
                let wrapped = Wrapped { core, loops, empty };
                return Unmarked { wrapped, marked };
            }
            Layer::Sign {
                inner,
                loops: may_loop,
                empty: may_be_empty,
            } => {
                node = inner;
                loops |= may_loop;
                empty |= may_be_empty;
            }
            Layer::Marked {
                inner,
                output: named,
            } => {
                node = inner;
                if named == output {
                    empty &= marked;
                    marked = true;
                }
            }
        }
    }
}
