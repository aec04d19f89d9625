// Specifications as texts. Expressions are printed from a stack of the pieces that wait, so deep ones cost no calls.

ghost use Rattle.std.specs.Prelude.{◌≡◌, ◌<◌, ◌++◌, All, List, flat_map, length, map, IfOk, OnOk, if◌then◌else◌};
ghost use Rattle.rx_lang.specs.Tables.{specification, tree_of};
ghost use Rattle.rx_lang.specs.Expression.{Expr};
ghost use Rattle.rx_lang.specs.VectorWords.{node_tree};
ghost use Rattle.rx_syntax.specs.Tokens.{place_byte};
ghost use Rattle.rx_syntax.specs.Printed.{bounds_text, is_compound, is_union, names_text, printed, symbol_text, version_text};
ghost use Rattle.rx_syntax.specs.Pieces.{IsPiece, Puts, Stacked, node_statement, node_text};
ghost use Rattle.rx_syntax.specs.declared.print.Piece.TheVariants.{Enclosed, Node};

use crate::repeats::needs_version_2;
use rx_lang::laws::trees_are_made_of_their_children;
use rx_lang::{ExprNode, PatternBit, Spec, Symbol};
use rx_text::{Name, NoMemory, NumberText};
use std::alloc::Global;

/// A piece of an expression: the tree of a node, that in parentheses, or what stands between and behind trees.
#[derive(Clone, Copy)]
enum Piece {
    Node(u32),
    Enclosed(u32),
    Or,
    Then,
    Star,
    Plus,
    Optional,
    Mark(u8),
    Bounds(u8, u8),
    Close,
}

/// The text of a specification: the statement of its lines, one for each symbol, the statement of its outputs, and one for
/// each expression, each on a line of its own. The line `version 2;` stands before them exactly where a counted repeat or
/// a `scan` statement follows. Parentheses stand only where they are needed.
pub fn print_spec(alloc: Global, spec: &Spec) -> Result<Vec<u8>, NoMemory>
    ensures { IfOk result (λ text. text.items ≡ printed (specification spec.now)) }
{
    let mut text = Vec::new(alloc);
    put_version(&mut text, needs_version_2(alloc, spec)?)?;
    put_names(&mut text, b"line", spec.lines())?;
    for symbol in spec.symbols() {
        put_symbol(&mut text, symbol)?;
    }
    put_names(&mut text, b"output", spec.outputs())?;
    put_statements(alloc, &mut text, spec, b"expr", spec.exprs())?;
    put_statements(alloc, &mut text, spec, b"scan", spec.scans())?;
    Ok(text)
}

fn put_version(text: &mut Vec<u8>, needed: bool) -> Result<(), NoMemory>
    ensures { OnOk result (text.new.items ≡ text.old.items ++ version_text needed) }
{
    if needed {
        text.extend_from_slice(b"version 2;\n")?;
    }
    Ok(())
}

// The statements of this keyword, whose expressions have these roots.
fn put_statements(
    alloc: Global,
    text: &mut Vec<u8>,
    spec: &Spec,
    keyword: &[u8],
    roots: &[u32],
) -> Result<(), NoMemory>
    requires { All (λ root. root < length spec.now.nodes) roots.now }
    ensures { OnOk result (text.new.items ≡ text.old.items ++ flat_map (λ root. node_statement spec.now keyword.now root) roots.now) }
{
    for root in roots {
        put_statement(alloc, text, spec, keyword, *root)?;
    }
    Ok(())
}

fn put_names(text: &mut Vec<u8>, keyword: &[u8], names: &[Name]) -> Result<(), NoMemory>
    ensures { OnOk result (text.new.items ≡ text.old.items ++ names_text keyword.now names.now) }
{
    text.extend_from_slice(keyword)?;
    for name in names {
        text.push(b' ')?;
        text.extend_from_slice(name.as_bytes())?;
    }
    text.extend_from_slice(b";\n")?;
    Ok(())
}

fn put_symbol(text: &mut Vec<u8>, symbol: &Symbol) -> Result<(), NoMemory>
    ensures { OnOk result (text.new.items ≡ text.old.items ++ symbol_text symbol.now) }
{
    text.extend_from_slice(b"symbol ")?;
    text.extend_from_slice(symbol.name.as_bytes())?;
    text.extend_from_slice(b" = ")?;
    put_pattern(text, &symbol.pattern)?;
    text.extend_from_slice(b";\n")?;
    Ok(())
}

fn put_pattern(text: &mut Vec<u8>, pattern: &[PatternBit]) -> Result<(), NoMemory>
    ensures { OnOk result (text.new.items ≡ text.old.items ++ map place_byte pattern.now) }
{
    for place in pattern {
        text.push(byte_of_place(*place))?;
    }
    Ok(())
}

fn byte_of_place(place: PatternBit) -> u8
    ensures { result ≡ place_byte place }
{
    match place {
        PatternBit::Zero => b'0',
        PatternBit::One => b'1',
        PatternBit::Any => b'-',
    }
}

fn put_statement(
    alloc: Global,
    text: &mut Vec<u8>,
    spec: &Spec,
    keyword: &[u8],
    root: u32,
) -> Result<(), NoMemory>
    requires { root < length spec.now.nodes }
    ensures { OnOk result (text.new.items ≡ text.old.items ++ node_statement spec.now keyword.now root) }
{
    text.extend_from_slice(keyword)?;
    text.push(b' ')?;
    put_expr(alloc, text, spec, root)?;
    text.extend_from_slice(b";\n")?;
    Ok(())
}

fn put_expr(alloc: Global, text: &mut Vec<u8>, spec: &Spec, root: u32) -> Result<(), NoMemory>
    requires { root < length spec.now.nodes }
    ensures { OnOk result (text.new.items ≡ text.old.items ++ node_text spec.now root) }
{
    let mut stack = Vec::new(alloc);
    stack.push(Piece::Node(root))?;
    while let Some(piece) = stack.pop() {
        put_piece(text, &mut stack, spec, piece)?;
    }
    Ok(())
}

// Prints the piece, or lets its parts wait.
fn put_piece(
    text: &mut Vec<u8>,
    stack: &mut Vec<Piece>,
    spec: &Spec,
    piece: Piece,
) -> Result<(), NoMemory>
    requires { IsPiece spec.now piece }
    ensures { OnOk result (Puts spec.now piece text.old.items text.new.items stack.old.items stack.new.items) }
{
    match piece {
        Piece::Node(node) => put_node(text, stack, spec, node)?,
        Piece::Enclosed(node) => {
            text.push(b'(')?;
            stack.push(Piece::Close)?;
            stack.push(Piece::Node(node))?;
        }
        Piece::Or => text.extend_from_slice(b" | ")?,
        Piece::Then => text.push(b' ')?,
        Piece::Star => text.push(b'*')?,
        Piece::Plus => text.push(b'+')?,
        Piece::Optional => text.push(b'?')?,
        Piece::Mark(output) => {
            text.extend_from_slice(b" !")?;
            let name = &spec.outputs()[output as usize];
            text.extend_from_slice(name.as_bytes())?;
        }
        Piece::Bounds(least, most) => put_bounds(text, least, most)?,
        Piece::Close => text.push(b')')?,
    }
    Ok(())
}

// Prints a symbol, or lets the parts of another expression wait, the first one last.
fn put_node(
    text: &mut Vec<u8>,
    stack: &mut Vec<Piece>,
    spec: &Spec,
    node: u32,
) -> Result<(), NoMemory>
    requires { node < length spec.now.nodes }
    ensures { OnOk result (Puts spec.now (Node node) text.old.items text.new.items stack.old.items stack.new.items) }
{
    trees_are_made_of_their_children();
    match spec.nodes()[node as usize] {
        ExprNode::Leaf(symbol) => {
            let declared = &spec.symbols()[symbol as usize];
            text.extend_from_slice(declared.name.as_bytes())?;
        }
        ExprNode::Seq(first, second) => {
            stack.push(enclosed_if(is_compound(spec, second), second))?;
            stack.push(Piece::Then)?;
            stack.push(enclosed_if(is_union(spec, first), first))?;
        }
        ExprNode::Alt(one, other) => {
            stack.push(enclosed_if(is_union(spec, other), other))?;
            stack.push(Piece::Or)?;
            stack.push(Piece::Node(one))?;
        }
        ExprNode::Star(inner) => put_signed(stack, spec, inner, Piece::Star)?,
        ExprNode::Plus(inner) => put_signed(stack, spec, inner, Piece::Plus)?,
        ExprNode::Opt(inner) => put_signed(stack, spec, inner, Piece::Optional)?,
        ExprNode::Mark(inner, output) => put_signed(stack, spec, inner, Piece::Mark(output))?,
        ExprNode::Repeat(inner, least, most) => {
            put_signed(stack, spec, inner, Piece::Bounds(least, most))?;
        }
    }
    Ok(())
}

fn put_bounds(text: &mut Vec<u8>, least: u8, most: u8) -> Result<(), NoMemory>
    ensures { OnOk result (text.new.items ≡ text.old.items ++ bounds_text least most) }
{
    text.push(b'{')?;
    text.extend_from_slice(NumberText::of(i128::from(least)).as_bytes())?;
    text.push(b',')?;
    text.extend_from_slice(NumberText::of(i128::from(most)).as_bytes())?;
    text.push(b'}')?;
    Ok(())
}

// Lets an inner expression wait before the sign that stands on it.
fn put_signed(stack: &mut Vec<Piece>, spec: &Spec, inner: u32, sign: Piece) -> Result<(), NoMemory>
    requires { inner < length spec.now.nodes }
    ensures { OnOk result (Stacked spec.now inner sign stack.old.items stack.new.items) }
{
    stack.push(sign)?;
    stack.push(enclosed_if(is_compound(spec, inner), inner))?;
    Ok(())
}

fn enclosed_if(needed: bool, node: u32) -> Piece
    ensures { result ≡ (if needed then Enclosed node else Node node) }
{
    if needed {
        Piece::Enclosed(node)
    } else {
        Piece::Node(node)
    }
}

fn is_union(spec: &Spec, node: u32) -> bool
    requires { node < length spec.now.nodes }
    ensures { result ≡ is_union (node_tree spec.now node) }
{
    trees_are_made_of_their_children();
    is_union_node(spec.nodes()[node as usize])
}

fn is_compound(spec: &Spec, node: u32) -> bool
    requires { node < length spec.now.nodes }
    ensures { result ≡ is_compound (node_tree spec.now node) }
{
    trees_are_made_of_their_children();
    is_compound_node(spec.nodes()[node as usize])
}

fn is_union_node(node: ExprNode) -> bool
    ensures { (before : List Expr) → result ≡ is_union (tree_of before node) }
{
    matches!(node, ExprNode::Alt(..))
}

fn is_compound_node(node: ExprNode) -> bool
    ensures { (before : List Expr) → result ≡ is_compound (tree_of before node) }
{
    matches!(node, ExprNode::Alt(..) | ExprNode::Seq(..))
}
