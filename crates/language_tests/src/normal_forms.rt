//! Normal forms written out.

use crate::rows::read;
use star_normal::{Node, NodeKind, Tree, normalize, sizes};
use std::alloc::Global;
use std::test::Fail;

/// What stands behind `line x; symbol a = 1; symbol b = 0; symbol c = -; output y z;`, and its normal form. A leaf is the number of
/// its symbol. Any other node is its parts around `.` for a sequence and `|` for a union, in parentheses, and `#` with the number
/// of its leaves. `+` stands behind a node where it loops, `?` where it spells the empty word, `!` and a mask where it marks
/// outputs, and `%` and a mask where it marks them at the empty word.
const FORMS: &[(&str, &str)] = &[
    ("expr ((a*)* | b?)+ !y;", "(0|1)#2+?!1%1"),
    ("expr ((a !y)* b?)*;", "(0!1|1)#2+?"),
    ("expr (a+ b)*;", "(0+.1)#2+?"),
    ("expr a !y; expr b+ !z;", "(0!1|1+!2)#2"),
    ("expr a b | c;", "((0.1)#2|2)#3"),
    ("expr (a? !y)*;", "0+?!1%1"),
];

/// The text of a part, which stands before its node.
fn part_text(texts: &[String], part: u32) -> Result<&str, Fail> {
    match texts.get(part as usize) {
        Some(text) => Ok(text.as_str()),
        None => Err("a part stands behind its node".into()),
    }
}

/// What the node is made of.
fn kind_text(alloc: Global, kind: NodeKind, leaves: u32, texts: &[String]) -> Result<String, Fail> {
    match kind {
        NodeKind::Leaf(symbol) => Ok(format!(in alloc; "{symbol}")?),
        NodeKind::Seq { left, right } => {
            let left = part_text(texts, left)?;
            let right = part_text(texts, right)?;
            Ok(format!(in alloc; "({left}.{right})#{leaves}")?)
        }
        NodeKind::Alt { left, right } => {
            let left = part_text(texts, left)?;
            let right = part_text(texts, right)?;
            Ok(format!(in alloc; "({left}|{right})#{leaves}")?)
        }
    }
}

/// The sign and the mask, if it marks an output.
fn mask_text(alloc: Global, sign: &str, mask: u16) -> Result<String, Fail> {
    if mask == 0 {
        return Ok(String::new(alloc));
    }
    Ok(format!(in alloc; "{sign}{mask}")?)
}

fn node_text(alloc: Global, node: &Node, leaves: u32, texts: &[String]) -> Result<String, Fail> {
    let kind = kind_text(alloc, node.kind, leaves, texts)?;
    let loops = if node.loops { "+" } else { "" };
    let empty = if node.eps { "?" } else { "" };
    let marks = mask_text(alloc, "!", node.marks)?;
    let at_empty = mask_text(alloc, "%", node.eps_marks)?;
    Ok(format!(in alloc; "{kind}{loops}{empty}{marks}{at_empty}")?)
}

/// The normal form as a text.
fn form_text(alloc: Global, tree: &Tree) -> Result<String, Fail> {
    let mut texts = Vec::new(alloc);
    for (node, leaves) in tree.nodes().iter().zip(sizes(alloc, tree)?.iter()) {
        let text = node_text(alloc, node, *leaves, &texts)?;
        texts.push(text)?;
    }
    Ok(part_text(&texts, tree.root())?.to_string(alloc)?)
}

/// The normal form of what these expressions declare and say.
fn form_of(alloc: Global, expressions: &str) -> Result<String, Fail> {
    let head = "line x; symbol a = 1; symbol b = 0; symbol c = -; output y z;";
    let text = format!(in alloc; "{head}{expressions}")?;
    let spec = read(alloc, text.as_str(), 4096)??;
    let tree = normalize(alloc, &spec)?;
    form_text(alloc, &tree)
}

#[test]
fn writes_normal_forms(rt: HostRuntime) -> Result<(), Fail> {
    for (expressions, form) in FORMS {
        assert_eq!(rt;
            form_of(rt.alloc(), expressions)?.as_str(),
            *form,
            "{expressions}"
        );
    }
    Ok(())
}
