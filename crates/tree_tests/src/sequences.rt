//! Trees of every shape, by the parentheses of their specifications.

use rx_syntax::read_spec;
use star_normal::{Tree, normalize};
use std::alloc::Global;
use std::test::Fail;

/// How a sequence is parted in two, and each part again: all but the last leaf and the last one, the first leaf and the others,
/// halves, all but eight leaves and eight, or at pseudo-random. Sequences without parentheses group to the left; the copies of a
/// counted repeat, of which there are at most 255, nest to the right, deeper than parentheses may.
#[derive(Clone, Copy)]
pub(crate) enum Way {
    Left,
    Right,
    Halves,
    Comb,
    Random,
}

/// What is still to be written of a sequence.
#[derive(Clone, Copy)]
enum Piece {
    Leaves(u32),
    Text(&'static str),
}

/// More pieces than a sequence of 4096 leaves has.
const MOST_PIECES: u32 = 40_000;

/// The next number at random.
fn random(seed: &mut u64) -> u32 {
    *seed = seed.wrapping_mul(1_103_515_245).wrapping_add(12_345) % 0x8000_0000;
    (*seed / 0x1_0000 % 0x8000) as u32
}

/// How many of so many leaves, which are at least two, the first part has.
fn first_part(way: Way, leaves: u32, seed: &mut u64) -> u32 {
    let rest = leaves.saturating_sub(1);
    match way {
        Way::Left => rest,
        Way::Right => 1,
        Way::Halves => leaves / 2,
        Way::Comb if leaves > 8 => leaves - 8,
        Way::Comb => leaves / 2,
        Way::Random => random(seed)
            .checked_rem(rest)
            .unwrap_or(0)
            .saturating_add(1),
    }
}

/// What opens and closes a part of a sequence.
fn brackets(leaves: u32) -> (&'static str, &'static str) {
    if leaves > 1 { ("(", ")") } else { ("", "") }
}

/// Adds the two parts of a sequence of so many leaves, the first one last: a part of more than one leaf stands in parentheses, but
/// for the first one, which needs none.
fn part_in_two(pieces: &mut Vec<Piece>, way: Way, leaves: u32, seed: &mut u64) -> Result<(), Fail> {
    let first = first_part(way, leaves, seed);
    let second = leaves.saturating_sub(first);
    let (opened, closed) = brackets(second);
    pieces.push(Piece::Text(closed))?;
    pieces.push(Piece::Leaves(second))?;
    pieces.push(Piece::Text(opened))?;
    pieces.push(Piece::Text(" "))?;
    pieces.push(Piece::Leaves(first))?;
    Ok(())
}

/// The expression of a sequence of so many leaves.
fn sequence(alloc: Global, way: Way, leaves: u32) -> Result<String, Fail> {
    let mut text = String::new(alloc);
    let mut seed = u64::from(leaves);
    let mut pieces = Vec::new(alloc);
    pieces.push(Piece::Leaves(leaves))?;
    for _ in 0..MOST_PIECES {
        match pieces.pop() {
            None => return Ok(text),
            Some(Piece::Text(piece)) => text.push_str(piece)?,
            Some(Piece::Leaves(0 | 1)) => text.push_str("a")?,
            Some(Piece::Leaves(count)) => part_in_two(&mut pieces, way, count, &mut seed)?,
        }
    }
    Err("too many pieces".into())
}

/// The tree of the specification.
pub(crate) fn tree_of_text(alloc: Global, text: &str) -> Result<Tree, Fail> {
    if text.len() >= 1 << 20 {
        return Err("too long".into());
    }
    let spec = read_spec(alloc, text.as_bytes(), 4096)?;
    Ok(normalize(alloc, &spec)?)
}

/// The tree of the expression, whose end is marked.
pub(crate) fn tree_of_expression(alloc: Global, expression: &str) -> Result<Tree, Fail> {
    let text = format!(in alloc;
        "version 2; line x; symbol a = 1; output z; expr {expression} !z;"
    )?;
    tree_of_text(alloc, text.as_str())
}

/// The tree of a sequence of so many leaves.
pub(crate) fn tree_of_way(alloc: Global, way: Way, leaves: u32) -> Result<Tree, Fail> {
    let expression = match way {
        Way::Right => format!(in alloc; "a{{{leaves},{leaves}}}")?,
        _ => sequence(alloc, way, leaves)?,
    };
    tree_of_expression(alloc, expression.as_str())
}
