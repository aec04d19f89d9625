//! Rows of tables, and the texts that they stand for.

use rx_lang::Spec;
use rx_syntax::{ReadSpecFault, read_spec};
use std::alloc::Global;
use std::test::Fail;

/// Adds the piece, in which `@` stands for the number of its turn.
fn push_turn(alloc: Global, text: &mut String, piece: &str, turn: u32) -> Result<(), Fail> {
    match piece.split_once('@') {
        None => text.push_str(piece)?,
        Some((before, behind)) => {
            text.push_str(before)?;
            text.push_str(format!(in alloc; "{turn}")?.as_str())?;
            text.push_str(behind)?;
        }
    }
    Ok(())
}

/// The text of a row, in which a part `<N*PIECE>` stands for N times the piece.
pub(crate) fn expanded(alloc: Global, row: &str) -> Result<String, Fail> {
    let mut text = String::new(alloc);
    for part in row.split('<') {
        match part.split_once('>') {
            None => text.push_str(part)?,
            Some((repeated, rest)) => {
                let (times, piece) = repeated.split_once('*').ok_or("no number")?;
                for turn in 0..times.parse::<u32>()? {
                    push_turn(alloc, &mut text, piece, turn)?;
                }
                text.push_str(rest)?;
            }
        }
    }
    Ok(text)
}

/// What is read of a text that is not too long, where its expressions may have so many symbols.
pub(crate) fn read(
    alloc: Global,
    text: &str,
    most_leaves: u32,
) -> Result<Result<Spec, ReadSpecFault>, Fail> {
    if text.len() >= 1 << 20 || most_leaves == 0 || most_leaves > 4096 {
        return Err("too much".into());
    }
    Ok(read_spec(alloc, text.as_bytes(), most_leaves))
}
