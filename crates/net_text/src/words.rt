// Words that are due at a place in a text.

ghost use Rattle.std.specs.Prelude.{◌≡◌, ◌≤◌, ◌+◌, length, drop, find};
ghost use Rattle.net_text.specs.Reading.{agreeing, longest, begins_line, word_at, line_at};
ghost use Rattle.net_text.specs.declared.net_fault.NetCode.TheVariants.{N1};

use crate::line_kind::LineKind;
use crate::net_fault::NetCode;

/// A code that stands in a text, and the byte at which it stands.
#[derive(Clone, Copy, Debug, PartialEq, Eq)]
pub struct TextFault {
    pub code: NetCode,
    pub at: usize,
}

/// The byte here continues no text of the shape, or the text ends here.
pub fn syntax(at: usize) -> TextFault
    ensures { result ≡ record { code = N1; at = at } }
{
    TextFault {
        code: NetCode::N1,
        at,
    }
}

/// How many bytes from the place on agree with the front of the word.
fn agreeing(text: &[u8], at: usize, word: &[u8]) -> usize
    requires { at ≤ length text.now }
    ensures count { result ≡ agreeing word.now (drop at text.now) }
    ensures within { result ≤ length word.now }
    ensures inside { at + result ≤ length text.now }
{
    let (_, rest) = text.split_at(at);
    let mut count = 0;
    while count < word.len() && count < rest.len() && rest[count] == word[count] {
        count += 1;
    }
    count
}

/// The place behind the word, which is due here.
pub fn behind_word(text: &[u8], at: usize, word: &[u8]) -> Result<usize, TextFault>
    requires { at ≤ length text.now }
    ensures { result ≡ word_at word.now at (drop at text.now) }
{
    let count = agreeing(text, at, word);
    if count < word.len() {
        return Err(syntax(at + count));
    }
    Ok(at + count)
}

/// Which of these kinds the line has that is due here, and the place behind its word.
pub fn line_kind(text: &[u8], at: usize, kinds: &[LineKind]) -> Result<(LineKind, usize), TextFault>
    requires { at ≤ length text.now }
    ensures { result ≡ line_at kinds.now at (drop at text.now) }
{
    match first_kind(text, at, kinds) {
        Some(kind) => Ok((kind, at + kind.word().len())),
        None => Err(syntax(at + longest(text, at, kinds))),
    }
}

/// The first of the kinds whose word stands here.
fn first_kind(text: &[u8], at: usize, kinds: &[LineKind]) -> Option<LineKind>
    requires { at ≤ length text.now }
    ensures { result ≡ find (begins_line (drop at text.now)) kinds.now }
{
    kinds.iter().copied().find(|kind| begins(text, at, *kind))
}

/// A line of this kind begins here.
fn begins(text: &[u8], at: usize, kind: LineKind) -> bool
    requires { at ≤ length text.now }
    ensures { result ≡ begins_line (drop at text.now) kind }
{
    agreeing(text, at, kind.word()) == kind.word().len()
}

/// How many bytes from here on agree with the front of a word of these kinds, at most.
fn longest(text: &[u8], at: usize, kinds: &[LineKind]) -> usize
    requires { at ≤ length text.now }
    ensures count { result ≡ longest kinds.now (drop at text.now) }
    ensures inside { at + result ≤ length text.now }
{
    let mut most = 0;
    for kind in kinds {
        most = most.max(agreeing(text, at, kind.word()));
    }
    most
}
