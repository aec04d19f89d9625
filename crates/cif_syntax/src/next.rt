// The next sentence of a text.

ghost use Rattle.std.specs.Prelude.{◌≡◌, ◌≤◌, length, drop, IfOk, IfErr};
ghost use Rattle.geom.specs.CifCommands.{AreCifBlanks};
ghost use Rattle.cif_syntax.specs.Ends.{between, EndsAt};
ghost use Rattle.cif_syntax.specs.Sentences.{NoBlank, Stands, StandsSyntax, stands_first, is_outside, sorted};

use crate::kind::is_blank;
use crate::sentence::sentence_end;
use geom::CifCode;

/// A sentence of a text that is in the profile.
#[derive(Clone, Copy, Debug, PartialEq, Eq)]
pub enum Sentence {
    /// A command: the place of its first byte, and the place behind its semicolon.
    Command { first: usize, end: usize },
    /// The `E` of the end, and its place.
    End { first: usize },
}

/// A code of the syntax, and the number of the byte at which it stands: C1, C9 or C10.
#[derive(Clone, Copy, Debug, PartialEq, Eq)]
pub struct SyntaxFault {
    pub code: CifCode,
    pub at: usize,
}

/// The sentence that stands here behind blanks. Takes no memory, and a time in proportion to the sentence.
///
/// # Errors
///
/// C1 at the byte that continues no sentence, or at which a number of a scale begins that is 0. C10 at the end of the text,
/// where it comes within the sentence or before it. C9 at the first byte of a command that begins with `R` or `DD`. Whatever
/// the commands before, this is the first code from here on, at its place.
pub fn next_sentence(text: &[u8], from: usize) -> Result<Sentence, SyntaxFault>
    requires { from ≤ length text.now }
    ensures sentence { IfOk result (λ sentence. Stands text.now from sentence) }
    ensures fault { IfErr result (λ fault. StandsSyntax text.now from fault.code fault.at) }
    ensures within { IfErr result (λ fault. fault.at ≤ length text.now) }
{
    let first = skip_blanks(text, from);
    match sentence_end(text, first) {
        Ok(end) => sort(text, first, end),
        Err(fault) => {
            if fault.at < text.len() {
                Err(SyntaxFault {
                    code: CifCode::C1,
                    at: fault.at,
                })
            } else {
                Err(SyntaxFault {
                    code: CifCode::C10,
                    at: fault.at,
                })
            }
        }
    }
}

/// What the sentence is that stands between these places.
fn sort(text: &[u8], first: usize, end: usize) -> Result<Sentence, SyntaxFault>
    requires { EndsAt text.now first end }
    ensures sorted { result ≡ sorted text.now first end }
    ensures within { IfErr result (λ fault. fault.at ≤ length text.now) }
{
    if stands(text, first, b'E') {
        Ok(Sentence::End { first })
    } else if is_outside(text, first) {
        Err(SyntaxFault {
            code: CifCode::C9,
            at: first,
        })
    } else {
        Ok(Sentence::Command { first, end })
    }
}

/// `R` or `DD` stands here.
fn is_outside(text: &[u8], at: usize) -> bool
    requires { at ≤ length text.now }
    ensures { result ≡ is_outside text.now at }
{
    stands(text, at, b'R') || (stands(text, at, b'D') && stands(text, at + 1, b'D'))
}

/// The byte stands here.
fn stands(text: &[u8], at: usize, byte: u8) -> bool
    ensures { result ≡ stands_first byte (drop at text.now) }
{
    at < text.len() && text[at] == byte
}

/// The place behind the blanks that stand here.
fn skip_blanks(text: &[u8], from: usize) -> usize
    requires { from ≤ length text.now }
    ensures order { from ≤ result }
    ensures within { result ≤ length text.now }
    ensures blanks { AreCifBlanks (between text.now from result) }
    ensures stop { NoBlank (drop result text.now) }
{
    let mut at = from;
    while at < text.len() && is_blank(text[at]) {
        at += 1;
    }
    at
}
