// The versions of the specification language, and the version of a text.

ghost use Rattle.std.specs.Prelude.{◌≡◌, ◌≤◌, ℕ, [], IfNone, IfSome, codes, bytes_eq, length};
ghost use Rattle.rx_syntax.specs.Heads.{IsNext, head_test, is_semicolon, lexeme_of};
ghost use Rattle.rx_syntax.specs.Lexemes.{BeginsVersion2, IsOfVersion, LexemesFrom, word_of};
ghost use Rattle.rx_syntax.specs.declared.version.Version.TheVariants.{Two};

use crate::kind::Kind;
use crate::lexeme::{is_word, piece_at};

/// A version of the specification language.
#[derive(Clone, Copy, Debug, PartialEq, Eq)]
pub enum Version {
    /// The language without counted repeats, classes and scans.
    One,
    /// The language with them. Its texts begin with `version 2;`.
    Two,
}

/// A token, the place of its first byte, and the place behind it.
#[derive(Clone, Copy)]
struct Token {
    kind: Kind,
    start: usize,
    behind: usize,
}

/// The version of a text, and the place at which its lines may begin.
pub(crate) fn version_of(text: &[u8]) -> (Version, usize)
    ensures is_of { IsOfVersion text.now result.0 result.1 }
    ensures within { result.1 ≤ length text.now }
{
    match head_behind(text) {
        Some(behind) => (Version::Two, behind),
        None => (Version::One, 0),
    }
}

// The place behind `version 2;`, where the text begins with it by the tokens of version 2.
fn head_behind(text: &[u8]) -> Option<usize>
    ensures begins { IfSome result (λ behind. BeginsVersion2 text.now behind) }
    ensures within { IfSome result (λ behind. behind ≤ length text.now) }
    ensures none { IfNone result ((behind : ℕ) → BeginsVersion2 text.now behind → ⊥) }
{
    let name = next_token(text, 0)?;
    let two = next_token(text, name.behind)?;
    let sign = next_token(text, two.behind)?;
    if is_head(text, name, two, sign) {
        Some(sign.behind)
    } else {
        None
    }
}

// The token at this place or behind it.
fn next_token(text: &[u8], from: usize) -> Option<Token>
    requires { from ≤ length text.now }
    ensures some { IfSome result (λ t. IsNext text.now from t) }
    ensures none { IfNone result (LexemesFrom Two text.now from []) }
{
    let mut at = from;
    while at < text.len() {
        let (kind, behind) = piece_at(Version::Two, text, at);
        if let Some(kind) = kind {
            return Some(Token {
                kind,
                start: at,
                behind,
            });
        }
        at = behind;
    }
    None
}

fn is_head(text: &[u8], name: Token, two: Token, sign: Token) -> bool
    requires name { (name.start ≤ name.behind) × (name.behind ≤ length text.now) }
    requires two { (two.start ≤ two.behind) × (two.behind ≤ length text.now) }
    ensures { result ≡ head_test text.now (lexeme_of name) (lexeme_of two) (lexeme_of sign) }
{
    let is_version = is_word(&text[name.start..name.behind], b"version");
    let is_two = is_word(&text[two.start..two.behind], b"2");
    is_version && is_two && sign.kind == Kind::Semicolon
}
