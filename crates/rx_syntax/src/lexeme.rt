// The tokens of a specification with their kinds and places, read one at a time.

ghost use Rattle.std.specs.Prelude.{◌≡◌, ◌+◌, ◌<◌, ◌≤◌, length, drop, codes, bytes_eq};
ghost use Rattle.std.specs.List.{prefix_len};
ghost use Rattle.rx_text.specs.Name.{is_name_byte};
ghost use Rattle.rx_syntax.specs.Tokens.{is_in_comment, is_gap_byte, is_run_byte};
ghost use Rattle.rx_syntax.specs.Lexemes.{brace_kind, first_kind, first_size, name_kind, run_kind, scan_kind, sign_kind, size_behind, token_kind, word_kind};

use crate::bytes::{is_blank, is_number, is_pattern, is_run_byte, name_length, run_length};
use crate::kind::Kind;
use crate::version::Version;
use rx_text::name::starts_name;

/// The most bytes that a name has.
const MOST_NAME_BYTES: usize = 31;

// How many bytes at the front go on with a comment.
fn comment_length(text: &[u8]) -> usize
    ensures { result ≡ prefix_len is_in_comment text.now }
{
    text.iter().take_while(|byte| **byte != b'\n').count()
}

// How many bytes go on with what this byte begins.
fn size_behind(version: Version, byte: u8, rest: &[u8]) -> usize
    ensures size { result ≡ size_behind version byte rest.now }
    ensures within { result ≤ length rest.now }
{
    if byte == b'#' {
        comment_length(rest)
    } else if starts_name(byte) {
        name_length(rest)
    } else if is_run_byte(version, byte) {
        run_length(version, rest)
    } else {
        0
    }
}

pub(crate) fn is_word(word: &[u8], keyword: &[u8]) -> bool
    ensures { result ≡ bytes_eq word.now keyword.now }
{
    word == keyword
}

fn is_line(word: &[u8]) -> bool
    ensures { result ≡ bytes_eq word.now (codes "line") }
{
    is_word(word, b"line")
}

fn is_symbol(word: &[u8]) -> bool
    ensures { result ≡ bytes_eq word.now (codes "symbol") }
{
    is_word(word, b"symbol")
}

fn is_output(word: &[u8]) -> bool
    ensures { result ≡ bytes_eq word.now (codes "output") }
{
    is_word(word, b"output")
}

fn is_expr(word: &[u8]) -> bool
    ensures { result ≡ bytes_eq word.now (codes "expr") }
{
    is_word(word, b"expr")
}

fn is_scan(word: &[u8]) -> bool
    ensures { result ≡ bytes_eq word.now (codes "scan") }
{
    is_word(word, b"scan")
}

fn word_kind(version: Version, word: &[u8]) -> Kind
    ensures { result ≡ word_kind version word.now }
{
    if is_line(word) {
        Kind::Line
    } else if is_symbol(word) {
        Kind::Symbol
    } else if is_output(word) {
        Kind::Output
    } else if is_expr(word) {
        Kind::Expr
    } else {
        scan_kind(version, word)
    }
}

// `scan` is a keyword of version 2 alone.
fn scan_kind(version: Version, word: &[u8]) -> Kind
    ensures { result ≡ scan_kind version word.now }
{
    match version {
        Version::Two if is_scan(word) => Kind::Scan,
        _ => name_kind(word),
    }
}

fn name_kind(word: &[u8]) -> Kind
    ensures { result ≡ name_kind word.now }
{
    if word.len() <= MOST_NAME_BYTES {
        Kind::Name
    } else {
        Kind::Long
    }
}

// What a run serves as.
fn run_kind(run: &[u8]) -> Kind
    ensures { result ≡ run_kind run.now }
{
    match (is_pattern(run), is_number(run)) {
        (true, true) => Kind::Bits,
        (true, false) => Kind::Pattern,
        (false, true) => Kind::Number,
        (false, false) => Kind::Run,
    }
}

// Braces, the comma and brackets are signs of version 2 alone.
fn brace_kind(version: Version, byte: u8) -> Kind
    ensures { result ≡ brace_kind version byte }
{
    match (version, byte) {
        (Version::Two, b'{') => Kind::OpenBrace,
        (Version::Two, b'}') => Kind::CloseBrace,
        (Version::Two, b',') => Kind::Comma,
        (Version::Two, b'[') => Kind::OpenBracket,
        (Version::Two, b']') => Kind::CloseBracket,
        _ => Kind::Bad,
    }
}

fn sign_kind(version: Version, byte: u8) -> Kind
    ensures { result ≡ sign_kind version byte }
{
    match byte {
        b'|' => Kind::Bar,
        b'*' => Kind::Star,
        b'+' => Kind::Plus,
        b'?' => Kind::Question,
        b'!' => Kind::Mark,
        b'(' => Kind::Open,
        b')' => Kind::Close,
        b'=' => Kind::Equals,
        b';' => Kind::Semicolon,
        _ => brace_kind(version, byte),
    }
}

fn is_gap_byte(byte: u8) -> bool
    ensures { result ≡ is_gap_byte byte }
{
    is_blank(byte) || byte == b'#'
}

// The kind of the token, which begins with this byte.
fn token_kind(version: Version, first: u8, token: &[u8]) -> Kind
    ensures { result ≡ token_kind version first token.now }
{
    if starts_name(first) {
        word_kind(version, token)
    } else if is_run_byte(version, first) {
        run_kind(token)
    } else {
        sign_kind(version, first)
    }
}

// How many bytes the blank, comment or token at the front has.
pub(crate) fn first_size(version: Version, text: &[u8]) -> usize
    ensures size { result ≡ first_size version text.now }
    ensures within { result ≤ length text.now }
{
    match text.split_first() {
        None => 0,
        Some((first, rest)) => 1 + size_behind(version, *first, rest),
    }
}

// What kind of token stands at the front, where it is no blank and no comment, and how many bytes it has.
fn first_piece(version: Version, text: &[u8]) -> (Option<Kind>, usize)
    ensures kind { result.0 ≡ first_kind version text.now }
    ensures size { result.1 ≡ first_size version text.now }
    ensures within { result.1 ≤ length text.now }
{
    let size = first_size(version, text);
    let (piece, _) = text.split_at(size);
    match piece.first() {
        Some(first) if !is_gap_byte(*first) => (Some(token_kind(version, *first, piece)), size),
        _ => (None, size),
    }
}

/// What kind of token stands at this place of a text, where it is no blank and no comment, and the place behind it.
pub(crate) fn piece_at(version: Version, text: &[u8], at: usize) -> (Option<Kind>, usize)
    requires { at < length text.now }
    ensures kind { result.0 ≡ first_kind version (drop at text.now) }
    ensures behind { result.1 ≡ at + first_size version (drop at text.now) }
    ensures within { result.1 ≤ length text.now }
    ensures further { at < result.1 }
{
    let (_, rest) = text.split_at(at);
    let (kind, size) = first_piece(version, rest);
    (kind, at + size)
}
