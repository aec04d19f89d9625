// Numbers and names that are due at a place in a text.

ghost use Rattle.std.specs.Prelude.{◌≡◌, ◌≤◌, ◌+◌, length, drop, take, OnOk};
ghost use Rattle.std.specs.List.{prefix_len};
ghost use Rattle.rx_text.specs.Name.{is_name_byte};
ghost use Rattle.rx_text.specs.NumberInText.{is_digit};
ghost use Rattle.net_text.specs.Shape.{numeral_length};
ghost use Rattle.net_text.specs.Reading.{number_below, number_due, name_length, name_at};

use crate::net_fault::NetCode;
use crate::words::{TextFault, behind_word, syntax};
use rx_text::name::is_inside_name;
use rx_text::{Name, NumberFault, read_number};

/// The most bytes that a name has.
const MOST_NAME_BYTES: usize = 31;

/// The number that is due here, which is below the limit, and the word behind it. A number that is not below it has this
/// code.
pub fn number_before(
    text: &[u8],
    at: usize,
    limit: u32,
    code: NetCode,
    word: &[u8],
) -> Result<(u32, usize), TextFault>
    requires { at ≤ length text.now }
    ensures { result ≡ number_due limit code word.now at text.now }
{
    let (value, behind) = number_below(text, at, limit, code)?;
    let next = behind_word(text, behind, word)?;
    Ok((value, next))
}

/// The number that is due here, which is below the limit, and the place behind it.
fn number_below(
    text: &[u8],
    at: usize,
    limit: u32,
    code: NetCode,
) -> Result<(u32, usize), TextFault>
    requires { at ≤ length text.now }
    ensures is { result ≡ number_below limit code at (drop at text.now) }
    ensures inside { OnOk result (at + numeral_length (drop at text.now) ≤ length text.now) }
{
    let (_, rest) = text.split_at(at);
    let count = numeral_length(rest);
    match read_number(&rest[..count], 0, u64::from(limit)) {
        Err(NumberFault::BadNumber) => Err(syntax(at)),
        Err(NumberFault::NumberTooLarge) => Err(TextFault { code, at }),
        Ok((value, _)) => {
            if value < u64::from(limit) {
                Ok((value as u32, at + count))
            } else {
                Err(TextFault { code, at })
            }
        }
    }
}

/// How many bytes at the front are one numeral: `0` alone, or the longest run of digits.
fn numeral_length(text: &[u8]) -> usize
    ensures count { result ≡ numeral_length text.now }
    ensures within { result ≤ length text.now }
{
    match text {
        [b'0', ..] => 1,
        _ => digit_count(text),
    }
}

/// How many digits stand at the front.
fn digit_count(text: &[u8]) -> usize
    ensures count { result ≡ prefix_len is_digit text.now }
    ensures within { result ≤ length text.now }
{
    text.iter().take_while(|byte| is_digit(**byte)).count()
}

fn is_digit(byte: u8) -> bool
    ensures { result ≡ is_digit byte }
{
    byte.is_ascii_digit()
}

/// The name that is due here, and the place behind it and the space that follows it.
pub fn name_before_space(text: &[u8], at: usize) -> Result<(Name, usize), TextFault>
    requires { at ≤ length text.now }
    ensures { result ≡ name_at at text.now }
{
    let (_, rest) = text.split_at(at);
    let count = name_length(rest);
    match Name::new(&rest[..count]) {
        Some(name) => {
            let next = behind_word(text, at + count, b" ")?;
            Ok((name, next))
        }
        None => Err(syntax(at)),
    }
}

/// How many bytes at the front stand in names, up to the most that a name has.
fn name_length(text: &[u8]) -> usize
    ensures count { result ≡ name_length text.now }
    ensures within { result ≤ length text.now }
{
    name_run(text).min(MOST_NAME_BYTES)
}

/// How many bytes at the front stand in names.
fn name_run(text: &[u8]) -> usize
    ensures count { result ≡ prefix_len is_name_byte text.now }
    ensures within { result ≤ length text.now }
{
    text.iter()
        .take_while(|byte| is_inside_name(**byte))
        .count()
}
