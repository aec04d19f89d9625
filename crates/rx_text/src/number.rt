// Decimal numbers in a text.

ghost use Rattle.std.specs.Prelude.{◌≡◌, ◌≤◌, ◌+◌, ◌*◌, nat_le, length, drop, take_while, All, Some, None, IsTrue, if◌then◌else◌};
ghost use Rattle.std.specs.Char.{digit_value};
ghost use Rattle.std.specs.List.{prefix_len};
ghost use Rattle.std.specs.Str.Parse.{digits_value};
ghost use Rattle.rx_text.specs.NumberInText.{is_digit, digits_at, number_at};

use thiserror::Error;

/// Why no number is read.
#[derive(Clone, Copy, Debug, PartialEq, Eq, Error)]
pub enum NumberFault {
    /// No digit stands there.
    #[error("no number")]
    BadNumber,
    /// The number is too large.
    #[error("the number is too large")]
    NumberTooLarge,
}

/// Reads the longest run of digits at a place of the text: the number that they write, and the place behind them. Leading
/// zeros are allowed. Takes no memory.
///
/// # Errors
///
/// `BadNumber` where no digit stands there, as beyond the end of the text, `NumberTooLarge` where the number exceeds `most`.
pub fn read_number(text: &[u8], at: usize, most: u64) -> Result<(u64, usize), NumberFault>
    ensures { result ≡ number_at text.now at most }
{
    if at > text.len() {
        return Err(NumberFault::BadNumber);
    }
    let digits = digits_at(text, at);
    if digits.is_empty() {
        return Err(NumberFault::BadNumber);
    }
    match value(digits, most) {
        Some(value) => Ok((value, at + digits.len())),
        None => Err(NumberFault::NumberTooLarge),
    }
}

// The longest run of digits at the place.
fn digits_at(text: &[u8], at: usize) -> &[u8]
    requires { at ≤ length text.now }
    ensures digits { result.now ≡ digits_at text.now at }
    ensures all { All (λ byte. IsTrue (is_digit byte)) result.now }
    ensures within { at + length result.now ≤ length text.now }
{
    let (_, rest) = text.split_at(at);
    &rest[..digit_count(rest)]
}

// How many digits stand at the front.
fn digit_count(text: &[u8]) -> usize
    ensures count { result ≡ prefix_len is_digit text.now }
    ensures within { result ≤ length text.now }
{
    text.iter().take_while(|byte| is_digit(**byte)).count()
}

fn is_digit(byte: u8) -> bool
    ensures { result ≡ is_digit byte }
{
    byte.is_ascii_digit()
}

// The number that the digits write, where it is at most this one.
fn value(digits: &[u8], most: u64) -> Option<u64>
    requires { All (λ byte. IsTrue (is_digit byte)) digits.now }
    ensures { result ≡ if nat_le (digits_value 10 digits.now) most then Some (digits_value 10 digits.now) else None }
{
    let mut value = 0;
    for digit in digits {
        value = longer(value, *digit, most)?;
    }
    Some(value)
}

// The number with one more digit, where it is at most this one.
fn longer(value: u64, digit: u8, most: u64) -> Option<u64>
    requires digit { IsTrue (is_digit digit) }
    ensures { result ≡ if nat_le (value * 10 + digit_value digit) most then Some (value * 10 + digit_value digit) else None }
{
    let next = u128::from(value) * 10 + u128::from(digit - b'0');
    if next <= u128::from(most) {
        Some(next as u64)
    } else {
        None
    }
}
