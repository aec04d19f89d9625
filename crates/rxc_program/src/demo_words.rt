// The words of `demo`.

ghost use Rattle.std.specs.Prelude.{◌≡◌, Some, None, if◌then◌else◌};
ghost use Rattle.std.specs.List.{list_all};
ghost use Rattle.std.specs.Str.Parse.{digits_value};
ghost use Rattle.rx_text.specs.NumberInText.{is_digit};
ghost use Rattle.rxc_program.specs.DemoWords.{is_number};
ghost use Rattle.rxc_program.specs.Naming.{demo_from, demo_named, kept};

use crate::words::{Command, RxWord};
use rx_text::{NumberFault, read_number};

/// The most symbols of a specification that is made.
const MOST_LEAVES: u64 = 4096;

/// The command that the words behind `demo` name. An error is the number of the first wrong word, where `demo` is word 1.
pub(crate) fn demo_named(words: &[RxWord]) -> Result<Command, u32>
    ensures { result ≡ demo_named words.now }
{
    match words {
        [start, rest @ ..] => match number(start.bytes(), 20, 0, u64::MAX) {
            Some(start) => demo_from(start, rest),
            None => Err(2),
        },
        [] => Err(2),
    }
}

/// The command of this start that the words behind it name.
fn demo_from(start: u64, words: &[RxWord]) -> Result<Command, u32>
    ensures { result ≡ demo_from start words.now }
{
    match words {
        [leaves, rest @ ..] => match number(leaves.bytes(), 4, 1, MOST_LEAVES) {
            Some(leaves) if rest.is_empty() => Ok(Command::Demo {
                start,
                leaves: leaves as u32,
            }),
            Some(_) => Err(4),
            None => Err(3),
        },
        [] => Err(3),
    }
}

/// The number that the word writes, where it has at most so many digits and is from `least` to `most`.
fn number(word: &[u8], digits: usize, least: u64, most: u64) -> Option<u64>
    ensures { result ≡ if is_number digits least most word.now then Some (digits_value 10 word.now) else None }
{
    if word.len() > digits {
        return None;
    }
    if !are_digits(word) {
        return None;
    }
    kept(least, read_number(word, 0, most))
}

/// The number that was read, where it is at least this one.
fn kept(least: u64, read: Result<(u64, usize), NumberFault>) -> Option<u64>
    ensures { result ≡ kept least read }
{
    match read {
        Ok((number, _)) if number >= least => Some(number),
        _ => None,
    }
}

fn are_digits(word: &[u8]) -> bool
    ensures { result ≡ list_all is_digit word.now }
{
    word.iter().all(|byte| is_digit(*byte))
}

fn is_digit(byte: u8) -> bool
    ensures { result ≡ is_digit byte }
{
    byte.is_ascii_digit()
}
