// The words of the command line, and the command that they name.

ghost use Rattle.std.specs.Prelude.{◌≡◌, ◌<◌, ◌^◌, ◌∷◌, length, bytes_eq, Some, IfOk};
ghost use Rattle.std.specs.Result.{result_err};
ghost use Rattle.rxc_program.specs.Naming.{alone, HasLeafCount, lone_command, Names};
ghost use Rattle.rxc_program.specs.Words.{command_of, wrong_word};

use crate::demo_words::demo_named;
use std::marker::Model;

/// One word of the command line, as bytes.
#[derive(Drop)]
pub struct RxWord {
    bytes: Vec<u8>,
}

impl Model for RxWord {
    ghost use Rattle.std.specs.Prelude.{List, ℕ};

    ghost Value = { List ℕ };

    ghost view = { λ w. w.bytes.items };
}

impl RxWord {
    /// The word with these bytes.
    pub fn new(bytes: Vec<u8>) -> RxWord
        ensures { result ≡ bytes.items }
    {
        RxWord { bytes }
    }

    /// The bytes of the word.
    pub(crate) fn bytes(&self) -> &[u8]
        ensures { result.now ≡ self.now }
    {
        &self.bytes
    }

    // Whether the word is this text.
    fn is(&self, text: &[u8]) -> bool
        ensures { result ≡ bytes_eq self.now text.now }
    {
        self.bytes.as_slice() == text
    }
}

/// What the words of a command line ask for.
#[derive(Clone, Copy, Debug, PartialEq, Eq)]
pub enum Command {
    /// A specification in, the text of its switch network out.
    Net,
    /// A specification in, the CIF text of its programmable logic array out.
    Pla,
    /// A specification in, the CIF text of its tree-shaped layout out.
    Tree,
    /// A CIF text in, the text of the switch network that it stands for out.
    Extract,
    /// A trace and the text of a network in, the levels of the network's outputs after each clock out.
    Sim,
    /// A specification in, the counts and areas of its layouts out.
    Report,
    /// The report of a large specification that draws from `start` make for so many leaves. It reads nothing.
    Demo { start: u64, leaves: u32 },
}

/// The command that the words name. An error is the number of the first word, from 1, at which no command goes on.
pub(crate) fn named_command(words: &[RxWord]) -> Result<Command, u32>
    ensures command { IfOk result (λ command. command_of words.now ≡ Some command) }
    ensures leaves { IfOk result HasLeafCount }
    ensures wrong { result_err result ≡ wrong_word words.now }
{
    match words {
        [first, rest @ ..] => command_behind(first, rest),
        [] => Err(1),
    }
}

/// The command that the first word and those behind it name.
fn command_behind(first: &RxWord, rest: &[RxWord]) -> Result<Command, u32>
    ensures { Names (first.now ∷ rest.now) result }
{
    match lone_command(first) {
        Some(command) => alone(command, rest),
        None if first.is(b"demo") => demo_named(rest),
        None => Err(1),
    }
}

/// The command that the word names alone.
fn lone_command(word: &RxWord) -> Option<Command>
    ensures { result ≡ lone_command word.now }
{
    if word.is(b"net") {
        Some(Command::Net)
    } else if word.is(b"pla") {
        Some(Command::Pla)
    } else if word.is(b"tree") {
        Some(Command::Tree)
    } else if word.is(b"extract") {
        Some(Command::Extract)
    } else if word.is(b"sim") {
        Some(Command::Sim)
    } else if word.is(b"report") {
        Some(Command::Report)
    } else {
        None
    }
}

/// The command of one word, where no word follows it.
fn alone(command: Command, rest: &[RxWord]) -> Result<Command, u32>
    ensures { result ≡ alone command (length rest.now) }
{
    if rest.is_empty() { Ok(command) } else { Err(2) }
}
