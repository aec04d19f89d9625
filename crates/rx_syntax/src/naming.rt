// The names and patterns of a specification, and the first fault of names and limits.

ghost use Rattle.std.specs.Prelude.{◌≡◌, ◌==◌, ℕ, nat_le, true, length, map, None, Some, IfOk, IfErr, OnOk, if◌then◌else◌};
ghost use Rattle.std.specs.List.{list_all};
ghost use Rattle.std.specs.Str.Parse.{digits_value};
ghost use Rattle.rx_text.specs.NumberInText.{is_digit};
ghost use Rattle.rx_syntax.specs.Uses.{is_among, is_declared, bound_code, bounds_code, declaration_code};
ghost use Rattle.rx_syntax.specs.WordUses.{leaf_word, mark_word, word_code};
ghost use Rattle.rx_syntax.specs.UsesRead.{repeated_leaves};
ghost use Rattle.rx_syntax.specs.Accepted.{place_bit};
ghost use Rattle.rx_syntax.specs.Refusals.{IsShaped};
ghost use Rattle.rx_syntax.specs.NameTables.{AreNameTables};
ghost use Rattle.rx_syntax.specs.NameReading.{Declares};
ghost use Rattle.rx_syntax.specs.NameSteps.{nothing_read, declared_in, MayFollow, IsBound, IsWordOf, code_at, read_at, code_over, read_over, Refuses, IsNamesFault};

use crate::bounds::bound_of;
use crate::declarations::Declarations;
use crate::lexeme::piece_at;
use crate::machine::{Due, State};
use crate::spec_code::SpecCode;
use crate::tally::Tally;
use crate::use_kind::{UseKind, use_of};
use crate::version::version_of;
use rx_lang::PatternBit;
use rx_text::NoMemory;
use smallvec::SmallVec;
use std::alloc::Global;
use thiserror::Error;

/// The most lines, symbols and outputs.
const MOST_LINES: usize = 16;

const MOST_SYMBOLS: usize = 32;

const MOST_OUTPUTS: usize = 16;

/// Why the names of a specification were not read.
#[derive(Clone, Copy, Debug, PartialEq, Eq, Error)]
pub(crate) enum NamesFault {
    /// This code stands at this byte.
    #[error("a name or a limit is at fault at byte {at}")]
    Fault { code: SpecCode, at: usize },
    /// An allocation was refused.
    #[error("no memory")]
    NoMemory,
}

impl From<NoMemory> for NamesFault {
    ghost use Rattle.std.specs.Prelude.{◌≡◌};
    ghost use Rattle.rx_syntax.specs.declared.naming.NamesFault.TheVariants as fault;

    ghost from_gives = { λ _ e. e ≡ fault.NoMemory };

    fn from(_refused: NoMemory) -> NamesFault {
        NamesFault::NoMemory
    }
}

/// What is declared up to a place of a text, and how many symbols expressions have up to there.
#[derive(Drop)]
struct Reading<'a> {
    declarations: Declarations<'a>,
    tally: Tally,
}

fn place_bit(byte: u8) -> PatternBit
    ensures { result ≡ place_bit byte }
{
    match byte {
        b'0' => PatternBit::Zero,
        b'1' => PatternBit::One,
        _ => PatternBit::Any,
    }
}

fn pattern_of(alloc: Global, word: &[u8]) -> Result<SmallVec<PatternBit, 16>, NoMemory>
    ensures { IfOk result (λ pattern. pattern.items ≡ map place_bit word.now) }
{
    let mut pattern = SmallVec::new(alloc);
    for byte in word {
        pattern.push(place_bit(*byte))?;
    }
    Ok(pattern)
}

// The code at a pattern, where there are so many lines.
fn pattern_code(word: &[u8], lines: usize) -> Option<SpecCode>
    ensures { result ≡ (if length word.now == lines then None else Some SpecCode.S5) }
{
    if word.len() == lines {
        None
    } else {
        Some(SpecCode::S5)
    }
}

// The code at the first number in braces.
fn least_code(digits: &[u8]) -> Option<SpecCode>
    requires { list_all is_digit digits.now ≡ true }
    ensures { result ≡ bound_code (digits_value 10 digits.now) }
{
    match bound_of(digits) {
        Some(_) => None,
        None => Some(SpecCode::S15),
    }
}

// The code at the second number in braces, behind this one.
fn most_code(least: u8, digits: &[u8]) -> Option<SpecCode>
    requires { list_all is_digit digits.now ≡ true }
    ensures { result ≡ bounds_code least (digits_value 10 digits.now) }
{
    match bound_of(digits) {
        Some(most) if most >= 1 && least <= most => None,
        _ => Some(SpecCode::S15),
    }
}

impl<'a> Reading<'a> {
    fn new(alloc: Global) -> Reading<'a>
        ensures { result ≡ nothing_read }
    {
        Reading {
            declarations: Declarations::new(alloc),
            tally: Tally::new(alloc),
        }
    }

    // The code at a name where it is declared, beside so many of its sort.
    fn declaration_code(
        &self,
        word: &[u8],
        count: usize,
        most: usize,
        too_many: SpecCode,
    ) -> Option<SpecCode>
        ensures { result ≡ declaration_code (is_declared word.now (declared_in self.now)) count most too_many }
    {
        if self.declarations.declares(word) {
            Some(SpecCode::S4)
        } else if count >= most {
            Some(too_many)
        } else {
            None
        }
    }

    // The code at a symbol in an expression.
    fn leaf_code(&self, word: &[u8], most_leaves: u32) -> Option<SpecCode>
        ensures { result ≡ word_code most_leaves (declared_in self.now) (leaf_word word.now) }
    {
        if self.declarations.symbol(word).is_none() {
            Some(SpecCode::S3)
        } else if self.tally.leaves() >= most_leaves {
            Some(SpecCode::S13)
        } else {
            None
        }
    }

    // The code at the output of a mark.
    fn mark_code(&self, word: &[u8]) -> Option<SpecCode>
        ensures { result ≡ word_code 0 (declared_in self.now) (mark_word word.now) }
    {
        if self.declarations.output(word).is_none() {
            Some(SpecCode::S3)
        } else {
            None
        }
    }

    // The code at the end of a counted repeat.
    fn copies_code(&self, most_leaves: u32) -> Option<SpecCode>
        ensures { result ≡ (if nat_le (repeated_leaves self.now.tally) most_leaves then None else Some SpecCode.S13) }
    {
        if self.tally.repeated_leaves() <= u64::from(most_leaves) {
            None
        } else {
            Some(SpecCode::S13)
        }
    }

    // The code that stands at a word that is used so.
    fn code(&self, used: UseKind, word: &[u8], most_leaves: u32) -> Option<SpecCode>
        requires { IsWordOf (Some used) word.now }
        ensures { result ≡ code_at most_leaves self.now used word.now }
    {
        let lines = self.declarations.line_count();
        let symbols = self.declarations.symbol_count();
        let outputs = self.declarations.output_count();
        match used {
            UseKind::Line => { self.declaration_code(word, lines, MOST_LINES, SpecCode::S10) }
            UseKind::Symbol => { self.declaration_code(word, symbols, MOST_SYMBOLS, SpecCode::S11) }
            UseKind::Pattern => pattern_code(word, lines),
            UseKind::Output => { self.declaration_code(word, outputs, MOST_OUTPUTS, SpecCode::S12) }
            UseKind::Leaf | UseKind::FurtherLeaf => self.leaf_code(word, most_leaves),
            UseKind::Mark => self.mark_code(word),
            UseKind::Open | UseKind::Close => None,
            UseKind::Least => least_code(word),
            UseKind::Most => most_code(self.tally.least(), word),
            UseKind::Copies => self.copies_code(most_leaves),
        }
    }

    // Goes on behind a word at which no code stands.
    fn take(&mut self, alloc: Global, used: UseKind, word: &'a [u8]) -> Result<(), NoMemory>
        requires { MayFollow used word.now self.old }
        ensures { OnOk result (self.new ≡ read_at self.old used word.now) }
    {
        match used {
            UseKind::Line => self.declarations.add_line(word)?,
            UseKind::Symbol => self.declarations.add_symbol(alloc, word)?,
            UseKind::Pattern => {
                let pattern = pattern_of(alloc, word)?;
                self.declarations.set_pattern(pattern);
            }
            UseKind::Output => self.declarations.add_output(word)?,
            UseKind::Leaf => self.tally.begin_part(),
            UseKind::FurtherLeaf => self.tally.add_leaf(),
            UseKind::Mark => {}
            UseKind::Open => self.tally.open_part()?,
            UseKind::Close => self.tally.close_part(),
            UseKind::Least => self.tally.set_least(bound_of(word).unwrap()),
            UseKind::Most => self.tally.set_most(bound_of(word).unwrap()),
            UseKind::Copies => self.tally.add_copies(),
        }
        Ok(())
    }

    // Reads a piece of the text, whose word is used so. It refuses the piece where a code stands at it.
    fn read_piece(
        &mut self,
        alloc: Global,
        used: Option<UseKind>,
        word: &'a [u8],
        at: usize,
        most_leaves: u32,
    ) -> Result<(), NamesFault>
        requires { IsWordOf used word.now }
        ensures none { OnOk result (code_over most_leaves self.old used word.now ≡ None) }
        ensures read { OnOk result (self.new ≡ read_over self.old used word.now) }
        ensures fault { IfErr result (λ fault. Refuses (code_over most_leaves self.old used word.now) at fault) }
    {
        let Some(used) = used else {
            return Ok(());
        };
        match self.code(used, word, most_leaves) {
            Some(code) => Err(NamesFault::Fault { code, at }),
            None => Ok(self.take(alloc, used, word)?),
        }
    }
}

/// Reads the names and patterns of a text that has the shape of a specification, where its expressions may have so many
/// symbols, copies under counted repeats among them. It is `Ok` exactly where no name, pattern, number or count is at
/// fault. A fault is the first in the text among the codes `S3`, `S4`, `S5`, `S10`, `S11`, `S12`, `S13` and `S15`, and the
/// lowest of those at one place. One entry stands for each open parenthesis, and numbers take no memory.
pub(crate) fn read_names<'a>(
    alloc: Global,
    text: &'a [u8],
    most_leaves: u32,
) -> Result<Declarations<'a>, NamesFault>
    requires { IsShaped text.now }
    ensures declares { IfOk result (λ declarations. Declares text.now most_leaves declarations) }
    ensures tables { IfOk result (λ declarations. AreNameTables declarations) }
    ensures fault { IfErr result (λ fault. IsNamesFault text.now most_leaves fault) }
{
    let (version, start) = version_of(text);
    let mut reading = Reading::new(alloc);
    let mut at = start;
    let mut state = State {
        due: Due::FirstLine,
        depth: 0,
    };
    while at < text.len() {
        let (kind, behind) = piece_at(version, text, at);
        let used = use_of(state.due, kind);
        reading.read_piece(alloc, used, &text[at..behind], at, most_leaves)?;
        match state.over(kind) {
            Ok(next) => state = next,
            Err(code) => return Err(NamesFault::Fault { code, at }),
        }
        at = behind;
    }
    Ok(reading.declarations)
}
