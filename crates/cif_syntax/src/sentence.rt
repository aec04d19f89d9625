// Where a sentence ends.

ghost use Rattle.std.specs.Prelude.{◌≡◌, ◌≤◌, ◌-◌, ◌<◌, ◌^◌, length, IfOk, IfErr};
ghost use Rattle.cif_syntax.specs.Ends.{EndsAt, BreaksAt};
ghost use Rattle.cif_syntax.specs.Runs.{then_run, fault_place, is_in_number, is_whole};

use crate::due::Due;
use crate::kind::kind_of;

/// The number of the byte that breaks a sentence; or the end of the text, where it is cut.
#[derive(Clone, Copy, Debug, PartialEq, Eq)]
pub struct SentenceFault {
    pub at: usize,
}

/// The place behind the sentence whose first byte is here: a command with its semicolon, the `E` of the end, or the letters
/// of commands outside the profile, `R` and `DD`. Takes no memory, and a time in proportion to the sentence.
///
/// # Errors
///
/// The byte that continues no sentence, or at which a number of a scale begins that is 0; or the end of the text, where it
/// comes within a sentence.
pub fn sentence_end(text: &[u8], from: usize) -> Result<usize, SentenceFault>
    requires { from ≤ length text.now }
    ensures end { IfOk result (λ next. EndsAt text.now from next) }
    ensures fault { IfErr result (λ fault. BreaksAt text.now from fault.at) }
{
    let mut run = Run {
        due: Due::First,
        at: from,
        number: from,
    };
    while !is_whole(run.due) {
        if run.at == text.len() {
            return Err(run.fault());
        }
        let Some(next) = run.due.step(kind_of(text[run.at])) else {
            return Err(run.fault());
        };
        run = run.then(next);
    }
    Ok(run.at)
}

/// A sentence up to a place: what is due there, and where its last number begins.
#[derive(Clone, Copy, Debug, PartialEq, Eq)]
struct Run {
    due: Due,
    at: usize,
    number: usize,
}

impl Run {
    /// Behind one byte more.
    fn then(self, next: Due) -> Run
        requires { self.at < 2 ^ 64 - 1 }
        ensures { result ≡ then_run self next }
    {
        Run {
            due: next,
            at: self.at + 1,
            number: if is_in_number(self.due) {
                self.number
            } else {
                self.at
            },
        }
    }

    /// The place at which the sentence breaks.
    fn fault(self) -> SentenceFault
        ensures { result ≡ record { at = fault_place self } }
    {
        match self.due {
            Due::Digits(slot, true) if slot.is_scale() => SentenceFault { at: self.number },
            _ => SentenceFault { at: self.at },
        }
    }
}

/// Nothing is due.
fn is_whole(due: Due) -> bool
    ensures { result ≡ is_whole due }
{
    match due {
        Due::Whole => true,
        _ => false,
    }
}

/// Digits of a number stand before.
fn is_in_number(due: Due) -> bool
    ensures { result ≡ is_in_number due }
{
    match due {
        Due::Digits(_, _) => true,
        _ => false,
    }
}
