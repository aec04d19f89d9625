// Texts, sentence by sentence.

ghost use Rattle.std.specs.Prelude.{◌≡◌, ◌-◌, ◌≤◌, ◌<◌, ◌^◌, length, take, drop, IfOk, IfErr, OnOk, None};
ghost use Rattle.geom.specs.CifRefusals.{IsCifText, DrawsFrom};
ghost use Rattle.rx_text.specs.TextPlace.{place_behind};
ghost use Rattle.cif_syntax.specs.Sentences.{IsEndAt};
ghost use Rattle.cif_read.specs.declared.faults.ReadCifFault.TheVariants.{Fault};
ghost use Rattle.cif_read.specs.Marks.{IsMark, place_of};
ghost use Rattle.cif_read.specs.States.{state_of, IsReader};
ghost use Rattle.cif_read.specs.Reading.{IsReadCifFault, IsStepFault, Steps, stop_fault};

use crate::faults::{CifFault, ReadCifFault};
use crate::mark::Mark;
use crate::reader::Reader;
use cif_codes::text_end;
use cif_drawing::Drawing;
use cif_figures::FigureFault;
use cif_syntax::{Sentence, next_sentence};
use geom::CifCode;
use rx_text::place_at;
use std::alloc::Global;

/// Reads a CIF text, sentence by sentence. Takes memory and time in proportion to the text, and no stack for what is nested
/// in it.
///
/// # Errors
///
/// `Fault` where the text is refused: the first code in the text, C1 to C12, C14 or C15, at its place; of the codes of one
/// command C1 and C10 come alone, the others by their numbers. A text that draws never gets a `Fault`. `NoMemory` where an
/// allocation was refused.
pub fn read_cif(alloc: Global, text: &[u8]) -> Result<Drawing, ReadCifFault>
    requires { length text.now < 2 ^ 32 - 1 }
    ensures text { IfOk result (λ drawing. IsCifText text.now drawing) }
    ensures fault { IfErr result (λ fault. IsReadCifFault text.now fault) }
{
    let mut reader = Reader::new(alloc);
    let mut mark = Mark::start(text);
    while let Some(next) = reader.read_sentence(alloc, text, mark)? {
        mark = next;
    }
    Ok(reader.finish())
}

impl Reader {
    /// Reads the sentence that stands here behind blanks: the place behind it, or `None` where it ends the text.
    fn read_sentence(
        &mut self,
        alloc: Global,
        text: &[u8],
        mark: Mark,
    ) -> Result<Option<Mark>, ReadCifFault>
        requires few_bytes { length text.now < 2 ^ 32 - 1 }
        requires mark { IsMark text.now mark }
        requires reader { IsReader self.old }
        ensures step { IfOk result (λ next. Steps text.now mark self.old self.new next) }
        ensures fault { IfErr result (λ fault. IsStepFault text.now mark.at (state_of self.old) fault) }
    {
        match next_sentence(text, mark.at) {
            Ok(Sentence::End { first }) => self.end(text, mark.at, first),
            Ok(Sentence::Command { first, end }) => {
                let here = mark.forward(text, first);
                match self.read_command(alloc, text, first, end, here.place()) {
                    Ok(()) => Ok(Some(here.forward(text, end))),
                    Err(fault) => Err(stopped(fault, here)),
                }
            }
            Err(fault) => Err(fault_at(text, fault.code, fault.at)),
        }
    }

    /// Ends the text at the `E` here.
    fn end(&self, text: &[u8], from: usize, first: usize) -> Result<Option<Mark>, ReadCifFault>
        requires few_bytes { length text.now < 2 ^ 32 - 1 }
        requires stands { IsEndAt text.now from first }
        requires reader { IsReader self.now }
        ensures last { IfOk result (λ next. next ≡ None) }
        ensures end { OnOk result (DrawsFrom (state_of self.now) (take from text.now) (drop from text.now) (state_of self.now)) }
        ensures fault { IfErr result (λ fault. IsStepFault text.now from (state_of self.now) fault) }
    {
        match text_end(text, first, self.is_open()) {
            Ok(()) => Ok(None),
            Err(wrong) => Err(fault_at(text, wrong.code, wrong.at)),
        }
    }
}

/// The code at the byte of this number.
fn fault_at(text: &[u8], code: CifCode, at: usize) -> ReadCifFault
    requires few_bytes { length text.now < 2 ^ 32 - 1 }
    requires within { at ≤ length text.now }
    ensures { result ≡ Fault (record { code = code; place = place_behind (take at text.now) }) }
{
    ReadCifFault::Fault(CifFault {
        code,
        place: place_at(text, at),
    })
}

/// Why reading stops at a command that begins here.
fn stopped(fault: FigureFault, here: Mark) -> ReadCifFault
    ensures { result ≡ stop_fault fault (place_of here) }
{
    match fault {
        FigureFault::Meets(code) => ReadCifFault::Fault(CifFault {
            code,
            place: here.place().place(),
        }),
        FigureFault::NoMemory => ReadCifFault::NoMemory,
    }
}
