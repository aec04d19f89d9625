// The command `report`: a specification in, the counts and areas of its layouts out.

ghost use Rattle.std.specs.Prelude.{◌≡◌, ◌≤◌, true, length, All, IfErr, IfOk};
ghost use Rattle.rx_lang.specs.Tables.{IsSpecification, specification};
ghost use Rattle.rx_text.specs.Name.{is_name};
ghost use Rattle.rxc_program.specs.Behaviour.{most_input_bytes};
ghost use Rattle.rxc_program.specs.Compiling.{BreaksSpecification};
ghost use Rattle.rxc_program.specs.Endings.{change, CommandRun};
ghost use Rattle.rxc_program.specs.Files.{most_leaves, tree_file};
ghost use Rattle.rxc_program.specs.Reporting.{IsReportOf, IsReported, reporting};
ghost use Rattle.rxc_program.specs.Serving.{AnswersText, StopsBy, TakesPiece};

use crate::figures::figures;
use crate::input::{read_input, specification};
use crate::status::Status;
use report_text::report_text;
use rx_io::{Sink, Source, put_all};
use rx_lang::Spec;
use rx_syntax::laws::accepted_names_are_names;
use rx_text::NoMemory;
use std::alloc::Global;

/// The most symbols in the expressions of a specification.
const MOST_LEAVES: u32 = 4096;

/// Reads a specification and writes its report.
pub(crate) fn report<S: Source, O: Sink>(alloc: Global, src: &mut S, out: &mut O) -> Status
    ensures { CommandRun reporting (change S.left S.faults src.old src.new) (change O.held O.faults out.old out.new) result }
{
    match read_input(alloc, src) {
        Ok(text) => answer(alloc, &text, out),
        Err(status) => status,
    }
}

/// Writes the report of the specification that the text is.
fn answer<O: Sink>(alloc: Global, text: &[u8], out: &mut O) -> Status
    requires { length text.now ≤ most_input_bytes }
    ensures answers { AnswersText reporting (change O.held O.faults out.old out.new) text.now result }
    ensures count { O.faults out.old ≤ O.faults out.new }
{
    match report_on(alloc, text) {
        Ok(report) => write_text(&report, out),
        Err(status) => status,
    }
}

/// The report of the specification that the text is.
fn report_on(alloc: Global, text: &[u8]) -> Result<Vec<u8>, Status>
    requires { length text.now ≤ most_input_bytes }
    ensures report { IfOk result (λ report. IsReported text.now report.items) }
    ensures status { IfErr result (StopsBy (BreaksSpecification (most_leaves tree_file) text.now)) }
{
    accepted_names_are_names();
    let spec = specification(alloc, text, MOST_LEAVES)?;
    match report_of(alloc, &spec) {
        Ok(report) => Ok(report),
        Err(_) => Err(Status::NoMemory),
    }
}

/// The report of the specification.
fn report_of(alloc: Global, spec: &Spec) -> Result<Vec<u8>, NoMemory>
    requires tables { IsSpecification spec.now }
    requires lines { All (λ name. is_name name ≡ true) spec.now.lines }
    requires outputs { All (λ name. is_name name ≡ true) spec.now.outputs }
    ensures { IfOk result (λ report. IsReportOf (specification spec.now) report.items) }
{
    let figures = figures(alloc, spec)?;
    report_text(alloc, &figures)
}

/// Writes the text.
pub(crate) fn write_text<O: Sink>(text: &[u8], out: &mut O) -> Status
    ensures taken { TakesPiece (change O.held O.faults out.old out.new) text.now result }
    ensures count { O.faults out.old ≤ O.faults out.new }
{
    match put_all(out, text) {
        Ok(()) => Status::Done,
        Err(_) => Status::WriteFault,
    }
}
