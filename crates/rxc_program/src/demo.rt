// The command `demo`: the report of a large specification that is made from a number.

ghost use Rattle.std.specs.Prelude.{◌≡◌, ◌≤◌, [], IfOk};
ghost use Rattle.rxc_program.specs.Endings.{change};
ghost use Rattle.rxc_program.specs.Reporting.{demonstrating, IsDemo};
ghost use Rattle.rxc_program.specs.Serving.{AnswersText};

use crate::figures::figures;
use crate::report::write_text;
use crate::status::Status;
use demo_spec::demo_spec;
use report_text::demo_text;
use rx_io::Sink;
use rx_text::NoMemory;
use std::alloc::Global;

/// Writes the report of the specification that draws from this number make for so many leaves. It reads nothing.
pub(crate) fn demo<O: Sink>(alloc: Global, start: u64, leaves: u32, out: &mut O) -> Status
    requires some { 1 ≤ leaves }
    requires few { leaves ≤ 4096 }
    ensures answers { AnswersText (demonstrating start leaves) (change O.held O.faults out.old out.new) [] result }
    ensures count { O.faults out.old ≤ O.faults out.new }
{
    match report_on(alloc, start, leaves) {
        Ok(text) => write_text(&text, out),
        Err(_) => Status::NoMemory,
    }
}

/// The line with both numbers, and the report.
fn report_on(alloc: Global, start: u64, leaves: u32) -> Result<Vec<u8>, NoMemory>
    requires some { 1 ≤ leaves }
    requires few { leaves ≤ 4096 }
    ensures { IfOk result (λ text. IsDemo start leaves text.items) }
{
    let spec = demo_spec(alloc, start, leaves)?;
    let figures = figures(alloc, &spec)?;
    demo_text(alloc, start, leaves, &figures)
}
