// The line that the log takes.

ghost use Rattle.std.specs.Prelude.{◌≡◌, ◌≤◌, decimal, flat_map, OnErr};
ghost use Rattle.std.specs.Fmt.{signed_decimal};
ghost use Rattle.rx_io.specs.Causes.{Rose};
ghost use Rattle.rxc_program.specs.Endings.{change};
ghost use Rattle.rxc_program.specs.Logged.{IsLogged};
ghost use Rattle.rxc_program.specs.Pieces.{TakesText};
ghost use Rattle.rxc_program.specs.declared.status.Status.TheVariants.{Refused};
ghost use Rattle.rxc_program.specs.Codes.{code_text as text_of_code};
ghost use Rattle.rxc_program.specs.StatusText.{status_line};

use crate::status::{Code, Status};
use rx_io::{Failed, Sink, put_all};
use rx_text::{NumberText, Place};

/// Tells the log how the run ended, and answers that, whatever the log does. A log that fails loses the line or the end of it.
pub(crate) fn told<L: Sink>(log: &mut L, status: Status) -> Status
    ensures same { result ≡ status }
    ensures line { IsLogged (change L.held L.faults log.old log.new) status }
    ensures count { L.faults log.old ≤ L.faults log.new }
{
    if status == Status::Done {
        return status;
    }
    let _ = write_line(log, &status);
    status
}

fn write_line<L: Sink>(log: &mut L, status: &Status) -> Result<(), Failed>
    ensures bytes { TakesText result (L.held log.old) (L.held log.new) (status_line status.now) }
    ensures count { L.faults log.old ≤ L.faults log.new }
    ensures cause { OnErr result (Rose (L.faults log.old) (L.faults log.new)) }
{
    match status {
        Status::Done => Ok(()),
        Status::Refused { code, place } => write_refusal(log, *code, place),
        Status::Usage { word } => {
            let word = unsigned_text(*word);
            put_pieces(log, &[b"rxc: usage, word ", word.as_bytes(), b"\n"])
        }
        Status::ReadFault => put_all(log, b"rxc: read fault\n"),
        Status::WriteFault => put_all(log, b"rxc: write fault\n"),
        Status::NoMemory => put_all(log, b"rxc: no memory\n"),
    }
}

fn write_refusal<L: Sink>(log: &mut L, code: Code, place: &Place) -> Result<(), Failed>
    ensures bytes { TakesText result (L.held log.old) (L.held log.new) (status_line (Refused code place.now)) }
    ensures count { L.faults log.old ≤ L.faults log.new }
    ensures cause { OnErr result (Rose (L.faults log.old) (L.faults log.new)) }
{
    let code = code_text(code);
    match place {
        Place::Text { line, column } => {
            let (line, column) = (unsigned_text(*line), unsigned_text(*column));
            put_pieces(
                log,
                &[
                    b"rxc: ",
                    code,
                    b" at ",
                    line.as_bytes(),
                    b":",
                    column.as_bytes(),
                    b"\n",
                ],
            )
        }
        Place::Square { x, y } => {
            let (x, y) = (signed_text(*x), signed_text(*y));
            put_pieces(
                log,
                &[
                    b"rxc: ",
                    code,
                    b" at square ",
                    x.as_bytes(),
                    b",",
                    y.as_bytes(),
                    b"\n",
                ],
            )
        }
        Place::Whole => put_pieces(log, &[b"rxc: ", code, b"\n"]),
    }
}

fn code_text(code: Code) -> &'static [u8]
    ensures { result.now ≡ text_of_code code }
{
    match code {
        Code::S1 => b"S1 BadByte",
        Code::S2 => b"S2 BadToken",
        Code::S3 => b"S3 UnknownName",
        Code::S4 => b"S4 DoubleName",
        Code::S5 => b"S5 PatternLength",
        Code::S6 => b"S6 NoLines",
        Code::S7 => b"S7 NoSymbols",
        Code::S8 => b"S8 NoOutputs",
        Code::S9 => b"S9 NoExpression",
        Code::S10 => b"S10 TooManyLines",
        Code::S11 => b"S11 TooManySymbols",
        Code::S12 => b"S12 TooManyOutputs",
        Code::S13 => b"S13 TooManyLeaves",
        Code::S14 => b"S14 TooDeep",
        Code::S15 => b"S15 BadBounds",
        Code::N1 => b"N1 Syntax",
        Code::N2 => b"N2 NetOutOfRange",
        Code::N3 => b"N3 DoublePad",
        Code::N4 => b"N4 MissingPad",
        Code::N5 => b"N5 TooManyNets",
        Code::N6 => b"N6 AfterEnd",
        Code::C1 => b"C1 Syntax",
        Code::C2 => b"C2 LayerUnknown",
        Code::C3 => b"C3 NoLayer",
        Code::C4 => b"C4 SymbolUnknown",
        Code::C5 => b"C5 SymbolAgain",
        Code::C6 => b"C6 NestedDefinition",
        Code::C7 => b"C7 NotOnGrid",
        Code::C8 => b"C8 OutOfRange",
        Code::C9 => b"C9 ShapeNotInProfile",
        Code::C10 => b"C10 NoEnd",
        Code::C11 => b"C11 AfterEnd",
        Code::C12 => b"C12 BadLabel",
        Code::C13 => b"C13 TooManyBoxes",
        Code::C14 => b"C14 TooDeep",
        Code::C15 => b"C15 TooManyPoints",
        Code::X1 => b"X1 OddChannel",
        Code::X2 => b"X2 OddTerminals",
        Code::X3 => b"X3 OddLoad",
        Code::X4 => b"X4 LabelOnNothing",
        Code::X5 => b"X5 LabelsDisagree",
        Code::X6 => b"X6 MissingPad",
        Code::V1 => b"V1 BadBit",
        Code::V2 => b"V2 WrongWidth",
        Code::V3 => b"V3 TooManyVectors",
        Code::V4 => b"V4 NoChip",
        Code::I1 => b"I1 TooLong",
    }
}

fn unsigned_text(number: u32) -> NumberText
    ensures { result ≡ decimal number }
{
    NumberText::of(i128::from(number))
}

fn signed_text(number: i64) -> NumberText
    ensures { result ≡ signed_decimal number }
{
    NumberText::of(i128::from(number))
}

// Writes the pieces one after another.
fn put_pieces<L: Sink>(log: &mut L, pieces: &[&[u8]]) -> Result<(), Failed>
    ensures bytes { TakesText result (L.held log.old) (L.held log.new) (flat_map (λ piece. piece.now) pieces.now) }
    ensures count { L.faults log.old ≤ L.faults log.new }
    ensures cause { OnErr result (Rose (L.faults log.old) (L.faults log.new)) }
{
    for piece in pieces {
        put_all(log, piece)?;
    }
    Ok(())
}
