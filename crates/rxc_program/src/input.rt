// The input of a command.

ghost use Rattle.std.specs.Prelude.{◌≡◌, ◌≤◌, true, length, IfErr, IfOk, vec_len};
ghost use Rattle.rx_lang.specs.Tables.{specification};
ghost use Rattle.rx_syntax.specs.Accepted.{Accepted};
ghost use Rattle.rxc_program.specs.Behaviour.{most_input_bytes};
ghost use Rattle.rxc_program.specs.Endings.{change, HasRead, LostInput};
ghost use Rattle.rxc_program.specs.Compiling.{BreaksSpecification};
ghost use Rattle.rxc_program.specs.Serving.{StopsBy, StopsReading};

use crate::status::{Code, Status};
use rx_io::{ReadAllFault, Source, read_all};
use rx_lang::Spec;
use rx_syntax::{ReadSpecFault, read_spec};
use rx_text::Place;
use std::alloc::Global;

/// The most bytes that an input has.
const MOST_INPUT: u64 = 67_108_864;

/// The whole input.
pub(crate) fn read_input<S: Source>(alloc: Global, src: &mut S) -> Result<Vec<u8>, Status>
    ensures text { IfOk result (λ text. HasRead true (change S.left S.faults src.old src.new) text.items) }
    ensures within { IfOk result (λ text. vec_len text ≤ most_input_bytes) }
    ensures lost { IfOk result (λ text. LostInput (change S.left S.faults src.old src.new)) }
    ensures status { IfErr result (StopsReading (change S.left S.faults src.old src.new)) }
    ensures count { S.faults src.old ≤ S.faults src.new }
{
    match read_all(alloc, src, MOST_INPUT) {
        Ok(text) => Ok(text),
        Err(ReadAllFault::Failed) => Err(Status::ReadFault),
        Err(ReadAllFault::TooLong) => Err(Status::Refused {
            code: Code::I1,
            place: Place::Whole,
        }),
        Err(ReadAllFault::NoMemory) => Err(Status::NoMemory),
    }
}

/// The specification that the text is, whose expressions have at most so many symbols.
pub(crate) fn specification(alloc: Global, text: &[u8], most: u32) -> Result<Spec, Status>
    requires some { 1 ≤ most }
    requires few { most ≤ 4096 }
    requires within { length text.now ≤ most_input_bytes }
    ensures accepted { IfOk result (λ spec. Accepted text.now most (specification spec)) }
    ensures status { IfErr result (StopsBy (BreaksSpecification most text.now)) }
{
    match read_spec(alloc, text, most) {
        Ok(spec) => Ok(spec),
        Err(ReadSpecFault::Fault(fault)) => Err(Status::Refused {
            code: Code::of_spec(fault.code),
            place: fault.place,
        }),
        Err(ReadSpecFault::NoMemory) => Err(Status::NoMemory),
    }
}
