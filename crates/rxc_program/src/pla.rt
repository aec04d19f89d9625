// The command `pla`: a specification in, the CIF text of its programmable logic array out.

ghost use Rattle.std.specs.Prelude.{◌≡◌, ◌≤◌, true, length, All, IfErr, IfOk};
ghost use Rattle.rx_lang.specs.Positions.{occurrence_symbols};
ghost use Rattle.rx_lang.specs.Tables.{IsSpecification, specification};
ghost use Rattle.rx_text.specs.Name.{is_name};
ghost use Rattle.cif_write.specs.ChipText.{chip_text};
ghost use Rattle.rxc_program.specs.Behaviour.{most_input_bytes};
ghost use Rattle.rxc_program.specs.Compiling.{BreaksSpecification, compiling, IsCompiled};
ghost use Rattle.rxc_program.specs.Endings.{change, CommandRun};
ghost use Rattle.rxc_program.specs.Files.{IsFileOf, most_leaves, pla_file};
ghost use Rattle.rxc_program.specs.Serving.{AnswersText, StopsBy, TakesPiece};

use crate::drawn::{DrawnArray, WrittenChip};
use crate::input::{read_input, specification};
use crate::status::Status;
use cif_write::{chip_texts_draw, write_cif};
use geom::Chip;
use micro_tiles::laws::tiles_keep_inside;
use nmos_model::laws::equal_drawings_are_alike;
use pla_plan::array_laws::{arrays_fill, arrays_have_sizes, automata_make_arrays};
use pla_plan::laws::planes_are_plans;
use pla_plan::{pad_labels, plan};
use position_nfa::laws::registers_have_the_terms;
use position_nfa::positions;
use rx_io::{Sink, Source};
use rx_lang::Spec;
use rx_syntax::laws::{accepted_names_are_names, accepted_specifications_have_few_symbols};
use rx_text::NoMemory;
use star_normal::normalize;
use std::alloc::Global;
use tile_rules::laws::tiles_keep_rules;

/// The most symbols in the expressions of a specification.
const MOST_LEAVES: u32 = 256;

/// Reads a specification and writes the text of its array.
pub(crate) fn pla<S: Source, O: Sink>(alloc: Global, src: &mut S, out: &mut O) -> Status
    ensures { CommandRun (compiling pla_file) (change S.left S.faults src.old src.new) (change O.held O.faults out.old out.new) result }
{
    match read_input(alloc, src) {
        Ok(text) => answer(alloc, &text, out),
        Err(status) => status,
    }
}

/// Writes the text of the array of the specification that the text is.
fn answer<O: Sink>(alloc: Global, text: &[u8], out: &mut O) -> Status
    requires { length text.now ≤ most_input_bytes }
    ensures answers { AnswersText (compiling pla_file) (change O.held O.faults out.old out.new) text.now result }
    ensures count { O.faults out.old ≤ O.faults out.new }
{
    match compile(alloc, text) {
        Ok(chip) => write_chip(&chip, out),
        Err(status) => status,
    }
}

/// The chip of the specification that the text is.
fn compile(alloc: Global, text: &[u8]) -> Result<Chip, Status>
    requires { length text.now ≤ most_input_bytes }
    ensures file { IfOk result (λ chip. IsCompiled pla_file text.now (chip_text chip)) }
    ensures status { IfErr result (StopsBy (BreaksSpecification (most_leaves pla_file) text.now)) }
{
    accepted_names_are_names();
    accepted_specifications_have_few_symbols();
    let spec = specification(alloc, text, MOST_LEAVES)?;
    match array_chip(alloc, &spec) {
        Ok(chip) => Ok(chip),
        Err(_) => Err(Status::NoMemory),
    }
}

/// The chip of the array of the positions of the specification's normal form.
fn array_chip(alloc: Global, spec: &Spec) -> Result<Chip, NoMemory>
    requires few { length (occurrence_symbols (specification spec.now)) ≤ 256 }
    requires tables { IsSpecification spec.now }
    requires lines { All (λ name. is_name name ≡ true) spec.now.lines }
    requires outputs { All (λ name. is_name name ≡ true) spec.now.outputs }
    ensures { IfOk result (λ chip. IsFileOf pla_file (specification spec.now) (chip_text chip)) }
{
    automata_make_arrays();
    arrays_have_sizes();
    arrays_fill();
    registers_have_the_terms();
    planes_are_plans();
    tiles_keep_inside();
    chip_texts_draw();
    equal_drawings_are_alike::<DrawnArray, WrittenChip>();
    tiles_keep_rules::<WrittenChip>();
    let tree = normalize(alloc, spec)?;
    let nfa = positions(alloc, &tree)?;
    let array = plan(alloc, &nfa, spec)?;
    let labels = pad_labels(alloc, &nfa, spec)?;
    array.chip(alloc, labels)
}

/// Writes the text of the chip.
fn write_chip<O: Sink>(chip: &Chip, out: &mut O) -> Status
    ensures taken { TakesPiece (change O.held O.faults out.old out.new) (chip_text chip.now) result }
    ensures count { O.faults out.old ≤ O.faults out.new }
{
    match write_cif(chip, out) {
        Ok(()) => Status::Done,
        Err(_) => Status::WriteFault,
    }
}
