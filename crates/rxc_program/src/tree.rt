// The command `tree`: a specification in, the CIF text of its tree-shaped layout out.

ghost use Rattle.std.specs.Prelude.{◌≡◌, ◌<◌, ◌≤◌, ◌^◌, true, length, All, IfErr, IfOk, OnOk};
ghost use Rattle.rx_text.specs.Name.{is_name};
ghost use Rattle.rx_lang.specs.Specification.{MatchesSymbol};
ghost use Rattle.rx_lang.specs.Tables.{IsSpecification, specification};
ghost use Rattle.star_normal.specs.Laws.{HasLanguages};
ghost use Rattle.star_normal.specs.Tables.{whole};
ghost use Rattle.star_normal.specs.Trees.{leaves};
ghost use Rattle.nor_net.specs.SwitchForm.{switch_form};
ghost use Rattle.cell_network.specs.Whole.{cells_of};
ghost use Rattle.tree_chip.specs.TreeNetworks.{IsRecogniser};
ghost use Rattle.cif_write.specs.ChipText.{chip_text};
ghost use Rattle.rxc_program.specs.Behaviour.{most_input_bytes};
ghost use Rattle.rxc_program.specs.Compiling.{BreaksSpecification, compiling, IsCompiled};
ghost use Rattle.rxc_program.specs.Endings.{change, CommandRun};
ghost use Rattle.rxc_program.specs.Files.{most_leaves, tree_file};
ghost use Rattle.rxc_program.specs.Measuring.{IsLayoutOf};
ghost use Rattle.rxc_program.specs.Reporting.{AreSidesOf};
ghost use Rattle.rxc_program.specs.Serving.{AnswersText, StopsBy, TakesPiece};

use crate::drawn::{DrawnTree, WrittenChip};
use crate::input::{read_input, specification};
use crate::status::Status;
use cell_network::cells;
use chip_box::{box_of, rectangles_exist};
use cif_write::{chip_texts_draw, write_cif};
use geom::{Chip, Rect};
use nmos_model::laws::equal_drawings_are_alike;
use nor_net::to_switch;
use report_text::sides_bound_the_area;
use rx_io::{Sink, Source};
use rx_lang::Spec;
use rx_syntax::laws::accepted_names_are_names;
use rx_text::NoMemory;
use star_normal::laws::tables_have_the_leaves_of_their_trees;
use star_normal::{Tree, normalize};
use std::alloc::Global;
use tile_rules::laws::tiles_keep_rules;
use tree_chip::chip;
use tree_chip::laws::{trees_draw_cells, trees_recognise};
use tree_layout::layout;

/// The most symbols in the expressions of a specification.
const MOST_LEAVES: u32 = 4096;

/// Reads a specification and writes the text of its layout.
pub(crate) fn tree<S: Source, O: Sink>(alloc: Global, src: &mut S, out: &mut O) -> Status
    ensures { CommandRun (compiling tree_file) (change S.left S.faults src.old src.new) (change O.held O.faults out.old out.new) result }
{
    match read_input(alloc, src) {
        Ok(text) => answer(alloc, &text, out),
        Err(status) => status,
    }
}

/// Writes the text of the layout of the specification that the text is.
fn answer<O: Sink>(alloc: Global, text: &[u8], out: &mut O) -> Status
    requires { length text.now ≤ most_input_bytes }
    ensures answers { AnswersText (compiling tree_file) (change O.held O.faults out.old out.new) text.now result }
    ensures count { O.faults out.old ≤ O.faults out.new }
{
    match compile(alloc, text) {
        Ok(chip) => write_chip(&chip, out),
        Err(status) => status,
    }
}

/// The chip of the specification that the text is.
fn compile(alloc: Global, text: &[u8]) -> Result<Chip, Status>
    requires { length text.now ≤ most_input_bytes }
    ensures file { IfOk result (λ chip. IsCompiled tree_file text.now (chip_text chip)) }
    ensures status { IfErr result (StopsBy (BreaksSpecification (most_leaves tree_file) text.now)) }
{
    accepted_names_are_names();
    let spec = specification(alloc, text, MOST_LEAVES)?;
    match layout_chip(alloc, &spec) {
        Ok(chip) => Ok(chip),
        Err(_) => Err(Status::NoMemory),
    }
}

/// The chip of the layout of the specification's normal form.
fn layout_chip(alloc: Global, spec: &Spec) -> Result<Chip, NoMemory>
    requires tables { IsSpecification spec.now }
    requires lines { All (λ name. is_name name ≡ true) spec.now.lines }
    requires outputs { All (λ name. is_name name ≡ true) spec.now.outputs }
    ensures { IfOk result (IsLayoutOf (specification spec.now)) }
{
    tables_have_the_leaves_of_their_trees();
    trees_draw_cells();
    trees_recognise();
    rectangles_exist();
    sides_bound_the_area();
    chip_texts_draw();
    equal_drawings_are_alike::<DrawnTree, WrittenChip>();
    tiles_keep_rules::<WrittenChip>();
    let tree = normalize(alloc, spec)?;
    cells_recognise(alloc, &tree, spec)?;
    let blocks = layout(alloc, &tree)?;
    chip(alloc, &blocks, &tree, spec)
}

/// The box of the chip whose text `tree` writes for the specification.
pub(crate) fn layout_box(alloc: Global, spec: &Spec) -> Result<Rect, NoMemory>
    requires tables { IsSpecification spec.now }
    requires lines { All (λ name. is_name name ≡ true) spec.now.lines }
    requires outputs { All (λ name. is_name name ≡ true) spec.now.outputs }
    ensures sides { IfOk result (λ r. AreSidesOf (specification spec.now) r.width r.height) }
    ensures narrow { IfOk result (λ r. r.width < 2 ^ 32) }
    ensures low { IfOk result (λ r. r.height < 2 ^ 32) }
{
    let chip = layout_chip(alloc, spec)?;
    Ok(box_of(&chip))
}

/// The network of the tree's cells recognises the languages of the specification. It is made for what its contract tells of it, and
/// let go: the layout draws the same network.
fn cells_recognise(alloc: Global, tree: &Tree, spec: &Spec) -> Result<(), NoMemory>
    requires symbols { All (λ s. s < length spec.now.symbols) (leaves (whole tree.now)) }
    requires languages { HasLanguages (MatchesSymbol spec.now.symbols) (specification spec.now).statements (specification spec.now).scans
        (whole tree.now) }
    ensures { OnOk result (IsRecogniser (specification spec.now) (switch_form (cells_of tree.now spec.now))) }
{
    let netlist = cells(alloc, tree, spec)?;
    to_switch(alloc, &netlist)?;
    Ok(())
}

/// Writes the text of the chip.
fn write_chip<O: Sink>(chip: &Chip, out: &mut O) -> Status
    ensures taken { TakesPiece (change O.held O.faults out.old out.new) (chip_text chip.now) result }
    ensures count { O.faults out.old ≤ O.faults out.new }
{
    match write_cif(chip, out) {
        Ok(()) => Status::Done,
        Err(_) => Status::WriteFault,
    }
}
