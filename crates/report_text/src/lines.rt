// The lines of a report.

ghost use Rattle.std.specs.Prelude.{◌≡◌, ◌∷◌, ◌++◌, [], IfOk, OnOk, Some};
ghost use Rattle.report_text.specs.Reports.{array_lines, count_lines, demo_line, number_line, report_lines, tree_lines};
ghost use Rattle.std.specs.Fmt.{decimal};

use crate::figures::{ArrayFigures, Figures};
use rx_text::{NoMemory, NumberText};
use std::alloc::Global;

/// The text of a report: a line for each of its numbers, which is a text, a space and the number in decimal.
pub fn report_text(alloc: Global, figures: &Figures) -> Result<Vec<u8>, NoMemory>
    ensures { IfOk result (λ text. text.items ≡ report_lines figures.now) }
{
    let mut text = Vec::new(alloc);
    put_report(&mut text, figures)?;
    Ok(text)
}

/// The text of a report on a specification that was made from this number for so many symbols, which its first line says.
pub fn demo_text(
    alloc: Global,
    start: u64,
    leaves: u32,
    figures: &Figures,
) -> Result<Vec<u8>, NoMemory>
    ensures { IfOk result (λ text. text.items ≡ demo_line start leaves ++ report_lines figures.now) }
{
    let mut text = Vec::new(alloc);
    put_demo(&mut text, start, leaves)?;
    put_report(&mut text, figures)?;
    Ok(text)
}

fn put_demo(text: &mut Vec<u8>, start: u64, leaves: u32) -> Result<(), NoMemory>
    ensures { OnOk result (text.new.items ≡ text.old.items ++ demo_line start leaves) }
{
    text.extend_from_slice(b"demo ")?;
    put_number(text, start)?;
    text.push(b' ')?;
    put_number(text, u64::from(leaves))?;
    text.push(b'\n')?;
    Ok(())
}

fn put_report(text: &mut Vec<u8>, figures: &Figures) -> Result<(), NoMemory>
    ensures { OnOk result (text.new.items ≡ text.old.items ++ report_lines figures.now) }
{
    put_counts(text, figures)?;
    put_array(text, figures.array)?;
    put_tree(text, figures)
}

fn put_counts(text: &mut Vec<u8>, figures: &Figures) -> Result<(), NoMemory>
    ensures { OnOk result (text.new.items ≡ text.old.items ++ count_lines figures.now) }
{
    put_line(text, b"leaves", figures.leaves)?;
    put_line(text, b"lines", figures.lines)?;
    put_line(text, b"symbols", figures.symbols)?;
    put_line(text, b"outputs", figures.outputs)?;
    put_line(text, b"wires", figures.wires)?;
    put_line(text, b"blocks", figures.blocks)
}

fn put_array(text: &mut Vec<u8>, array: Option<ArrayFigures>) -> Result<(), NoMemory>
    ensures { OnOk result (text.new.items ≡ text.old.items ++ array_lines array) }
{
    match array {
        None => {
            text.extend_from_slice(b"pla none\n")?;
            Ok(())
        }
        Some(array) => put_array_lines(text, array),
    }
}

fn put_array_lines(text: &mut Vec<u8>, array: ArrayFigures) -> Result<(), NoMemory>
    ensures { OnOk result (text.new.items ≡ text.old.items ++ array_lines (Some array)) }
{
    put_line(text, b"terms", array.terms)?;
    put_line(text, b"pla rows", array.rows)?;
    put_line(text, b"pla columns", array.columns)?;
    put_line(text, b"pla area", array.area)
}

fn put_tree(text: &mut Vec<u8>, figures: &Figures) -> Result<(), NoMemory>
    ensures { OnOk result (text.new.items ≡ text.old.items ++ tree_lines figures.now) }
{
    put_line(text, b"tree side bound", figures.side_bound)?;
    put_line(text, b"tree width", figures.width)?;
    put_line(text, b"tree height", figures.height)?;
    put_line(text, b"tree area", figures.area)?;
    put_line(text, b"tree area bound", figures.area_bound)
}

fn put_line(text: &mut Vec<u8>, name: &[u8], number: u64) -> Result<(), NoMemory>
    ensures { OnOk result (text.new.items ≡ text.old.items ++ number_line name.now number) }
{
    text.extend_from_slice(name)?;
    text.push(b' ')?;
    put_number(text, number)?;
    text.push(b'\n')?;
    Ok(())
}

fn put_number(text: &mut Vec<u8>, number: u64) -> Result<(), NoMemory>
    ensures { OnOk result (text.new.items ≡ text.old.items ++ decimal number) }
{
    text.extend_from_slice(NumberText::of(i128::from(number)).as_bytes())?;
    Ok(())
}
