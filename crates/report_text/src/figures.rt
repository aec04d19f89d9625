// The numbers of a report.

ghost use Rattle.std.specs.Prelude.{◌≡◌, ◌<◌, ◌≤◌, ◌^◌, IfSome};
ghost use Rattle.rx_lang.specs.Squares.{IsLevel, side_bound};
ghost use Rattle.rx_lang.specs.Tables.{specification};
ghost use Rattle.report_text.specs.Sizes.{leaves};
ghost use Rattle.report_text.specs.Reports.{array_figures, AreFigures, AreTerms};

use rx_lang::Spec;

/// How large a programmable logic array is: its terms, its rows and columns of tiles, and its area in square lambda.
#[derive(Clone, Copy, Debug, PartialEq, Eq)]
pub struct ArrayFigures {
    pub terms: u64,
    pub rows: u64,
    pub columns: u64,
    pub area: u64,
}

/// How large a specification is and its layouts are, in lambda and square lambda. There is no array where it would be too large.
#[derive(Clone, Copy, Debug, PartialEq, Eq)]
pub struct Figures {
    pub leaves: u64,
    pub lines: u64,
    pub symbols: u64,
    pub outputs: u64,
    pub wires: u64,
    pub blocks: u64,
    pub array: Option<ArrayFigures>,
    pub side_bound: u64,
    pub width: u64,
    pub height: u64,
    pub area: u64,
    pub area_bound: u64,
}

/// The numbers of a specification with so many symbols in its expressions, so many terms of its array, where it has one, and these
/// sides of the box of its tree's layout. Takes no memory.
pub fn count_figures(
    spec: &Spec,
    count: u64,
    terms: Option<u64>,
    width: u64,
    height: u64,
) -> Figures
    requires leaves { count ≡ leaves (specification spec.now) }
    requires terms { AreTerms (specification spec.now) terms }
    requires few_terms { IfSome terms (λ terms. terms < 2 ^ 32) }
    requires width { width < 2 ^ 32 }
    requires height { height < 2 ^ 32 }
    ensures { AreFigures (specification spec.now) width height result }
{
    let lines = spec.lines().len() as u64;
    let symbols = spec.symbols().len() as u64;
    let outputs = spec.outputs().len() as u64;
    let wires = lines + symbols + outputs;
    Figures {
        leaves: count,
        lines,
        symbols,
        outputs,
        wires,
        blocks: 2 * count,
        array: array_figures(spec, count, terms),
        side_bound: side_bound(level(2 * count)) * (140 * wires + 840),
        width,
        height,
        area: width * height,
        area_bound: 361_267_200 * (wires * wires) * count,
    }
}

/// The numbers of the array.
fn array_figures(spec: &Spec, count: u64, terms: Option<u64>) -> Option<ArrayFigures>
    requires leaves { count ≡ leaves (specification spec.now) }
    requires few { count ≤ 4096 }
    requires terms { IfSome terms (λ terms. terms < 2 ^ 32) }
    ensures { result ≡ array_figures (specification spec.now) terms }
{
    let lines = spec.lines().len() as u64;
    let outputs = spec.outputs().len() as u64;
    match terms {
        None => None,
        Some(terms) => {
            let rows = 5 * terms + 16 * count + 5 * (lines + outputs) + 30;
            let columns = 2 * (2 * lines + count + 2) + 8 * (count + outputs) + 20;
            Some(ArrayFigures {
                terms,
                rows,
                columns,
                area: 196 * (rows * columns),
            })
        }
    }
}

/// The least number k for which 4^k is at least this count.
fn level(count: u64) -> u32
    requires { count ≤ 8192 }
    ensures level { IsLevel count result }
    ensures few { result ≤ 7 }
{
    let mut level = 0;
    let mut room = 1;
    while room < count {
        level += 1;
        room *= 4;
    }
    level
}

/// The bound of the sides of a square of this level, in blocks.
fn side_bound(level: u32) -> u64
    requires { level ≤ 7 }
    ensures bound { result ≡ side_bound level }
    ensures few { result ≤ 2048 }
{
    16 * 2_u64.pow(level) - (6 * u64::from(level) + 15)
}
