// The numbers of a report.

ghost use Rattle.std.specs.Prelude.{◌≡◌, ◌<◌, ◌≤◌, ◌^◌, true, length, All, IfOk, IfSome};
ghost use Rattle.rx_lang.specs.Positions.{occurrence_symbols};
ghost use Rattle.rx_lang.specs.Tables.{IsSpecification, specification};
ghost use Rattle.rx_text.specs.Name.{is_name};
ghost use Rattle.position_nfa.specs.Agreement.{IsTreeOf};
ghost use Rattle.star_normal.specs.Tables.{whole};
ghost use Rattle.star_normal.specs.Trees.{leaves};
ghost use Rattle.report_text.specs.Reports.{AreTerms};
ghost use Rattle.rxc_program.specs.Reporting.{AreFiguresOf};

use crate::tree::layout_box;
use position_nfa::laws::terms_are_those_of_the_specification;
use position_nfa::{positions, terms};
use report_text::{Figures, count_figures};
use rx_lang::Spec;
use rx_text::NoMemory;
use star_normal::laws::tables_have_the_leaves_of_their_trees;
use star_normal::{Tree, normalize};
use std::alloc::Global;

/// The most symbols in the expressions of a specification that has an array.
const MOST_OF_ARRAYS: u64 = 256;

/// The numbers of the specification: its counts, the size of its array, and the sides of its tree's layout.
pub(crate) fn figures(alloc: Global, spec: &Spec) -> Result<Figures, NoMemory>
    requires tables { IsSpecification spec.now }
    requires lines { All (λ name. is_name name ≡ true) spec.now.lines }
    requires outputs { All (λ name. is_name name ≡ true) spec.now.outputs }
    ensures { IfOk result (λ figures. AreFiguresOf (specification spec.now) figures) }
{
    let tree = normalize(alloc, spec)?;
    let count = leaf_count(&tree);
    let terms = array_terms(alloc, spec, &tree, count)?;
    let sides = layout_box(alloc, spec)?;
    Ok(count_figures(spec, count, terms, sides.width, sides.height))
}

/// How many leaves the tree has.
fn leaf_count(tree: &Tree) -> u64
    ensures { result ≡ length (leaves (whole tree.now)) }
{
    tables_have_the_leaves_of_their_trees();
    tree.nodes().len().div_ceil(2) as u64
}

/// How many terms the array of the specification with this tree has, where it has at most 256 symbols.
fn array_terms(alloc: Global, spec: &Spec, tree: &Tree, count: u64) -> Result<Option<u64>, NoMemory>
    requires tree { IsTreeOf (specification spec.now) (whole tree.now) }
    requires count { count ≡ length (occurrence_symbols (specification spec.now)) }
    requires symbols { All (λ s. s < 256) (occurrence_symbols (specification spec.now)) }
    ensures terms { IfOk result (λ terms. AreTerms (specification spec.now) terms) }
    ensures few { IfOk result (λ terms. IfSome terms (λ terms. terms < 2 ^ 32)) }
{
    terms_are_those_of_the_specification();
    if count > MOST_OF_ARRAYS {
        return Ok(None);
    }
    let nfa = positions(alloc, tree)?;
    Ok(Some(terms(&nfa)))
}
