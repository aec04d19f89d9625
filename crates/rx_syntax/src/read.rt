// Specifications from texts.

ghost use Rattle.std.specs.Prelude.{◌≡◌, ℕ, ◌-◌, ◌^◌, ◌<◌, ◌≤◌, length, take, IfErr, IfOk};
ghost use Rattle.rx_text.specs.TextPlace.{place_behind};
ghost use Rattle.rx_lang.specs.Tables.{specification};
ghost use Rattle.rx_syntax.specs.Accepted.{Accepted};
ghost use Rattle.rx_syntax.specs.NameSteps.{IsNamesFault};
ghost use Rattle.rx_syntax.specs.SpecRefusal.{IsReadFault};

use crate::naming::{NamesFault, read_names};
use crate::nodes::read_nodes;
use crate::shape::check_shape;
use crate::spec_code::SpecCode;
use rx_lang::Spec;
use rx_text::{NoMemory, Place, place_at};
use std::alloc::Global;
use thiserror::Error;

/// A code that stands in the text of a specification, and its line and column.
#[derive(Clone, Copy, Debug, PartialEq, Eq)]
pub struct SpecFault {
    pub code: SpecCode,
    pub place: Place,
}

/// Why a specification was not read.
#[derive(Clone, Copy, Debug, PartialEq, Eq, Error)]
pub enum ReadSpecFault {
    /// The text is refused with this code at this place.
    #[error("the text is no specification")]
    Fault(SpecFault),
    /// An allocation was refused.
    #[error("no memory")]
    NoMemory,
}

impl From<NoMemory> for ReadSpecFault {
    ghost use Rattle.std.specs.Prelude.{◌≡◌};
    ghost use Rattle.rx_syntax.specs.declared.read.ReadSpecFault.TheVariants as fault;

    ghost from_gives = { λ _ e. e ≡ fault.NoMemory };

    fn from(_refused: NoMemory) -> ReadSpecFault {
        ReadSpecFault::NoMemory
    }
}

/// Reads a specification of either version, whose expressions may have so many symbols, copies under counted repeats among
/// them. It is `Ok` exactly where the text is accepted, and gives the specification that the text stands for. It takes time
/// and memory in proportion to the text, whatever numbers stand in it.
///
/// # Errors
///
/// `Fault` with the code and the place of the text's refusal: first the codes of bytes, tokens, sections and parentheses,
/// over the whole text, and where there is none the codes of names, patterns, numbers and counts. `NoMemory` where an
/// allocation was refused.
pub fn read_spec(alloc: Global, text: &[u8], most_leaves: u32) -> Result<Spec, ReadSpecFault>
    requires some_leaves { 1 ≤ most_leaves }
    requires few_leaves { most_leaves ≤ 4096 }
    requires few_bytes { length text.now < 2 ^ 32 - 1 }
    ensures accepted { IfOk result (λ spec. Accepted text.now most_leaves (specification spec)) }
    ensures fault { IfErr result (λ fault. IsReadFault text.now most_leaves fault) }
{
    if let Err(fault) = check_shape(text) {
        return Err(fault_at(text, fault.code, fault.at));
    }
    let declarations = match read_names(alloc, text, most_leaves) {
        Ok(declarations) => declarations,
        Err(fault) => return Err(names_fault(text, fault)),
    };
    let (nodes, exprs, scans) = read_nodes(alloc, text, &declarations)?;
    let lines = declarations.lines(alloc)?;
    let outputs = declarations.outputs(alloc)?;
    let symbols = declarations.into_symbols();
    Ok(Spec::new(lines, symbols, outputs, nodes, exprs, scans))
}

// The fault of names and limits in this text, by line and column.
fn names_fault(text: &[u8], fault: NamesFault) -> ReadSpecFault
    requires fault { (limit : ℕ) × IsNamesFault text.now limit fault }
    requires few_bytes { length text.now < 2 ^ 32 - 1 }
    ensures { (limit : ℕ) → IsNamesFault text.now limit fault → IsReadFault text.now limit result }
{
    match fault {
        NamesFault::Fault { code, at } => fault_at(text, code, at),
        NamesFault::NoMemory => ReadSpecFault::NoMemory,
    }
}

// The fault of this code at this byte.
fn fault_at(text: &[u8], code: SpecCode, at: usize) -> ReadSpecFault
    requires within { at ≤ length text.now }
    requires few_bytes { length text.now < 2 ^ 32 - 1 }
    ensures { result ≡ ReadSpecFault.Fault (record { code = code; place = place_behind (take at text.now) }) }
{
    ReadSpecFault::Fault(SpecFault {
        code,
        place: place_at(text, at),
    })
}
