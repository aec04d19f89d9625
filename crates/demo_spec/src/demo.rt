// A specification from draws.

ghost use Rattle.std.specs.Prelude.{◌≡◌, ◌<◌, ◌≤◌, ◌∷◌, ◌^◌, [], true, IfOk};
ghost use Rattle.rx_lang.specs.Tables.{specification};
ghost use Rattle.rx_text.specs.Name.{is_name};
ghost use Rattle.rx_syntax.specs.Accepted.{Accepted};
ghost use Rattle.rx_syntax.specs.Printable.{OpensFew};
ghost use Rattle.rx_syntax.specs.Printed.{printed};
ghost use Rattle.demo_spec.specs.Generator.{demo, demo_lines, demo_outputs, demo_symbols};

use crate::maker::Maker;
use rx_lang::{PatternBit, Spec, Symbol};
use rx_syntax::laws::printed_specifications_are_accepted;
use rx_text::{Name, NoMemory};
use smallvec::SmallVec;
use std::alloc::Global;

/// The specification that the draws from this number make for so many leaves. Leaves are pushed one by one, and by further draws put
/// under postfixes and joined to what was made before. It has two lines, four symbols and two outputs.
///
/// The draws are those of the linear congruential generator that the C standard gives as its example of `rand`.
pub fn demo_spec(alloc: Global, start: u64, leaves: u32) -> Result<Spec, NoMemory>
    requires some { 1 ≤ leaves }
    requires few { leaves ≤ 4096 }
    ensures made { IfOk result (λ spec. specification spec ≡ demo start leaves) }
    // Its text is accepted as it, wherever it has at most 200 parentheses open at once.
    ensures printed { IfOk result
        (λ spec. OpensFew (printed (specification spec)) → Accepted (printed (specification spec)) 4096 (specification spec)) }
{
    printed_specifications_are_accepted();
    let maker = Maker::new(alloc, start)
        .with_leaves(leaves)?
        .combined_all()?;
    let (nodes, exprs) = maker.into_marked()?;
    let lines = lines(alloc)?;
    let symbols = symbols(alloc)?;
    let outputs = outputs(alloc)?;
    Ok(Spec::new(lines, symbols, outputs, nodes, exprs, Vec::new(alloc)))
}

fn lines(alloc: Global) -> Result<Vec<Name>, NoMemory>
    ensures { IfOk result (λ names. names.items ≡ demo_lines) }
{
    Ok(Vec::from_array(alloc, [name(b"x0"), name(b"x1")])?)
}

fn outputs(alloc: Global) -> Result<Vec<Name>, NoMemory>
    ensures { IfOk result (λ names. names.items ≡ demo_outputs) }
{
    Ok(Vec::from_array(alloc, [name(b"y0"), name(b"y1")])?)
}

fn symbols(alloc: Global) -> Result<Vec<Symbol>, NoMemory>
    ensures { IfOk result (λ symbols. symbols.items ≡ demo_symbols) }
{
    let mut symbols = Vec::new(alloc);
    symbols.push(symbol(alloc, b"s0", PatternBit::Zero, PatternBit::Zero)?)?;
    symbols.push(symbol(alloc, b"s1", PatternBit::Zero, PatternBit::One)?)?;
    symbols.push(symbol(alloc, b"s2", PatternBit::One, PatternBit::Zero)?)?;
    symbols.push(symbol(alloc, b"s3", PatternBit::One, PatternBit::Any)?)?;
    Ok(symbols)
}

// The symbol with this name, for these bits of the two lines.
fn symbol(
    alloc: Global,
    bytes: &[u8],
    first: PatternBit,
    second: PatternBit,
) -> Result<Symbol, NoMemory>
    requires { is_name bytes.now ≡ true }
    ensures { IfOk result (λ symbol. symbol ≡ record { name = bytes.now; pattern = first ∷ second ∷ [] }) }
{
    let mut pattern = SmallVec::new(alloc);
    pattern.push(first)?;
    pattern.push(second)?;
    Ok(Symbol {
        name: name(bytes),
        pattern,
    })
}

fn name(bytes: &[u8]) -> Name
    requires { is_name bytes.now ≡ true }
    ensures { result ≡ bytes.now }
{
    Name::new(bytes).unwrap()
}
