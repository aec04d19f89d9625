// Whether a vector matches a symbol.

ghost use Rattle.std.specs.Prelude.{◌≡◌, ◌↔◌, ◌<◌, ◌≤◌, IsTrue, length, ◌==◌};
ghost use Rattle.std.specs.Int.{bit_at};
ghost use Rattle.rx_lang.specs.Specification.{MatchesSymbol};
ghost use Rattle.rx_lang.specs.Vector.{Agrees, Matches, bits_of};

use crate::pattern::PatternBit;
use crate::spec::Spec;
use crate::vector::Vector;

/// Whether the vector matches the pattern of the symbol with this number.
pub(crate) fn matches_symbol(spec: &Spec, symbol: u8, vector: Vector) -> bool
    requires { symbol < length spec.now.symbols }
    ensures { IsTrue result ↔ MatchesSymbol spec.now.symbols symbol (bits_of (length spec.now.lines) vector) }
{
    let declared = &spec.symbols()[symbol as usize];
    matches(&declared.pattern, vector)
}

fn matches(pattern: &[PatternBit], vector: Vector) -> bool
    requires { length pattern.now ≤ 16 }
    ensures { IsTrue result ↔ Matches pattern.now (bits_of (length pattern.now) vector) }
{
    for (line, place) in pattern.iter().enumerate() {
        if !agrees(*place, bit_of(vector, line)) {
            return false;
        }
    }
    true
}

fn agrees(place: PatternBit, bit: bool) -> bool
    ensures { IsTrue result ↔ Agrees place bit }
{
    match place {
        PatternBit::Zero => !bit,
        PatternBit::One => bit,
        PatternBit::Any => true,
    }
}

fn bit_of(vector: Vector, line: usize) -> bool
    requires { line < 16 }
    ensures { result ≡ (bit_at vector.bits line == 1) }
{
    vector.bits >> line & 1 == 1
}
