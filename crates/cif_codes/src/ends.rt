// The end of a text.

ghost use Rattle.std.specs.Prelude.{◌≡◌, ◌<◌, ◌≤◌, ℕ, List, length, take, drop, IsSome, IfErr, OnOk};
ghost use Rattle.std.specs.Bool.{Decides};
ghost use Rattle.geom.specs.CifDrawings.{CifState};
ghost use Rattle.geom.specs.CifRefusals.{CommandFault, DrawsFrom};
ghost use Rattle.cif_syntax.specs.Sentences.{IsEndAt};

use cif_values::skip_blanks;
use geom::CifCode;

/// A code, and the number of the byte at which it stands.
#[derive(Clone, Copy, Debug, PartialEq, Eq)]
pub struct EndFault {
    pub code: CifCode,
    pub at: usize,
}

/// Whether the text is whole at the `E` that stands here, where a definition is open or not.
///
/// # Errors
///
/// C6 at the `E` where a definition is open. C11 at the first byte behind it that is no blank.
pub fn text_end(text: &[u8], first: usize, is_open: bool) -> Result<(), EndFault>
    requires { first < length text.now }
    ensures whole { OnOk result ((s : CifState) (from : ℕ) → Decides is_open (IsSome s.opening) → IsEndAt text.now from first
        → DrawsFrom s (take from text.now) (drop from text.now) s) }
    ensures fault { IfErr result (λ fault. (s : CifState) (from : ℕ) → Decides is_open (IsSome s.opening) → IsEndAt text.now from first
        → CommandFault s (take from text.now) (drop from text.now) fault.code (take fault.at text.now)) }
    ensures within { IfErr result (λ fault. fault.at ≤ length text.now) }
{
    if is_open {
        return Err(EndFault {
            code: CifCode::C6,
            at: first,
        });
    }
    let behind = skip_blanks(text, first + 1);
    if behind == text.len() {
        return Ok(());
    }
    Err(EndFault {
        code: CifCode::C11,
        at: behind,
    })
}
