// Whether the tokens of a text are a specification, names and numbers aside.

ghost use Rattle.std.specs.Prelude.{◌≡◌, ◌≤◌, IfErr, OnOk};
ghost use Rattle.rx_syntax.specs.Machine.{piece_step};
ghost use Rattle.rx_syntax.specs.Refusals.{StandsFirst, IsShaped};

use crate::kind::Kind;
use crate::lexeme::piece_at;
use crate::machine::{Due, State, end_code};
use crate::spec_code::SpecCode;
use crate::version::version_of;

/// A code that stands in a text, and the byte at which it stands.
#[derive(Clone, Copy, Debug, PartialEq, Eq)]
pub struct ShapeFault {
    pub code: SpecCode,
    pub at: usize,
}

impl State {
    // What is due behind a piece of the text. Blanks and comments change nothing.
    pub(crate) fn over(self, kind: Option<Kind>) -> Result<State, SpecCode>
        requires { self.depth ≤ 200 }
        ensures { result ≡ piece_step kind self }
    {
        match kind {
            None => Ok(self),
            Some(kind) => self.after_token(kind),
        }
    }
}

/// Reads the tokens of a text. It is `Ok` exactly where they are a specification, names and numbers aside. A fault is
/// the first that stands in the text among the codes `S1`, `S2`, `S6`, `S7`, `S8`,
/// `S9` and `S14`, and the lowest of those at one place. It takes no memory.
pub fn check_shape(text: &[u8]) -> Result<(), ShapeFault>
    ensures shaped { OnOk result (IsShaped text.now) }
    ensures fault { IfErr result (λ fault. StandsFirst text.now fault.code fault.at) }
{
    let (version, start) = version_of(text);
    let mut at = start;
    let mut state = State {
        due: Due::FirstLine,
        depth: 0,
    };
    while at < text.len() {
        let (kind, behind) = piece_at(version, text, at);
        match state.over(kind) {
            Ok(next) => state = next,
            Err(code) => return Err(ShapeFault { code, at }),
        }
        at = behind;
    }
    match end_code(state.due) {
        None => Ok(()),
        Some(code) => Err(ShapeFault { code, at }),
    }
}
