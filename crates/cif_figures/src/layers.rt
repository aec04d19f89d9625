// Commands that set layers.

ghost use Rattle.std.specs.Prelude.{ℕ, Some, IfOk, IfErr};
ghost use Rattle.geom.specs.CifDrawings.{CifState};
ghost use Rattle.cif_kinds.specs.declared.kinds.CommandKind.TheVariants as kind;
ghost use Rattle.cif_codes.specs.Least.{IsLeastCode};
ghost use Rattle.cif_figures.specs.Figures.{CommandOf, command_of, Leads};

use cif_codes::layer_code;
use cif_kinds::layer_here;
use geom::{CifCode, Layer};

/// The layer that the command sets that stands here.
///
/// # Errors
///
/// C2 where its name is that of no layer.
pub fn layer_set(text: &[u8], first: usize) -> Result<Layer, CifCode>
    requires { (end : ℕ) × CommandOf text.now first end kind.Layer }
    ensures layer { IfOk result (λ layer. (s : CifState) (end : ℕ) (c : CommandOf text.now first end kind.Layer)
        → Leads s (command_of text.now first end kind.Layer c) (λ place. record s { layer = Some layer })) }
    ensures fault { IfErr result (λ code. (s : CifState) (end : ℕ) (c : CommandOf text.now first end kind.Layer)
        → IsLeastCode s (command_of text.now first end kind.Layer c) (Some code)) }
{
    let layer = layer_here(text, first);
    match layer_code(layer) {
        Some(code) => Err(code),
        None => match layer {
            Some(layer) => Ok(layer),
            None => Err(CifCode::C2),
        },
    }
}
