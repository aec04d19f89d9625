// The layers that commands set.

ghost use Rattle.std.specs.Prelude.{◌≡◌, ℕ, ◌≤◌, ◌<◌, ◌+◌, List, length, drop, bytes_eq};
ghost use Rattle.std.specs.List.{prefix_len};
ghost use Rattle.geom.specs.CifCommands.{SetsLayer};
ghost use Rattle.geom.specs.CifLabels.{layer_named};
ghost use Rattle.cif_syntax.specs.Sentences.{IsCommandAt};
ghost use Rattle.cif_kinds.specs.Names.{is_name_byte};

use cif_values::skip_blanks;
use geom::Layer;

/// The layer that the command sets that stands here. `None` where its name is that of no layer.
pub fn layer_here(text: &[u8], first: usize) -> Option<Layer>
    requires { first < length text.now }
    ensures { (from end : ℕ) (h : IsCommandAt text.now from first end) (name : List ℕ) → h.here.command ≡ SetsLayer name → result ≡ layer_named name }
{
    let from = skip_blanks(text, first + 1);
    let to = behind_name(text, from);
    layer_named(&text[from..to])
}

/// The place behind the name that stands here.
fn behind_name(text: &[u8], from: usize) -> usize
    requires { from ≤ length text.now }
    ensures place { result ≡ from + prefix_len is_name_byte (drop from text.now) }
    ensures order { from ≤ result }
    ensures within { result ≤ length text.now }
{
    let mut at = from;
    while at < text.len() && is_name_byte(text[at]) {
        at += 1;
    }
    at
}

/// A capital letter or a digit.
fn is_name_byte(byte: u8) -> bool
    ensures { result ≡ is_name_byte byte }
{
    byte.is_ascii_uppercase() || byte.is_ascii_digit()
}

/// The layer of this short name: `ND`, `NP`, `NM`, `NC` or `NI`.
pub fn layer_named(name: &[u8]) -> Option<Layer>
    ensures { result ≡ layer_named name.now }
{
    if is_word(name, b"ND") {
        Some(Layer::Diffusion)
    } else if is_word(name, b"NP") {
        Some(Layer::Poly)
    } else if is_word(name, b"NM") {
        Some(Layer::Metal)
    } else if is_word(name, b"NC") {
        Some(Layer::Cut)
    } else if is_word(name, b"NI") {
        Some(Layer::Implant)
    } else {
        None
    }
}

/// The bytes are those of the word.
fn is_word(bytes: &[u8], word: &[u8]) -> bool
    ensures { result ≡ bytes_eq word.now bytes.now }
{
    word == bytes
}
