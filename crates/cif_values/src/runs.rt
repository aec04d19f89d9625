// Blanks, and letters with blanks behind them.

ghost use Rattle.std.specs.Prelude.{◌≡◌, ℕ, ◌≤◌, ◌<◌, ◌+◌, List, ◌∷◌, length};
ghost use Rattle.geom.specs.CifCommands.{CifPart, Letters, is_cif_blank};
ghost use Rattle.rx_text.specs.NumberInText.{is_digit};
ghost use Rattle.cif_values.specs.Parts.{PartsAt};
ghost use Rattle.cif_values.specs.Runs.{behind_blanks};

/// Every byte but digits, capital letters, `-`, `(`, `)` and `;`.
pub fn is_blank(byte: u8) -> bool
    ensures { result ≡ is_cif_blank byte }
{
    !(byte.is_ascii_digit()
        || byte.is_ascii_uppercase()
        || byte == b'-'
        || byte == b'('
        || byte == b')'
        || byte == b';')
}

/// A digit from `0` to `9`.
pub fn is_digit(byte: u8) -> bool
    ensures { result ≡ is_digit byte }
{
    byte.is_ascii_digit()
}

/// The place behind the blanks that stand here.
pub fn skip_blanks(text: &[u8], from: usize) -> usize
    requires { from ≤ length text.now }
    ensures place { result ≡ behind_blanks text.now from }
    ensures order { from ≤ result }
    ensures within { result ≤ length text.now }
{
    let mut at = from;
    while at < text.len() && is_blank(text[at]) {
        at += 1;
    }
    at
}

/// The place behind so many letters that stand here, and blanks.
pub fn behind_letters(text: &[u8], at: usize, count: usize) -> usize
    requires place { at ≤ length text.now }
    requires few { count ≤ 2 }
    ensures parts { (stop : ℕ) (word : List ℕ) (parts : List CifPart) → length word ≡ count → PartsAt text.now at stop (Letters word ∷ parts)
        → PartsAt text.now result stop parts }
    ensures later { at < length text.now → 0 < count → at < result }
    ensures order { at ≤ result }
    ensures within { result ≤ length text.now }
{
    skip_blanks(text, (at + count).min(text.len()))
}
