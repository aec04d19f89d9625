// The names of pads in labels.

ghost use Rattle.std.specs.Prelude.{◌≡◌, true, false, ◌++◌, List, ℕ, IsNone, IfSome, bytes_eq, codes};
ghost use Rattle.rx_text.specs.Name.{is_name};
ghost use Rattle.rx_text.specs.declared.pad_name.Role.{Role};
ghost use Rattle.rx_text.specs.Role.{NamedRole, bears_name};
ghost use Rattle.geom.specs.CifLabels.{IsPadName, pad_word, label_word};

use rx_text::{Name, PadName, Role};

/// The pad of this name: `VDD`, `GND`, `PHI1`, `PHI2`, `RESET`, or `IN:` or `OUT:` and a name.
pub fn pad_named(word: &[u8]) -> Option<PadName>
    ensures some { IfSome result (λ pad. IsPadName pad × (label_word pad ≡ word.now)) }
    ensures none { IsNone result → (pad : NamedRole) → IsPadName pad → label_word pad ≡ word.now → ⊥ }
{
    match plain_role(word) {
        Some(role) => Some(PadName::plain(role)),
        None => bearing_pad(word),
    }
}

/// The pad of this name, of those that bear a name of their own.
fn bearing_pad(word: &[u8]) -> Option<PadName>
    ensures some { IfSome result (λ pad. IsPadName pad × (label_word pad ≡ word.now)) }
    ensures no_input { IsNone result → (name : List ℕ) → is_name name ≡ true → codes "IN:" ++ name ≡ word.now → ⊥ }
    ensures no_output { IsNone result → (name : List ℕ) → is_name name ≡ true → codes "OUT:" ++ name ≡ word.now → ⊥ }
{
    match name_behind(word, b"IN:") {
        Some(name) => Some(PadName::input(name)),
        None => match name_behind(word, b"OUT:") {
            Some(name) => Some(PadName::output(name)),
            None => None,
        },
    }
}

/// The role of this name, where it bears none of its own.
fn plain_role(word: &[u8]) -> Option<Role>
    ensures some { IfSome result (λ role. (bears_name role ≡ false) × (pad_word role ≡ word.now)) }
    ensures none { IsNone result → (role : Role) → bears_name role ≡ false → pad_word role ≡ word.now → ⊥ }
{
    if is_word(word, b"VDD") {
        Some(Role::Vdd)
    } else if is_word(word, b"GND") {
        Some(Role::Gnd)
    } else if is_word(word, b"PHI1") {
        Some(Role::Phi1)
    } else if is_word(word, b"PHI2") {
        Some(Role::Phi2)
    } else if is_word(word, b"RESET") {
        Some(Role::Reset)
    } else {
        None
    }
}

/// The name behind this front of a word.
fn name_behind(word: &[u8], front: &[u8]) -> Option<Name>
    ensures some { IfSome result (λ name. (is_name name ≡ true) × (front.now ++ name ≡ word.now)) }
    ensures none { IsNone result → (name : List ℕ) → is_name name ≡ true → front.now ++ name ≡ word.now → ⊥ }
{
    match word.strip_prefix(front) {
        Some(rest) => Name::new(rest),
        None => None,
    }
}

/// The bytes are those of the word.
pub fn is_word(bytes: &[u8], word: &[u8]) -> bool
    ensures { result ≡ bytes_eq word.now bytes.now }
{
    word == bytes
}
