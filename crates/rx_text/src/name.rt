// A name of the specification language, in a small value that is copied.

ghost use Rattle.std.specs.Prelude.{◌≡◌, ◌↔◌, true, IsSome, IfSome};
ghost use Rattle.std.specs.List.{list_all};
ghost use Rattle.rx_text.specs.Name.{is_letter, is_name_byte, begins_as_name, is_name};

use std::marker::Model;

/// The most bytes that a name has.
const MOST_BYTES: usize = 31;

/// A name: a letter `a` to `z`, then letters, digits and `_`, at most 31 bytes in all. Keywords are allowed.
#[derive(Clone, Copy, Debug, PartialEq, Eq)]
pub struct Name {
    bytes: [u8; MOST_BYTES],
    count: usize,
}

impl Model for Name {
    ghost use Rattle.std.specs.Prelude.{List, ℕ, ◌++◌, ◌-◌, take, length, replicate};
    ghost use Rattle.rx_text.specs.Name.{FillsName};

    ghost Value = { List ℕ };

    ghost use Rattle.rx_text.specs.NameFields.{fields_back};

    ghost view = { λ n. take n.count n.bytes };

    ghost invariant = { λ n. FillsName n.count n.bytes };

    ghost inverse = { λ bytes. record { bytes = bytes ++ replicate (31 - length bytes) 0; count = length bytes } };

    ghost inverse_ok = { fields_back };
}

impl Name {
    /// The name that these bytes spell. `None` exactly where they spell none.
    pub fn new(bytes: &[u8]) -> Option<Name>
        ensures name { IsSome result ↔ (is_name bytes.now ≡ true) }
        ensures bytes { IfSome result (λ name. name ≡ bytes.now) }
    {
        if !spells_name(bytes) {
            return None;
        }
        let mut filled = [0; MOST_BYTES];
        filled[..bytes.len()].copy_from_slice(bytes);
        Some(Name {
            bytes: filled,
            count: bytes.len(),
        })
    }

    /// The bytes of the name.
    pub fn as_bytes(&self) -> &[u8]
        ensures bytes { result.now ≡ self.now }
        ensures name { is_name self.now ≡ true }
    {
        &self.bytes[..self.count]
    }
}

fn spells_name(bytes: &[u8]) -> bool
    ensures { result ≡ is_name bytes.now }
{
    has_name_bytes(bytes) && bytes.len() <= MOST_BYTES
}

fn has_name_bytes(bytes: &[u8]) -> bool
    ensures { result ≡ begins_as_name bytes.now }
{
    match bytes {
        [first, rest @ ..] => starts_name(*first) && goes_on_as_name(rest),
        [] => false,
    }
}

fn goes_on_as_name(bytes: &[u8]) -> bool
    ensures { result ≡ list_all is_name_byte bytes.now }
{
    bytes.iter().all(|byte| is_inside_name(*byte))
}

/// Whether a name may begin with the byte: a letter `a` to `z`.
pub fn starts_name(byte: u8) -> bool
    ensures { result ≡ is_letter byte }
{
    byte.is_ascii_lowercase()
}

/// Whether a name may go on with the byte: a letter `a` to `z`, a digit or `_`.
pub fn is_inside_name(byte: u8) -> bool
    ensures { result ≡ is_name_byte byte }
{
    starts_name(byte) || byte.is_ascii_digit() || byte == b'_'
}
