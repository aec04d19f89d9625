// The bytes of blanks, names and runs.

ghost use Rattle.std.specs.Prelude.{◌≡◌};
ghost use Rattle.std.specs.List.{list_all, prefix_len};
ghost use Rattle.rx_text.specs.Name.{is_name_byte};
ghost use Rattle.rx_syntax.specs.Tokens.{is_blank, is_place_byte, is_run_byte};
ghost use Rattle.rx_text.specs.NumberInText.{is_digit};
ghost use Rattle.rx_syntax.specs.declared.version.Version.TheVariants.{Two};

use crate::version::Version;
use rx_text::name::is_inside_name;

pub(crate) fn is_blank(byte: u8) -> bool
    ensures { result ≡ is_blank byte }
{
    matches!(byte, b' ' | b'\t' | b'\r' | b'\n')
}

pub(crate) fn is_place_byte(byte: u8) -> bool
    ensures { result ≡ is_place_byte byte }
{
    matches!(byte, b'0' | b'1' | b'-')
}

// How many bytes at the front go on with a name.
pub(crate) fn name_length(text: &[u8]) -> usize
    ensures { result ≡ prefix_len is_name_byte text.now }
{
    text.iter()
        .take_while(|byte| is_inside_name(**byte))
        .count()
}

fn is_digit(byte: u8) -> bool
    ensures { result ≡ is_digit byte }
{
    byte >= b'0' && byte <= b'9'
}

/// Whether the byte is one of the runs of this version.
pub(crate) fn is_run_byte(version: Version, byte: u8) -> bool
    ensures { result ≡ is_run_byte version byte }
{
    match version {
        Version::One => is_place_byte(byte),
        Version::Two => is_digit(byte) || byte == b'-',
    }
}

// How many bytes at the front go on with a run of version 1.
fn pattern_length(text: &[u8]) -> usize
    ensures { result ≡ prefix_len is_place_byte text.now }
{
    text.iter().take_while(|byte| is_place_byte(**byte)).count()
}

// How many bytes at the front go on with a run of version 2.
fn digits_length(text: &[u8]) -> usize
    ensures { result ≡ prefix_len (is_run_byte Two) text.now }
{
    text.iter()
        .take_while(|byte| is_run_byte(Version::Two, **byte))
        .count()
}

/// How many bytes at the front go on with a run.
pub(crate) fn run_length(version: Version, text: &[u8]) -> usize
    ensures { result ≡ prefix_len (is_run_byte version) text.now }
{
    match version {
        Version::One => pattern_length(text),
        Version::Two => digits_length(text),
    }
}

/// Whether a run is a pattern.
pub(crate) fn is_pattern(run: &[u8]) -> bool
    ensures { result ≡ list_all is_place_byte run.now }
{
    run.iter().all(|byte| is_place_byte(*byte))
}

/// Whether a run is a number.
pub(crate) fn is_number(run: &[u8]) -> bool
    ensures { result ≡ list_all is_digit run.now }
{
    run.iter().all(|byte| is_digit(*byte))
}
