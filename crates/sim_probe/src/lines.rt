// Pieces of text behind a text.

ghost use Rattle.std.specs.Prelude.{◌≡◌, ◌++◌, ◌∷◌, [], OnOk, codes};
ghost use Rattle.std.specs.Fmt.{decimal};
ghost use Rattle.sim_probe.specs.WavesText.{time_line, level_text};

use rx_text::{NoMemory, NumberText};
use switch_net::Level;

/// Adds the digits of the number.
pub(crate) fn push_number(number: u64, text: &mut Vec<u8>) -> Result<(), NoMemory>
    ensures { OnOk result (text.new.items ≡ text.old.items ++ decimal number) }
{
    text.extend_from_slice(number_text(number).as_bytes())?;
    Ok(())
}

/// The digits of the number.
fn number_text(number: u64) -> NumberText
    ensures { result ≡ decimal number }
{
    NumberText::of(i128::from(number))
}

/// Adds the word and the digits of the number.
pub(crate) fn push_numbered(word: &[u8], number: u64, text: &mut Vec<u8>) -> Result<(), NoMemory>
    ensures { OnOk result (text.new.items ≡ text.old.items ++ word.now ++ decimal number) }
{
    text.extend_from_slice(word)?;
    push_number(number, text)
}

/// Adds the line of a time.
pub(crate) fn push_time(clock: u64, text: &mut Vec<u8>) -> Result<(), NoMemory>
    ensures { OnOk result (text.new.items ≡ text.old.items ++ time_line clock) }
{
    push_numbered(b"#", clock, text)?;
    text.push(b'\n')?;
    Ok(())
}

/// Adds the byte of a level.
pub(crate) fn push_level(level: Level, text: &mut Vec<u8>) -> Result<(), NoMemory>
    ensures { OnOk result (text.new.items ≡ text.old.items ++ level_text level) }
{
    let byte = match level {
        Level::Low => b'0',
        Level::High => b'1',
        Level::Unknown => b'x',
    };
    text.push(byte)?;
    Ok(())
}
