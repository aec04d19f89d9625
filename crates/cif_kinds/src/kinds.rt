// The kinds of commands, by their first bytes.

ghost use Rattle.std.specs.Prelude.{◌≡◌, ◌==◌, ℕ, ◌<◌, ◌+◌, length, slice_index, if◌then◌else◌};
ghost use Rattle.cif_syntax.specs.Sentences.{IsCommandAt};
ghost use Rattle.cif_kinds.specs.declared.kinds.CommandKind.TheVariants.{Opens, Closes};
ghost use Rattle.cif_kinds.specs.Kinds.{kind_of, letter_kind};

/// What kind of command it is.
#[derive(Clone, Copy, Debug, PartialEq, Eq)]
pub enum CommandKind {
    Empty,
    Comment,
    Opens,
    Closes,
    Calls,
    Layer,
    Box,
    Polygon,
    Wire,
    Extension,
}

/// The kind of the command whose first byte is here, where one stands.
pub fn command_kind(text: &[u8], first: usize) -> CommandKind
    requires { first < length text.now }
    ensures { (from end : ℕ) (h : IsCommandAt text.now from first end) → result ≡ kind_of h.here.command }
{
    let byte = text[first];
    if byte == b';' {
        return CommandKind::Empty;
    }
    if byte == b'(' {
        return CommandKind::Comment;
    }
    if byte == b'D' {
        return definition_kind(text, first + 1);
    }
    letter_kind(byte)
}

/// Behind `D`.
fn definition_kind(text: &[u8], at: usize) -> CommandKind
    ensures { at < length text.now → result ≡ if slice_index text.now at == 70 then Closes else Opens }
{
    if at < text.len() && text[at] == b'F' {
        CommandKind::Closes
    } else {
        CommandKind::Opens
    }
}

/// By any other first byte.
fn letter_kind(byte: u8) -> CommandKind
    ensures { result ≡ letter_kind byte }
{
    match byte {
        b'C' => CommandKind::Calls,
        b'L' => CommandKind::Layer,
        b'B' => CommandKind::Box,
        b'P' => CommandKind::Polygon,
        b'W' => CommandKind::Wire,
        _ => CommandKind::Extension,
    }
}
