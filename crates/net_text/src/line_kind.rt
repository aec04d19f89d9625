// How the lines of a network text begin.

ghost use Rattle.std.specs.Prelude.{◌≡◌};
ghost use Rattle.net_text.specs.Reading.{line_word};
ghost use Rattle.net_text.specs.declared.line_kind.LineKind.TheVariants.{Pad};

use rx_text::Role;

/// What the line of a network text is, behind the two lines of its head.
#[derive(Clone, Copy, Debug, PartialEq, Eq)]
pub enum LineKind {
    /// A pad with this role.
    Pad(Role),
    /// A pass device.
    Pass,
    /// A load.
    Load,
    /// The last line.
    End,
}

impl LineKind {
    /// The word with which such a line begins, and the byte behind it.
    pub fn word(self) -> &'static [u8]
        ensures { result.now ≡ line_word self }
    {
        match self {
            LineKind::Pad(role) => pad_word(role),
            LineKind::Pass => b"pass ",
            LineKind::Load => b"load ",
            LineKind::End => b"end\n",
        }
    }
}

/// The word of a role, and the space behind it.
fn pad_word(role: Role) -> &'static [u8]
    ensures { result.now ≡ line_word (Pad role) }
{
    match role {
        Role::Vdd => b"vdd ",
        Role::Gnd => b"gnd ",
        Role::Phi1 => b"phi1 ",
        Role::Phi2 => b"phi2 ",
        Role::Reset => b"reset ",
        Role::Input => b"in ",
        Role::Output => b"out ",
    }
}
