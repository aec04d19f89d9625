// What drives the pads in one phase of the clock.

ghost use Rattle.std.specs.Prelude.{◌≡◌, ℕ, ◌+◌, ◌<◌, ◌≤◌, ◌^◌, Bool, List, length, drop};
ghost use Rattle.switch_net.specs.Clock.{first_bit, pad_drive, bits_behind, drives_of};

use rx_text::Role;
use std::marker::Model;
use switch_net::Pad;

/// The clocks, the reset, and a bit for each input pad. An input pad for which there is none is low.
#[derive(Drop)]
pub(crate) struct Drive<'a> {
    pub(crate) phi1: bool,
    pub(crate) phi2: bool,
    pub(crate) reset: bool,
    pub(crate) lines: &'a [bool],
}

impl<'a> Model for Drive<'a> {
    ghost use Rattle.switch_net.specs.Clock.{Drive};

    ghost Value = { Drive };

    ghost view = { λ d. record { phi1 = d.phi1; phi2 = d.phi2; reset = d.reset; lines = d.lines.now } };
}

impl<'a> Drive<'a> {
    /// How a pad of this role is driven, where the next input pad takes the bit of this number.
    fn level(&self, role: Role, line: usize) -> bool
        ensures { result ≡ pad_drive self.now (drop line self.now.lines) role }
    {
        match role {
            Role::Vdd => true,
            Role::Gnd | Role::Output => false,
            Role::Phi1 => self.phi1,
            Role::Phi2 => self.phi2,
            Role::Reset => self.reset,
            Role::Input => bit(self.lines, line),
        }
    }

    /// Puts down how each pad is driven.
    pub(crate) fn fill(&self, pads: &[Pad], values: &mut [bool])
        requires { length values.old ≡ length pads.now }
        ensures values { values.new ≡ drives_of self.now pads.now }
        ensures size { length values.new ≡ length values.old }
    {
        let mut line = 0;
        for (at, pad) in pads.iter().enumerate() {
            values[at] = self.level(pad.name.role, line);
            line = next_line(line, pad.name.role);
        }
    }
}

/// The bit of this number, low where there is none.
fn bit(lines: &[bool], line: usize) -> bool
    ensures { result ≡ first_bit (drop line lines.now) }
{
    lines.get(line).copied().unwrap_or(false)
}

/// The number of the bit for the next input pad behind a pad of this role.
fn next_line(line: usize, role: Role) -> usize
    requires { line + 1 < 2 ^ 64 }
    ensures lines { (bits : List Bool) → drop result bits ≡ bits_behind (drop line bits) role }
    ensures most { result ≤ line + 1 }
{
    match role {
        Role::Input => line + 1,
        Role::Vdd | Role::Gnd | Role::Phi1 | Role::Phi2 | Role::Reset | Role::Output => line,
    }
}
