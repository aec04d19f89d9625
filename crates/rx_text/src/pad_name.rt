// The names that the pads of a circuit bear.

ghost use Rattle.std.specs.Prelude.{◌≡◌, false};
ghost use Rattle.rx_text.specs.Role.{bears_name};
ghost use Rattle.rx_text.specs.declared.pad_name.Role.TheVariants.{Input, Output};

use crate::name::Name;
use std::marker::Model;

/// What a pad is for: a supply, a clock, the reset, an input line or an output.
#[derive(Clone, Copy, Debug, PartialEq, Eq)]
pub enum Role {
    Vdd,
    Gnd,
    Phi1,
    Phi2,
    Reset,
    Input,
    Output,
}

/// The name of a pad: its role, and for an input line or an output the line's or output's own name.
#[derive(Clone, Copy, Debug, PartialEq, Eq)]
pub struct PadName {
    pub role: Role,
    pub name: Option<Name>,
}

impl Model for PadName {
    ghost use Rattle.std.specs.Prelude.{◌≡◌, is_some};
    ghost use Rattle.rx_text.specs.Role.{NamedRole, bears_name};

    ghost Value = { NamedRole };

    ghost view = { λ p. record { role = p.role; name = p.name } };

    ghost invariant = { λ p. bears_name p.role ≡ is_some p.name };

    ghost inverse = { λ p. record { role = p.role; name = p.name } };
}

impl PadName {
    /// The name of a supply, clock or reset pad.
    pub fn plain(role: Role) -> PadName
        requires { bears_name role ≡ false }
        ensures { result ≡ record { role = role; name = None } }
    {
        PadName { role, name: None }
    }

    /// The name of the pad of an input line.
    pub fn input(name: Name) -> PadName
        ensures { result ≡ record { role = Input; name = Some name } }
    {
        PadName {
            role: Role::Input,
            name: Some(name),
        }
    }

    /// The name of the pad of an output.
    pub fn output(name: Name) -> PadName
        ensures { result ≡ record { role = Output; name = Some name } }
    {
        PadName {
            role: Role::Output,
            name: Some(name),
        }
    }
}
