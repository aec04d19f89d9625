// The names of pads as keys of ordered maps and sets.

ghost use Rattle.std.specs.Prelude.{◌≡◌};
ghost use Rattle.std.specs.Ordering.{is_eq};
ghost use Rattle.switch_net.specs.NameKeys.{NameKey, bytes_of, compare_keys, has_key};
ghost use Rattle.switch_net.specs.Validity.{role_number};

use rx_text::{PadName, Role};

/// A pad's name as a key: the number of its role, and the bytes of the name beside it.
pub type NameKey<'a> = (u8, Option<&'a [u8]>);

/// The key of a pad's name. Two names have equal keys exactly where they are the same.
pub fn name_key(name: &PadName) -> NameKey<'_>
    ensures role { result.0 ≡ role_number name.now.role }
    ensures bytes { bytes_of result.1 ≡ name.now.name }
    ensures equal { (other : NameKey) → is_eq (compare_keys result other) ≡ has_key name.now other }
{
    (role_number(name.role), name_bytes(name))
}

/// The bytes of a name beside a role.
fn name_bytes(name: &PadName) -> Option<&[u8]>
    ensures { bytes_of result ≡ name.now.name }
{
    match &name.name {
        Some(name) => Some(name.as_bytes()),
        None => None,
    }
}

/// The number of a role.
fn role_number(role: Role) -> u8
    ensures { result ≡ role_number role }
{
    match role {
        Role::Vdd => 0,
        Role::Gnd => 1,
        Role::Phi1 => 2,
        Role::Phi2 => 3,
        Role::Reset => 4,
        Role::Input => 5,
        Role::Output => 6,
    }
}
