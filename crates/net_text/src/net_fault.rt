// What can be wrong with a network text.

ghost use Rattle.std.specs.Prelude.{◌≡◌};

use rx_text::{NoMemory, Place};
use thiserror::Error;

/// What is wrong with the text of a network.
#[derive(Clone, Copy, Debug, PartialEq, Eq)]
pub enum NetCode {
    /// Syntax: no text of the shape goes on with this byte, or the text ends too early.
    N1,
    /// A net is not below the number of nets. It stands at the first digit of the net.
    N2,
    /// A pad repeats the name or the net of an earlier pad.
    N3,
    /// A supply, a clock or the reset has no pad.
    N4,
    /// There are more than 16,777,216 nets. It stands at the first digit of their number.
    N5,
    /// A byte stands behind the line `end`.
    N6,
}

/// Why a text is no network's, and where.
#[derive(Clone, Copy, Debug, PartialEq, Eq)]
pub struct NetFault {
    pub code: NetCode,
    pub place: Place,
}

/// Why no network is read.
#[derive(Clone, Copy, Debug, PartialEq, Eq, Error)]
pub enum ReadNetFault {
    /// The text is no network's.
    #[error("{0:?}")]
    Fault(NetFault),
    /// An allocation was refused.
    #[error("no memory")]
    NoMemory,
}

impl From<NoMemory> for ReadNetFault {
    ghost use Rattle.net_text.specs.declared.net_fault.ReadNetFault.TheVariants as fault;

    ghost from_gives = { λ _ e. e ≡ fault.NoMemory };

    fn from(_refused: NoMemory) -> ReadNetFault {
        ReadNetFault::NoMemory
    }
}
