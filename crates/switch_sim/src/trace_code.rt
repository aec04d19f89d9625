// What can be wrong with a trace.

ghost use Rattle.std.specs.Prelude.{◌≡◌};

use rx_text::{NoMemory, Place};
use std::alloc::{AllocError, AllocFailed};
use thiserror::Error;

/// What is wrong with a trace.
#[derive(Clone, Copy, Debug, PartialEq, Eq)]
pub enum TraceCode {
    /// BadBit: a line is empty or has a byte that is neither `0` nor `1`, and is not `chip`.
    V1,
    /// WrongWidth: a vector has not as many bits as the network has input pads.
    V2,
    /// TooManyVectors: more than 10,000 lines stand before the line `chip` or the end.
    V3,
    /// NoChip: the input ends before a line `chip` that a line feed ends.
    V4,
}

/// A code, and the number of the byte at which it stands.
#[derive(Clone, Copy, Debug, PartialEq, Eq)]
pub(crate) struct TraceSpot {
    pub(crate) code: TraceCode,
    pub(crate) at: usize,
}

/// A code, and where it stands.
#[derive(Clone, Copy, Debug, PartialEq, Eq)]
pub struct TraceFault {
    pub code: TraceCode,
    pub place: Place,
}

/// Why a trace is not read.
#[derive(Clone, Copy, Debug, PartialEq, Eq, Error)]
pub enum ReadTraceFault {
    /// The text does not begin with a trace.
    #[error("{0:?}")]
    Fault(TraceFault),
    /// An allocation was refused.
    #[error("no memory")]
    NoMemory,
}

impl From<NoMemory> for ReadTraceFault {
    ghost use Rattle.switch_sim.specs.declared.trace_code.ReadTraceFault.TheVariants as fault;

    ghost from_gives = { λ _ e. e ≡ fault.NoMemory };

    fn from(_refused: NoMemory) -> ReadTraceFault {
        ReadTraceFault::NoMemory
    }
}
