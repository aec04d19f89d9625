//! What can go wrong.
ghost use Rattle.std.specs.Prelude.{◌≡◌};

use std::alloc::AllocError;
use thiserror::Error;

/// A read or a write failed. Its source or its sink has counted the failure.
#[derive(Clone, Copy, Debug, PartialEq, Eq, Error)]
#[error("reading or writing failed")]
pub struct Failed;

/// An allocation was refused.
#[derive(Clone, Copy, Debug, PartialEq, Eq, Error)]
#[error("no memory")]
pub struct NoMemory;

impl From<AllocError> for NoMemory {
    fn from(_refused: AllocError) -> NoMemory {
        NoMemory
    }
}

/// Why a source was not read to its end.
#[derive(Clone, Copy, Debug, PartialEq, Eq, Error)]
pub enum ReadAllFault {
    /// A read failed.
    #[error("reading failed")]
    Failed,
    /// More bytes came than are wanted.
    #[error("the input is too long")]
    TooLong,
    /// An allocation was refused.
    #[error("no memory")]
    NoMemory,
}

impl From<Failed> for ReadAllFault {
    ghost use Rattle.rx_io.specs.declared.faults.ReadAllFault.TheVariants as fault;

    ghost from_gives = { λ _ e. e ≡ fault.Failed };

    fn from(_failed: Failed) -> ReadAllFault {
        ReadAllFault::Failed
    }
}

impl From<AllocError> for ReadAllFault {
    ghost use Rattle.rx_io.specs.declared.faults.ReadAllFault.TheVariants as fault;

    ghost from_gives = { λ _ e. e ≡ fault.NoMemory };

    fn from(_refused: AllocError) -> ReadAllFault {
        ReadAllFault::NoMemory
    }
}
