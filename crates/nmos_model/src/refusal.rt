// Why a drawing stands for no network.

ghost use Rattle.std.specs.Prelude.{◌≡◌};

use rx_text::{NoMemory, Place};
use std::alloc::{AllocError, AllocFailed};
use thiserror::Error;

/// What is wrong with a drawing and its labels, in the order of their codes but for `X3`, which comes last.
#[derive(Clone, Copy, Debug, PartialEq, Eq)]
pub enum ExtractCode {
    /// A channel region is no full rectangle, or lies partly under implant.
    X1,
    /// Conducting diffusion does not lie along two opposite sides of a channel region, and nowhere along the two others.
    X2,
    /// A depletion device is no load: its gate is not on the net of a terminal, or its other terminal not on that of VDD.
    X3,
    /// A label's square does not conduct in the label's layer.
    X4,
    /// A label's name stands on another net before, or its net bears another name before.
    X5,
    /// No label has the name VDD, GND, PHI1, PHI2 or RESET.
    X6,
}

/// What is wrong, and where: at the first square of a region in row order, at a label's square, or in the whole drawing.
#[derive(Clone, Copy, Debug, PartialEq, Eq)]
pub struct ExtractFault {
    pub code: ExtractCode,
    pub place: Place,
}

/// Why no network is extracted.
#[derive(Clone, Copy, Debug, PartialEq, Eq, Error)]
pub enum ReadChipFault {
    /// The drawing and its labels stand for no network.
    #[error("the drawing stands for no network")]
    Fault(ExtractFault),
    /// An allocation was refused.
    #[error("no memory")]
    NoMemory,
}

impl From<NoMemory> for ReadChipFault {
    ghost use Rattle.nmos_model.specs.declared.refusal.ReadChipFault.TheVariants as fault;

    ghost from_gives = { λ _ e. e ≡ fault.NoMemory };

    fn from(_refused: NoMemory) -> ReadChipFault {
        ReadChipFault::NoMemory
    }
}

impl From<AllocError> for ReadChipFault {
    ghost use Rattle.nmos_model.specs.declared.refusal.ReadChipFault.TheVariants as fault;

    ghost from_gives = { λ _ e. e ≡ fault.NoMemory };

    fn from(_refused: AllocError) -> ReadChipFault {
        ReadChipFault::NoMemory
    }
}

impl<T: Drop> From<AllocFailed<T>> for ReadChipFault {
    ghost use Rattle.nmos_model.specs.declared.refusal.ReadChipFault.TheVariants as fault;

    ghost from_gives = { λ _ e. e ≡ fault.NoMemory };

    fn from(_refused: AllocFailed<T>) -> ReadChipFault {
        ReadChipFault::NoMemory
    }
}
