// Why a command draws nothing.

ghost use Rattle.std.specs.Prelude.{◌≡◌};

use geom::CifCode;
use rx_text::NoMemory;
use std::alloc::AllocError;
use thiserror::Error;

/// Why a command draws nothing.
#[derive(Clone, Copy, Debug, PartialEq, Eq, Error)]
pub enum FigureFault {
    /// The least code that it meets.
    #[error("the command meets a code")]
    Meets(CifCode),
    /// An allocation was refused.
    #[error("no memory")]
    NoMemory,
}

impl From<NoMemory> for FigureFault {
    ghost use Rattle.cif_figures.specs.declared.fault.FigureFault.TheVariants as fault;

    ghost from_gives = { λ _ e. e ≡ fault.NoMemory };

    fn from(_refused: NoMemory) -> FigureFault {
        FigureFault::NoMemory
    }
}

impl From<AllocError> for FigureFault {
    ghost use Rattle.cif_figures.specs.declared.fault.FigureFault.TheVariants as fault;

    ghost from_gives = { λ _ e. e ≡ fault.NoMemory };

    fn from(_refused: AllocError) -> FigureFault {
        FigureFault::NoMemory
    }
}

impl From<CifCode> for FigureFault {
    ghost use Rattle.cif_figures.specs.declared.fault.FigureFault.TheVariants as fault;

    ghost from_gives = { λ code e. e ≡ fault.Meets code };

    fn from(code: CifCode) -> FigureFault {
        FigureFault::Meets(code)
    }
}
