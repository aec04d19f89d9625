// Why no drawing is read.

use geom::CifCode;
use rx_text::Place;
use thiserror::Error;

/// Why a CIF text is refused, and where.
#[derive(Clone, Copy, Debug, PartialEq, Eq)]
pub struct CifFault {
    pub code: CifCode,
    pub place: Place,
}

/// Why no drawing is read, or no boxes are listed.
#[derive(Clone, Copy, Debug, PartialEq, Eq, Error)]
pub enum ReadCifFault {
    /// The text, or its drawing, is refused.
    #[error("{0:?}")]
    Fault(CifFault),
    /// An allocation was refused.
    #[error("no memory")]
    NoMemory,
}
