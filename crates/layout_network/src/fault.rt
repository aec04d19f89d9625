// Why no network is read from a layout.

use geom::CifCode;
use nmos_model::ExtractCode;
use rx_text::Place;
use thiserror::Error;

/// What is wrong with a layout.
#[derive(Clone, Copy, Debug, PartialEq, Eq)]
pub enum LayoutCode {
    /// The text draws nothing, or boxes too far away or too many.
    Drawing(CifCode),
    /// What it draws stands for no network.
    Network(ExtractCode),
}

/// What is wrong, and where: at a line and column of the text, at a square, or in the whole layout.
#[derive(Clone, Copy, Debug, PartialEq, Eq)]
pub struct LayoutFault {
    pub code: LayoutCode,
    pub place: Place,
}

/// Why no network is read.
#[derive(Clone, Copy, Debug, PartialEq, Eq, Error)]
pub enum ReadLayoutFault {
    /// The layout is refused.
    #[error("{0:?}")]
    Fault(LayoutFault),
    /// An allocation was refused.
    #[error("no memory")]
    NoMemory,
}
