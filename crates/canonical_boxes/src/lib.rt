//! Sets of unit squares as boxes that are the runs of their rows, and questions about them that list no squares.
#![tactic(auto)]

mod canonical;
mod combining;
mod gaps;
mod holding;
pub mod laws;
mod locating;
mod standing;
mod sweep;
mod touching;

pub use canonical::Canonical;
pub use combining::{both, outside, without};
pub use holding::{Area, holds, holds_in_plane};
pub use locating::locate;
pub use rx_text::NoMemory;
pub use standing::begun_among;
pub use touching::{Touch, touches};
