//! Gate matrices: parts of netlists drawn as grids of tiles. Each net has a column of poly, and the column behind it holds the
//! devices that the net gates; each gate, load and transfer has a few rows of metal and devices.
#![tactic(auto)]

pub mod column;
pub mod drawing;
pub mod examples;
pub mod gated;
pub mod heights;
pub mod laws;
pub mod matrix;
mod open_loads;
pub mod part_rows;
pub mod row;

pub use column::Column;
pub use drawing::draw;
pub use gated::Gated;
pub use heights::needed;
pub use matrix::Matrix;
pub use row::{Row, RowKind, cell};
pub use rx_text::NoMemory;
