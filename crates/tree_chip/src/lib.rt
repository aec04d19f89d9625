//! The layout of a tree as one plan of tiles: the blocks of its nodes and bundles in their places, and the network that they make.
#![tactic(auto)]

mod drawing;
mod labels;
pub mod laws;
mod kind_numbers;
mod signature;

pub use drawing::chip;
pub use rx_text::NoMemory;
