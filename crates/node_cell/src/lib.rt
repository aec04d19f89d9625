//! The blocks of a tree's layout: bundles that pass, cross and turn, and the parts of nodes and of the frame with the bundles that lead to them.
#![tactic(auto)]

mod bundles;
mod ends;
pub mod fits;
mod form;
pub mod laws;
mod lines;
mod matrix;
mod run;
mod tiles;

pub use rx_text::NoMemory;
pub use tiles::{BlockTiles, block, is_left_light};
