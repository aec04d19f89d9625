//! The box of a chip, in whole tiles.
#![tactic(auto)]

mod extent;
mod laws;

pub use extent::box_of;
pub use laws::rectangles_exist;
