//! Edges drawn between the nodes of blocks, each in rows and columns of its own.
#![tactic(auto)]

mod drawing;
pub mod laws;
mod role;

pub use drawing::draw_edge;
pub use role::EdgeRole;
pub use rx_text::NoMemory;
