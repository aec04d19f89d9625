//! The nodes of a normal form and the frame above it, light parts first, and the edges that cross a place of this order.
#![tactic(auto)]

mod crossings;
pub mod laws;
mod light_children;
mod light_first;

pub use crossings::crossing;
pub use light_children::children;
pub use light_first::order;
pub use rx_text::NoMemory;
