//! How near sets of squares come to each other, and where they are narrow.
#![tactic(auto)]

mod narrow;
mod pairs;
mod reach;

pub use narrow::thin;
pub use pairs::{NearPair, near, near_in};
pub use rx_text::NoMemory;
