//! Where the nodes of a tree stand, and how its edges run.
#![tactic(auto)]

pub mod laws;
mod levels;
mod links;
mod numbered;
mod squares;
mod trees;

pub use numbered::Entry;
pub use rx_text::NoMemory;
pub use trees::layout;
