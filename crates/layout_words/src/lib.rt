//! Boxes, labels and networks as texts, in which rows of tests are written: a crate of tests cannot use what stands in another one.
#![tactic(auto)]

pub mod boxes;
pub mod networks;

pub use boxes::{shapes, text_of};
pub use networks::{fault_text, network_text};
