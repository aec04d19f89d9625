//! The normal form of a specification: one full binary tree in which no loop stands over a part that spells the empty word.
#![tactic(auto)]

mod assembly;
mod labelling;
pub mod laws;
mod leaf_counts;
mod node;
mod normal_form;
mod outlines;
mod signs;
mod statements;
mod tree;

pub use leaf_counts::sizes;
pub use node::{Node, NodeKind};
pub use normal_form::normalize;
pub use rx_text::NoMemory;
pub use tree::Tree;
