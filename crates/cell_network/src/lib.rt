//! The cells of a normal form: one for each node, with a register at each leaf.
#![tactic(auto)]

pub mod assembly_laws;
mod home;
pub mod laws;
pub mod meeting_laws;
mod numbering;
mod part;
mod part_net;
mod shapes;
mod whole;

pub use numbering::Counts;
pub use part::node_part;
pub use rx_text::NoMemory;
pub use whole::cells;
