//! Programmable logic arrays: terms and sums of terms as two planes of gate matrices, over the part of a netlist that feeds them.
#![tactic(auto)]

pub mod array_laws;
pub mod array_plan;
pub mod chip;
pub mod label_pads;
pub mod laws;
pub mod pla;
pub mod plane_parts;
pub mod plane_rows;
pub mod planes;

pub use array_plan::plan;
pub use label_pads::pad_labels;
pub use pla::Pla;
pub use planes::Planes;
pub use rx_text::NoMemory;
