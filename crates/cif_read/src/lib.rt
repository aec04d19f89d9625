//! The reader of CIF texts: the drawing that a text is, or its one refusal; and all boxes that a drawing draws.
//!
//! A text is commands that each end in `;`, then `E`, then blanks. A blank is every byte but digits, capital letters,
//! `-`, `(`, `)` and `;`. Distances are written in units of which 200 make one lambda, and each definition scales its own
//! by a/b.
#![tactic(auto)]

mod commands;
mod faults;
mod flattening;
mod laws;
mod mark;
mod reader;
mod reading;

pub use cif_drawing::{Drawing, Flat};
pub use faults::{CifFault, ReadCifFault};
pub use flattening::flatten;
pub use laws::{texts_have_one_reading, written_chips_are_read};
pub use reading::read_cif;
pub use rx_text::NoMemory;
