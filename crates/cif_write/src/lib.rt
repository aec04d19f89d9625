//! The CIF text of a chip, and its writer.
//!
//! Each kind is a definition `DS N 100 1;` with a line `B ..;` for each box and a line `L NAME;` where the layer changes,
//! and `DF;`. Then come the calls, the labels, and `E`. Distances are in hundredths of a micrometre, of which 200 make one
//! lambda; in definitions the scale of 100 leaves halves of a lambda.
#![tactic(auto)]

mod laws;
mod page;
mod writing;

pub use laws::chip_texts_draw;
pub use writing::write_cif;
