//! Labels in the user extensions of CIF texts, and the least code that one meets.
#![tactic(auto)]

mod labels;
mod pads;
mod spots;
mod words;

pub use labels::label_of;
