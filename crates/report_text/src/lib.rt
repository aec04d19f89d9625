//! What is known of a chip before it is made: the counts of its specification, the area of its array, and bounds of its tree's layout.
#![tactic(auto)]

mod figures;
mod laws;
mod lines;

pub use figures::{ArrayFigures, Figures, count_figures};
pub use laws::sides_bound_the_area;
pub use lines::{demo_text, report_text};
pub use rx_text::NoMemory;
