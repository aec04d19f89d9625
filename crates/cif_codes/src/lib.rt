//! The least code that a command of a CIF text meets, behind commands that leave a state.
#![tactic(auto)]

mod bends;
mod boxes;
mod calls;
mod checks;
mod edges;
mod ends;
mod layers;
mod openings;
mod points;
mod scale;
mod truths;
mod verdicts;
mod wires;

pub use bends::{Bend, Coordinate, bend_here, segment_edges};
pub use boxes::box_code;
pub use calls::{MoveChecks, call_code, moves_checks, moves_stand};
pub use checks::Checks;
pub use edges::Edges;
pub use ends::{EndFault, text_end};
pub use layers::{closing_code, layer_code};
pub use openings::opening_code;
pub use points::{Corners, Ends, corners_here, points_stand, polygon_code};
pub use scale::{Scale, is_great};
pub use wires::{WireChecks, wire_checks, wire_code};
