//! What the commands of CIF texts draw, or the least code that each meets.
#![tactic(auto)]

mod boxes;
mod calls;
mod definitions;
mod fault;
mod labels;
mod laws;
mod layers;
mod points;
mod polygons;
mod rectangles;
mod wires;

pub use boxes::box_drawn;
pub use calls::{called_number, steps_called};
pub use definitions::{Definition, definition_closed, definition_opened, opened_number};
pub use fault::FigureFault;
pub use labels::label_put;
pub use laws::others_lead_on;
pub use layers::layer_set;
pub use polygons::{Polygon, polygon_drawn};
pub use wires::wire_drawn;
