//! The boxes of polygons and wires: shapes whose sides lie along the axes, as boxes on the grid of lambda.
#![tactic(auto)]

mod changes;
mod corners;
mod laws;
mod polygons;
mod sides;
mod wires;

pub use laws::boxes_cover_polygons;
pub use polygons::polygon_boxes;
pub use rx_text::NoMemory;
pub use sides::inside;
pub use wires::wire_boxes;
