//! Drawings of CIF texts: what commands draw, taken sentence by sentence, and all boxes of a drawing, calls and all.
#![tactic(auto)]

mod building;
mod drawing;
mod expanding;
mod flattening;
mod ink;
mod kept;
mod laws;
mod measure;
mod measuring;
mod placement;
mod symbols;
mod text_place;
mod wide_point;

pub use building::DrawingBuilder;
pub use drawing::Drawing;
pub use flattening::{Flat, FlattenFault, flatten};
pub use laws::{polygons_have_one_list, texts_draw_flat_boxes};
pub use placement::Step;
pub use rx_text::NoMemory;
pub use text_place::TextPlace;
