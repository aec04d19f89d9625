//! Boxes of layers on the grid of lambda: their unit squares, transforms, and chips made of them.
#![tactic(auto)]

pub mod chip;
pub mod cif_code;
pub mod cif_laws;
pub mod layer;
pub mod layer_box;
pub mod merging;
pub mod orient;
pub mod placing;
pub mod point;
mod reach;
mod row_tree;
mod span;
mod stacking;
mod sweep;

pub use chip::{Call, Chip, Kind, Label, Rect};
pub use cif_code::CifCode;
pub use cif_laws::cif_examples;
pub use layer::Layer;
pub use layer_box::Box2;
pub use merging::{merge_runs, merged_once};
pub use orient::Orient;
pub use placing::place;
pub use point::Point;
pub use rx_text::NoMemory;
