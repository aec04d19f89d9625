//! The network of a drawing, by sweeps over boxes.
#![tactic(auto)]

mod areas;
mod channels;
mod components;
mod conductors;
mod cuts;
mod extraction;
mod graph;
mod layers;
mod links;
mod nets;
mod regions;
mod sides;
mod transistors;

pub use components::classes_of;
pub use extraction::extract;
pub use layers::{Layers, layers_of};
pub use nets::{Nets, nets_of};
pub use transistors::transistors_of;
