//! The kinds of the commands of CIF texts, and where their parts stand.
#![tactic(auto)]

mod kinds;
mod laws;
mod layers;

pub use kinds::{CommandKind, command_kind};
pub use laws::{extensions_stand, parts_stand};
pub use layers::{layer_here, layer_named};
