//! Plans of wires: poly of nets in columns, metal of nets in rows, and contacts where metal ends.
#![tactic(auto)]

pub mod laws;
pub mod tile;

pub use tile::wire_tile;
