//! The tiles that layouts are made of, 14 lambda wide and high: their boxes, what their sides carry, and their nets.
#![tactic(auto)]

pub mod basic;
pub mod boxes;
pub mod conducting;
pub mod design;
pub mod device;
pub mod examples;
pub mod laws;
pub mod nets;
pub mod ports;
pub mod side;
pub mod table;
pub mod tile;

pub use basic::Basic;
pub use boxes::{TILE_SIDE, box_at, box_count};
pub use conducting::conducts;
pub use design::{Arms, Design};
pub use device::{Mode, Transistor, channel_in, transistor_in};
pub use nets::{local_net, net_of_square};
pub use ports::port;
pub use side::{Port, Side};
pub use table::{BASIC, BASICS, NO_ARMS};
pub use tile::{TILES, Tile, transposed};
