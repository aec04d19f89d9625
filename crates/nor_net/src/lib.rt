//! Networks of NOR gates and clocked transfers: what they compute, and their form as switch networks.
#![tactic(auto)]

pub mod evaluation;
pub mod examples;
pub mod gate;
pub mod laws;
pub mod netlist;
pub mod part;
pub mod switch_form;

pub use evaluation::step;
pub use examples::register_shows;
pub use gate::{Gate, Transfer};
pub use netlist::NorNet;
pub use part::{Part, PartPort, Supplies};
pub use rx_text::NoMemory;
pub use switch_form::to_switch;
