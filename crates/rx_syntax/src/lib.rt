//! The text of a specification.
#![tactic(auto)]

mod bounds;
mod bytes;
mod declarations;
mod group;
mod kind;
pub mod laws;
mod lexeme;
mod machine;
mod names;
mod naming;
mod node_builder;
mod node_table;
mod nodes;
mod print;
pub mod print_examples;
pub mod read;
mod repeats;
pub mod shape;
mod spec_code;
mod tally;
mod use_kind;
mod version;

pub use print::print_spec;
pub use read::{ReadSpecFault, SpecFault, read_spec};
pub use rx_text::NoMemory;
pub use shape::{ShapeFault, check_shape};
pub use spec_code::SpecCode;
