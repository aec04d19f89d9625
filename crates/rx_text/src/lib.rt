//! Names, places in a text, the names of a circuit's pads, decimal text, and want of memory.
#![tactic(auto)]

pub mod name;
mod no_memory;
pub mod number;
pub mod number_text;
pub mod pad_name;
pub mod place;

pub use name::Name;
pub use no_memory::NoMemory;
pub use number::{NumberFault, read_number};
pub use number_text::NumberText;
pub use pad_name::{PadName, Role};
pub use place::{Place, place_at};
