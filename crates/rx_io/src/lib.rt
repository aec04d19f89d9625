//! Bytes in and out. A `Source` gives bytes and a `Sink` takes them; each counts its own failures, so
//! that a contract can say that a failure was told only where the source or the sink failed.
#![tactic(auto)]

mod faults;
mod memory;
mod reading;
mod standard;
mod writing;

pub use faults::{Failed, NoMemory, ReadAllFault};
pub use memory::{MemSink, MemSource};
pub use reading::{Source, read_all};
pub use standard::{StdSink, StdSource};
pub use writing::{Sink, put_all};
