//! Probes: recorders that a caller hands to a simulation. A probe is told the levels of the pads that it wants, clock by
//! clock, until it has enough, and then writes a text. `Toggles` counts how often pads change, and `Waves` writes a value
//! change dump. A caller may hand in probes of its own.
#![tactic(auto)]

mod laws;
mod lines;
mod probe;
mod sample;
mod toggles;
mod waves;

pub use laws::{due_samples_are_regular, samples_give_texts, toggles_end_at_stops};
pub use probe::Probe;
pub use rx_text::NoMemory;
pub use sample::{Sample, Verdict};
pub use toggles::Toggles;
pub use waves::Waves;
