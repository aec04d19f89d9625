// What a probe is told, and what it answers.

use switch_net::Level;

/// The level of a pad after a clock. Pads are numbered in the order of the network, from 0.
#[derive(Clone, Copy, Debug, PartialEq, Eq)]
pub struct Sample {
    /// The number of the clock; 0 is the reset clock.
    pub at: u32,
    /// The number of the pad.
    pub pad: u32,
    /// The level of the pad after the clock.
    pub value: Level,
}

/// Whether a probe is to be told more.
#[derive(Clone, Copy, Debug, PartialEq, Eq)]
pub enum Verdict {
    /// The probe is to be told more.
    More,
    /// The probe has enough: it is written and dropped.
    Enough,
}
