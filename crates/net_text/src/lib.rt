//! The text of a switch network, its writer, and its reader.
//!
//! Each line ends in a line feed, its parts are separated by one space, and numbers are decimal without leading
//! zeros. The text is the line `rxnet 1`; the line `nets N` with the number of nets; a line for each pad, which is
//! `vdd K`, `gnd K`, `phi1 K`, `phi2 K`, `reset K`, `in NAME K` or `out NAME K` with K its net; a line for each
//! device, which is `pass G A B` with the nets of its gate and its two ends, or `load K`; and the line `end`.
//!
//! Every text is that of one network, or it has one refusal, a code at a line and column. [`read_net`] answers that network
//! or that refusal, where it finds memory. Refusals are stated by the shape of texts, not by the way in which they are read.
#![tactic(auto)]

mod laws;
mod line_kind;
mod net_fault;
mod numbers;
mod page;
mod reading;
mod words;
mod writing;

pub use laws::{
    refusals_stand_in_the_text, text_is_of_one_network, texts_are_networks_or_refused,
    written_networks_are_read_back,
};
pub use net_fault::{NetCode, NetFault, ReadNetFault};
pub use reading::read_net;
pub use writing::write_net;
