//! Switch networks of nMOS transistors: nets, pads, pass devices and loads.
#![tactic(auto)]

mod double_pad;
pub mod examples;
mod keys;
pub mod laws;
pub mod network;
pub mod same;
pub mod settling;
pub mod ternary;

pub use double_pad::first_double_pad;
pub use examples::{register_stores, small_circuits_settle};
pub use keys::{NameKey, name_key};
pub use laws::clocked_logic_settles;
pub use network::{BadNetwork, Device, Level, Net, Network, Pad, first_missing};
pub use rx_text::NoMemory;
pub use same::{same_networks_agree, same_networks_run_alike};
pub use settling::{runs_split, settled_values_keep_to_groups};
pub use ternary::{
    settled_levels_are_least, ternary_levels_are_sure, ternary_runs_exist, told_nets_settle,
};
