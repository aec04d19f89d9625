//! Large specifications made from a number, for trials and measurements.
#![tactic(auto)]

mod demo;
mod draws;
pub mod examples;
mod maker;
mod pile;
mod sign;

pub use demo::demo_spec;
pub use rx_text::NoMemory;
