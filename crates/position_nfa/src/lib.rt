//! The position automaton of a normal form: which leaves may follow one another.
#![tactic(auto)]

mod array_nets;
mod array_orders;
mod array_part;
mod firsts;
mod from_tree;
pub mod laws;
mod leaf_rows;
mod netlist;
pub mod nfa;
mod planes;
mod registers;
mod steps;
mod summaries;
mod term_count;

pub use from_tree::positions;
pub use netlist::register_net;
pub use nfa::{FollowSet, Nfa};
pub use registers::Registers;
pub use rx_text::NoMemory;
pub use term_count::terms;
