//! The ternary simulator of switch networks: levels are low, high or unknown.
#![tactic(auto)]

mod drive;
mod gates;
mod group;
mod incidence;
mod laws;
mod names;
mod run;
mod serving;
mod settling;
mod sim;
mod telling;
mod trace;
mod trace_code;
mod waiting;
mod worklist;

pub use laws::{
    probes_are_told_in_order, served_runs_are_one, served_runs_exist, texts_are_traces_or_refused,
    traces_have_an_output, traces_have_one_output, unserved_runs_write_lines,
};
pub use run::{RunFault, run_trace};
pub use rx_text::NoMemory;
pub use serving::Asked;
pub use sim::Sim;
pub use trace::{Trace, read_trace};
pub use trace_code::{ReadTraceFault, TraceCode, TraceFault};
