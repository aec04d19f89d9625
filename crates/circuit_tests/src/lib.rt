//! Tests of the crates from normal forms to levels: tables of specifications, networks and traces, and what each comes to.
#![tactic(auto)]

#[cfg(test)]
mod faults;
#[cfg(test)]
mod network_texts;
#[cfg(test)]
mod parts;
#[cfg(test)]
mod probes;
#[cfg(test)]
mod recognisers;
#[cfg(test)]
mod runs;
#[cfg(test)]
mod served;
#[cfg(test)]
mod streams;
#[cfg(test)]
mod texts;
