//! Tests of the crates of boxes and networks: tables of boxes and drawings, and what each comes to.
#![tactic(auto)]

#[cfg(test)]
mod drawings;
#[cfg(test)]
mod geometry;
#[cfg(test)]
mod sweeps;
