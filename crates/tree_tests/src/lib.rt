//! Tests of the layouts of trees: their sides, and where their nodes stand.
#![tactic(auto)]

#[cfg(test)]
mod layouts;
#[cfg(test)]
mod sequences;
