//! What is drawn by plans of tiles, of any number of rows and columns, keeps the lambda rules.
#![tactic(auto)]

pub mod laws;
