//! Tests of the crates of tiles: tables of tiles and grids, and what each comes to.
#![tactic(auto)]

#[cfg(test)]
mod grids;
#[cfg(test)]
mod laid;
#[cfg(test)]
mod tiles;
