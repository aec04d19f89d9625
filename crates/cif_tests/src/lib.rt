//! Tests of the crates of CIF texts: tables of texts, and what each draws, or its refusal.
#![tactic(auto)]

#[cfg(test)]
mod polygons;
#[cfg(test)]
mod reading;
#[cfg(test)]
mod refusals;
#[cfg(test)]
mod sentences;
#[cfg(test)]
mod writing;
