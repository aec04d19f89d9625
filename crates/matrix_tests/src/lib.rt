//! Tests of gate matrices: parts of netlists, and the networks of their drawings.
#![tactic(auto)]

#[cfg(test)]
mod drawn_parts;
#[cfg(test)]
mod part_texts;
