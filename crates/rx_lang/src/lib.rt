//! The specification language: patterns, expressions and specifications, and what they mean.
#![tactic(auto)]

pub mod examples;
pub mod expr_node;
pub mod laws;
pub mod marking;
mod matching;
pub mod pattern;
pub mod spec;
pub mod spelling;
pub mod symbol;
pub mod vector;
mod wrapped;

pub use expr_node::ExprNode;
pub use marking::shows;
pub use pattern::PatternBit;
pub use spec::Spec;
pub use spelling::accepts;
pub use symbol::Symbol;
pub use vector::Vector;
