// The symbols of a specification.

use crate::pattern::PatternBit;
use rx_text::Name;
use smallvec::SmallVec;
use std::marker::Model;

/// A symbol: a name for a pattern, which has a place for each line.
#[derive(Drop)]
pub struct Symbol {
    pub name: Name,
    pub pattern: SmallVec<PatternBit, 16>,
}

impl Model for Symbol {
    ghost use Rattle.rx_lang.specs.Specification.{NamedPattern};

    ghost Value = { NamedPattern };

    ghost view = { λ s. record { name = s.name; pattern = s.pattern.items } };
}
