// The registers of a position automaton.

ghost use Rattle.std.specs.Prelude.{◌≡◌, IfOk};
ghost use Rattle.position_nfa.specs.Registers.{registers_of};

use crate::array_nets::ArrayCounts;
use crate::array_part::array_part;
use crate::nfa::Nfa;
use crate::planes::{add_sums, add_terms};
use crate::steps::{marked_states, steps};
use nor_net::{Gate, Part};
use rx_lang::Spec;
use rx_text::NoMemory;
use std::alloc::Global;
use std::marker::Model;

/// The registers of a position automaton as a plane of terms, a plane of sums and a part below them. Net 0 of the part is the
/// high supply, nets 1 to `left` are those of the plane of terms, and the net behind them is the ground. The net of term k is
/// the k-th behind those of the part.
#[derive(Drop)]
pub struct Registers {
    left: u32,
    terms: Vec<Gate>,
    sums: Vec<Gate>,
    part: Part,
}

impl Model for Registers {
    ghost use Rattle.position_nfa.specs.Registers.{RegisterTables};

    ghost Value = { RegisterTables };

    ghost view = { λ r. record {
      left = r.left;
      terms = r.terms.items;
      sums = r.sums.items;
      part = r.part;
    } };
}

impl Registers {
    /// The registers of the automaton, which reads the specification's symbols. There is a term for each state and each symbol on
    /// which it goes on, and one for each state in which an output is marked.
    ///
    /// # Errors
    ///
    /// `NoMemory` where an allocation was refused.
    pub fn of(alloc: Global, nfa: &Nfa, spec: &Spec) -> Result<Registers, NoMemory>
        ensures { IfOk result (λ registers. registers ≡ registers_of nfa.now spec.now) }
    {
        let counts = ArrayCounts::of(nfa, spec);
        let steps = steps(alloc, nfa, spec.symbols().len() as u8)?;
        let marked = marked_states(alloc, nfa)?;
        let mut terms = Vec::new(alloc);
        add_terms(alloc, &mut terms, counts, spec.symbols(), &steps, &marked)?;
        let mut sums = Vec::new(alloc);
        add_sums(alloc, &mut sums, counts, nfa, &steps, &marked)?;
        let part = array_part(alloc, counts)?;
        Ok(Registers {
            left: counts.reset_net(),
            terms,
            sums,
            part,
        })
    }

    /// How many nets the plane of terms has.
    pub fn left(&self) -> u32
        ensures { result ≡ self.now.left }
    {
        self.left
    }

    /// The terms.
    pub fn terms(&self) -> &[Gate]
        ensures { result.now ≡ self.now.terms }
    {
        &self.terms
    }

    /// The sums.
    pub fn sums(&self) -> &[Gate]
        ensures { result.now ≡ self.now.sums }
    {
        &self.sums
    }

    /// The part below the planes.
    pub fn part(&self) -> &Part
        ensures { result.now ≡ self.now.part }
    {
        &self.part
    }
}
