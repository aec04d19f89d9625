// Expressions made by draws.

ghost use Rattle.std.specs.Prelude.{◌≡◌, ◌+◌, ◌-◌, ◌<◌, ◌≤◌, ◌%◌, ◌^◌, ◌==◌, [], length, IfOk};
ghost use Rattle.demo_spec.specs.Generator.{combined, combined_all, combined_by_draws, drawn, marked_entry, next_seed, pushed, with_leaf, with_leaves};
ghost use Rattle.demo_spec.specs.Piles.{IsPile, leaf_count, making, piled, stack_of};

use crate::draws::Draws;
use crate::pile::Pile;
use crate::sign::Sign;
use rx_lang::ExprNode;
use rx_text::NoMemory;
use std::alloc::Global;
use std::marker::Model;

/// A sequence of draws, and the expressions that they have made so far.
#[derive(Drop)]
pub(crate) struct Maker {
    draws: Draws,
    pile: Pile,
}

impl Model for Maker {
    ghost use Rattle.demo_spec.specs.Piles.{IsSmall, Made};

    ghost Value = { Made };

    ghost view = { λ m. record { seed = m.draws; pile = m.pile } };

    ghost invariant = { λ m. IsSmall m.pile };
}

impl Maker {
    /// Nothing is made yet.
    pub(crate) fn new(alloc: Global, start: u64) -> Maker
        ensures { making result ≡ record { seed = start % 2 ^ 31; stack = [] } }
    {
        Maker {
            draws: Draws::new(start),
            pile: Pile::new(alloc),
        }
    }

    // How many expressions there are.
    fn len(&self) -> usize
        ensures { result ≡ length self.now.pile.numbers }
    {
        self.pile.len()
    }

    // Draws whether to combine further.
    fn goes_on(&mut self) -> bool
        ensures goes_on { result ≡ (drawn self.old.seed % 2 == 1) }
        ensures seed { self.new ≡ record self.old { seed = next_seed self.old.seed } }
    {
        self.draws.draw(2) == 1
    }

    // A symbol with a postfix, both drawn, on the top.
    fn pushed(self) -> Result<Maker, NoMemory>
        requires { leaf_count (stack_of self.pile) < 4096 }
        ensures { IfOk result (λ maker. making maker ≡ pushed (making self)) }
    {
        let mut draws = self.draws;
        let symbol = draws.draw(4) as u8;
        let postfix = draws.draw(8);
        let pile = self.pile.with_symbol(symbol)?.with_postfix(postfix)?;
        Ok(Maker { draws, pile })
    }

    // The two expressions on the top as one, with a postfix, both drawn.
    fn combined(self) -> Result<Maker, NoMemory>
        requires { 2 ≤ length self.pile.numbers }
        ensures { IfOk result (λ maker. making maker ≡ combined (making self)) }
    {
        let mut draws = self.draws;
        let join = draws.draw(2);
        let postfix = draws.draw(8);
        let pile = self.pile.joined(join)?.with_postfix(postfix)?;
        Ok(Maker { draws, pile })
    }

    // Combines while there are two expressions and a draw tells so.
    fn combined_by_draws(self) -> Result<Maker, NoMemory>
        ensures { IfOk result (λ maker. making maker ≡ combined_by_draws (length self.pile.numbers - 1) (making self)) }
    {
        let mut maker = self;
        while maker.len() >= 2 {
            if !maker.goes_on() {
                return Ok(maker);
            }
            maker = maker.combined()?;
        }
        Ok(maker)
    }

    // One more symbol.
    fn with_leaf(self) -> Result<Maker, NoMemory>
        requires { leaf_count (stack_of self.pile) < 4096 }
        ensures { IfOk result (λ maker. making maker ≡ with_leaf (making self)) }
    {
        self.pushed()?.combined_by_draws()
    }

    /// So many more symbols.
    pub(crate) fn with_leaves(self, leaves: u32) -> Result<Maker, NoMemory>
        requires { leaf_count (stack_of self.pile) + leaves ≤ 4096 }
        ensures { IfOk result (λ maker. making maker ≡ with_leaves leaves (making self)) }
    {
        let mut maker = self;
        let mut made = 0;
        while made < leaves {
            maker = maker.with_leaf()?;
            made += 1;
        }
        Ok(maker)
    }

    /// Combines until one expression is left.
    pub(crate) fn combined_all(self) -> Result<Maker, NoMemory>
        ensures { IfOk result (λ maker. making maker ≡ combined_all (making self)) }
    {
        let mut maker = self;
        while maker.len() >= 2 {
            maker = maker.combined()?;
        }
        Ok(maker)
    }

    /// The nodes of the expression that is left, marked with the first output, and its number.
    pub(crate) fn into_marked(self) -> Result<(Vec<ExprNode>, Vec<u32>), NoMemory>
        requires { length self.pile.numbers ≡ 1 }
        ensures pile { IfOk result (λ parts. IsPile parts.0.items parts.1.items) }
        ensures stack { IfOk result (λ parts. piled parts.0.items parts.1.items ≡ marked_entry (stack_of self.pile)) }
        ensures nodes { IfOk result (λ parts. length parts.0.items < 2 ^ 32) }
    {
        let pile = self.pile.with_sign(Sign::Marked(0))?;
        Ok(pile.into_parts())
    }
}
