// How many symbols expressions have, copies under counted repeats among them.

ghost use Rattle.std.specs.Prelude.{◌≡◌, ◌<◌, ◌-◌, ◌^◌, OnOk};
ghost use Rattle.rx_syntax.specs.UsesRead.{no_counts, repeated_leaves, counts_behind};
ghost use Rattle.rx_syntax.specs.declared.use_kind.UseKind.TheVariants.{Leaf, FurtherLeaf, Open, Close, Least, Most, Copies};

use rx_text::NoMemory;
use std::alloc::Global;
use std::marker::Model;

/// What was counted in expressions up to a place.
#[derive(Drop)]
pub(crate) struct Tally {
    // The symbols up to here.
    leaves: u32,
    // The symbols before the last part.
    before_part: u32,
    // The symbols before each open parenthesis, the innermost last.
    opened: Vec<u32>,
    // The numbers of the last counted repeat.
    least: u8,
    most: u8,
}

impl Model for Tally {
    ghost use Rattle.std.specs.Prelude.{ℕ, reverse};
    ghost use Rattle.rx_syntax.specs.UsesRead.{Counts};

    ghost Value = { Counts ℕ };

    ghost view = { λ t. record {
      leaves = t.leaves;
      before_part = t.before_part;
      opened = reverse t.opened.items;
      least = t.least;
      most = t.most;
    } };
}

impl Tally {
    pub(crate) fn new(alloc: Global) -> Tally
        ensures { result ≡ no_counts 0 }
    {
        Tally {
            leaves: 0,
            before_part: 0,
            opened: Vec::new(alloc),
            least: 0,
            most: 1,
        }
    }

    /// The symbols up to here.
    pub(crate) fn leaves(&self) -> u32
        ensures { result ≡ self.now.leaves }
    {
        self.leaves
    }

    /// The least number of the last counted repeat.
    pub(crate) fn least(&self) -> u8
        ensures { result ≡ self.now.least }
    {
        self.least
    }

    /// The symbols up to here, where the last part stands there as often as its repeat says.
    pub(crate) fn repeated_leaves(&self) -> u64
        ensures value { result ≡ repeated_leaves self.now }
        ensures few { result < 2 ^ 41 }
    {
        let part = self.leaves.saturating_sub(self.before_part);
        u64::from(self.before_part) + u64::from(self.most) * u64::from(part)
    }

    /// A part begins with a symbol.
    pub(crate) fn begin_part(&mut self)
        requires { self.old.leaves < 2 ^ 32 - 1 }
        ensures { self.new ≡ counts_behind (λ n. n) Leaf 0 self.old }
    {
        self.before_part = self.leaves;
        self.leaves += 1;
    }

    /// A further symbol of the last part.
    pub(crate) fn add_leaf(&mut self)
        requires { self.old.leaves < 2 ^ 32 - 1 }
        ensures { self.new ≡ counts_behind (λ n. n) FurtherLeaf 0 self.old }
    {
        self.leaves += 1;
    }

    /// A parenthesis opens.
    pub(crate) fn open_part(&mut self) -> Result<(), NoMemory>
        ensures { OnOk result (self.new ≡ counts_behind (λ n. n) Open 0 self.old) }
    {
        self.opened.push(self.leaves)?;
        Ok(())
    }

    /// A parenthesis closes.
    pub(crate) fn close_part(&mut self)
        ensures { self.new ≡ counts_behind (λ n. n) Close 0 self.old }
    {
        if let Some(before) = self.opened.pop() {
            self.before_part = before;
        }
    }

    /// The least number of a counted repeat.
    pub(crate) fn set_least(&mut self, least: u8)
        ensures { self.new ≡ counts_behind (λ n. n) Least least self.old }
    {
        self.least = least;
    }

    /// The most number of a counted repeat.
    pub(crate) fn set_most(&mut self, most: u8)
        ensures { self.new ≡ counts_behind (λ n. n) Most most self.old }
    {
        self.most = most;
    }

    /// The last part is under the last counted repeat.
    pub(crate) fn add_copies(&mut self)
        requires { repeated_leaves self.old < 2 ^ 32 }
        ensures { self.new ≡ counts_behind (λ n. n) Copies 0 self.old }
    {
        self.leaves = self.repeated_leaves() as u32;
    }
}
