// Position automata.

ghost use Rattle.std.specs.Prelude.{◌≡◌};
ghost use Rattle.position_nfa.specs.Automaton.{IsAutomaton};

use std::marker::Model;

/// The positions that may follow a position.
#[derive(Drop)]
pub struct FollowSet {
    positions: Vec<u32>,
}

impl Model for FollowSet {
    ghost use Rattle.std.specs.Prelude.{ℕ, List};

    ghost Value = { List ℕ };

    ghost view = { λ s. s.positions.items };
}

impl FollowSet {
    /// The set of these positions.
    pub fn new(positions: Vec<u32>) -> FollowSet
        ensures { result ≡ positions.items }
    {
        FollowSet { positions }
    }

    /// The positions.
    pub fn positions(&self) -> &[u32]
        ensures { result.now ≡ self.now }
    {
        &self.positions
    }
}

/// An automaton with a state for each position, after McNaughton and Yamada (1960) and Glushkov (1961), and with two starts:
/// one at the reset alone, and one at all times. It comes to a position on the symbol of that position. Bit y of a mask says
/// that words end there which are marked for output y. There are 1 to 4096 positions, and all that are named are below their
/// number.
#[derive(Drop)]
pub struct Nfa {
    symbols: Vec<u8>,
    first: Vec<u32>,
    scan_first: Vec<u32>,
    follow: Vec<FollowSet>,
    marked: Vec<u16>,
    scan_marked: u16,
}

impl Model for Nfa {
    ghost use Rattle.position_nfa.specs.Automaton.{Automaton, IsAutomaton};

    ghost Value = { Automaton };

    ghost view = { λ n. record {
      symbols = n.symbols.items;
      first = n.first.items;
      scan_first = n.scan_first.items;
      follow = n.follow.items;
      marked = n.marked.items;
      scan_marked = n.scan_marked;
    } };

    ghost invariant = { λ n. IsAutomaton (record {
      symbols = n.symbols.items;
      first = n.first.items;
      scan_first = n.scan_first.items;
      follow = n.follow.items;
      marked = n.marked.items;
      scan_marked = n.scan_marked;
    }) };
}

impl Nfa {
    /// The automaton of these tables.
    pub fn new(
        symbols: Vec<u8>,
        first: Vec<u32>,
        scan_first: Vec<u32>,
        follow: Vec<FollowSet>,
        marked: Vec<u16>,
        scan_marked: u16,
    ) -> Nfa
        requires { IsAutomaton (record {
          symbols = symbols.items;
          first = first.items;
          scan_first = scan_first.items;
          follow = follow.items;
          marked = marked.items;
          scan_marked = scan_marked;
        }) }
        ensures { result ≡ record {
          symbols = symbols.items;
          first = first.items;
          scan_first = scan_first.items;
          follow = follow.items;
          marked = marked.items;
          scan_marked = scan_marked;
        } }
    {
        Nfa {
            symbols,
            first,
            scan_first,
            follow,
            marked,
            scan_marked,
        }
    }

    /// The symbol of each position.
    pub fn symbols(&self) -> &[u8]
        ensures symbols { result.now ≡ self.now.symbols }
        ensures automaton { IsAutomaton self.now }
    {
        &self.symbols
    }

    /// The positions with which a word may begin at the reset.
    pub fn first(&self) -> &[u32]
        ensures first { result.now ≡ self.now.first }
        ensures automaton { IsAutomaton self.now }
    {
        &self.first
    }

    /// The positions with which a word may begin at any time.
    pub fn scan_first(&self) -> &[u32]
        ensures first { result.now ≡ self.now.scan_first }
        ensures automaton { IsAutomaton self.now }
    {
        &self.scan_first
    }

    /// For each position those that may follow it.
    pub fn follow(&self) -> &[FollowSet]
        ensures follow { result.now ≡ self.now.follow }
        ensures automaton { IsAutomaton self.now }
    {
        &self.follow
    }

    /// The outputs that are marked at the reset, and then those that are marked at each position.
    pub fn marked(&self) -> &[u16]
        ensures marked { result.now ≡ self.now.marked }
        ensures automaton { IsAutomaton self.now }
    {
        &self.marked
    }

    /// The outputs that are marked at all times.
    pub fn scan_marked(&self) -> u16
        ensures marked { result ≡ self.now.scan_marked }
        ensures automaton { IsAutomaton self.now }
    {
        self.scan_marked
    }
}
