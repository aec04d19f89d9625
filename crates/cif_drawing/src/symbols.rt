// Symbols in the order of the text, which are found by their numbers.

ghost use Rattle.std.specs.Prelude.{◌≡◌, ◌++◌, ◌∷◌, [], None, OnOk, OnErr};
ghost use Rattle.cif_drawing.specs.Numbers.{IsIndexOf};

use crate::ink::Symbol;
use rx_text::NoMemory;
use std::alloc::Global;
use std::collections::HashMap;
use std::marker::Model;

/// Symbols, no two of which have the same number.
#[derive(Drop)]
pub struct Symbols {
    list: Vec<Symbol>,
    indices: HashMap<u64, usize>,
}

impl Model for Symbols {
    ghost use Rattle.std.specs.Prelude.{List, ℕ};
    ghost use Rattle.std.specs.HashMap.{get};
    ghost use Rattle.std.specs.Prelude.{nat_eq};
    ghost use Rattle.cif_drawing.specs.declared.ink.Symbol.{Symbol};
    ghost use Rattle.cif_drawing.specs.Numbers.{IsIndexOf};

    ghost Value = { List Symbol };

    ghost view = { λ s. s.list.items };

    ghost invariant = { λ s. (n : ℕ) → IsIndexOf s.list.items n (get nat_eq s.indices n) };
}

impl Symbols {
    /// None.
    pub fn new(alloc: Global) -> Symbols
        ensures { result ≡ [] }
    {
        Symbols {
            list: Vec::new(alloc),
            indices: HashMap::new(alloc),
        }
    }

    /// All of them, in the order of the text.
    pub fn list(&self) -> &[Symbol]
        ensures { result.now ≡ self.now }
    {
        &self.list
    }

    /// All of them, in the order of the text.
    pub fn into_list(self) -> Vec<Symbol>
        ensures { result.items ≡ self }
    {
        self.list
    }

    /// The index of the symbol of this number.
    pub fn index_of(&self, number: u64) -> Option<usize>
        ensures { IsIndexOf self.now number result }
    {
        self.indices.get(&number).copied()
    }

    /// Adds a symbol of a new number.
    pub fn push(&mut self, symbol: Symbol) -> Result<(), NoMemory>
        requires { IsIndexOf self.old symbol.number None }
        ensures pushed { OnOk result (self.new ≡ self.old ++ symbol ∷ []) }
        ensures kept { OnErr result (self.new ≡ self.old) }
    {
        let number = symbol.number;
        let index = self.list.len();
        self.list.push(symbol)?;
        match self.indices.insert(number, index) {
            Ok(_) => Ok(()),
            Err(_) => {
                self.list.truncate(index);
                Err(NoMemory)
            }
        }
    }
}
