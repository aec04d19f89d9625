// Names in order of declaration.

ghost use Rattle.std.specs.Prelude.{◌≡◌, ◌+◌, ◌<◌, ◌≤◌, ◌++◌, ◌∷◌, [], true, false, length, IfSome, IfOk, OnOk, OnErr, if◌then◌else◌, None, Some};
ghost use Rattle.rx_text.specs.Name.{is_name};
ghost use Rattle.rx_syntax.specs.Uses.{is_among};
ghost use Rattle.rx_syntax.specs.Accepted.{number_in};

use indexmap::IndexSet;
use rx_text::{Name, NoMemory};
use std::alloc::Global;
use std::marker::Model;

/// Different names in order of declaration. A name is found by its bytes, at a cost that does not grow with their number.
#[derive(Drop)]
pub(crate) struct Names<'a> {
    words: IndexSet<&'a [u8]>,
}

impl<'a> Model for Names<'a> {
    ghost use Rattle.std.specs.Prelude.{◌≡◌, List, ℕ, map, true, All};
    ghost use Rattle.rx_text.specs.Name.{is_name};

    ghost Value = { List (List ℕ) };

    ghost view = { λ n. map (λ word. word.now) n.words.keys };

    ghost invariant = { λ n. All (λ word. is_name word.now ≡ true) n.words.keys };
}

impl<'a> Names<'a> {
    pub(crate) fn new(alloc: Global) -> Names<'a>
        ensures { result ≡ [] }
    {
        Names {
            words: IndexSet::new(alloc),
        }
    }

    pub(crate) fn len(&self) -> usize
        ensures { result ≡ length self.now }
    {
        self.words.len()
    }

    pub(crate) fn contains(&self, word: &[u8]) -> bool
        ensures { result ≡ is_among word.now self.now }
    {
        self.words.contains(word)
    }

    /// The number of a name among those declared.
    pub(crate) fn number(&self, word: &[u8]) -> Option<usize>
        ensures number { result ≡ (if is_among word.now self.now then Some (number_in self.now word.now) else None) }
        ensures within { IfSome result (λ number. number < length self.now) }
    {
        self.words.get_index_of(word)
    }

    /// Declares a name that was not declared before.
    pub(crate) fn declare(&mut self, word: &'a [u8]) -> Result<(), NoMemory>
        requires name { is_name word.now ≡ true }
        requires new { is_among word.now self.old ≡ false }
        ensures declared { OnOk result (self.new ≡ self.old ++ word.now ∷ []) }
        ensures kept { OnErr result (self.new ≡ self.old) }
        ensures one { length self.new ≤ length self.old + 1 }
    {
        self.words.insert(word)?;
        Ok(())
    }

    /// The names, in order.
    pub(crate) fn to_vec(&self, alloc: Global) -> Result<Vec<Name>, NoMemory>
        ensures { IfOk result (λ names. names.items ≡ self.now) }
    {
        let mut names = Vec::with_capacity(alloc, self.words.len())?;
        for word in self.words.as_slice() {
            names.push(Name::new(word).unwrap())?;
        }
        Ok(names)
    }
}
