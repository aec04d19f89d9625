// What a specification declares.

ghost use Rattle.std.specs.Prelude.{◌≡◌, ◌<◌, ◌++◌, ◌∷◌, [], true, false, length, IfSome, IfOk, OnOk, None, Some, if◌then◌else◌};
ghost use Rattle.rx_lang.specs.Specification.{NamedPattern};
ghost use Rattle.rx_text.specs.Name.{is_name};
ghost use Rattle.rx_syntax.specs.Uses.{is_among, is_declared};
ghost use Rattle.rx_syntax.specs.Accepted.{number_in};
ghost use Rattle.rx_syntax.specs.NameTables.{no_tables, names_of, declared_by, with_pattern};

use crate::names::Names;
use rx_lang::{PatternBit, Symbol};
use rx_text::{Name, NoMemory};
use smallvec::SmallVec;
use std::alloc::Global;
use std::marker::Model;

/// The lines, symbols and outputs of a specification in order of declaration.
#[derive(Drop)]
pub(crate) struct Declarations<'a> {
    lines: Names<'a>,
    symbol_names: Names<'a>,
    symbols: Vec<Symbol>,
    outputs: Names<'a>,
}

impl<'a> Model for Declarations<'a> {
    ghost use Rattle.rx_syntax.specs.NameTables.{NameTables, AreIndexed};

    ghost Value = { NameTables };

    ghost view = { λ d. record { lines = d.lines; symbols = d.symbols.items; outputs = d.outputs } };

    ghost invariant = { λ d. AreIndexed d.symbol_names d.outputs d.symbols.items };
}

impl<'a> Declarations<'a> {
    pub(crate) fn new(alloc: Global) -> Declarations<'a>
        ensures { result ≡ no_tables }
    {
        Declarations {
            lines: Names::new(alloc),
            symbol_names: Names::new(alloc),
            symbols: Vec::new(alloc),
            outputs: Names::new(alloc),
        }
    }

    /// The number of the symbol with this name. `None` exactly where there is none.
    pub(crate) fn symbol(&self, word: &[u8]) -> Option<u8>
        ensures number { let names = names_of self.now.symbols in
            result ≡ (if is_among word.now names then Some (number_in names word.now) else None) }
        ensures within { IfSome result (λ number. number < length self.now.symbols) }
    {
        match self.symbol_names.number(word) {
            Some(number) => Some(number as u8),
            None => None,
        }
    }

    /// The number of the output with this name. `None` exactly where there is none.
    pub(crate) fn output(&self, word: &[u8]) -> Option<u8>
        ensures number { let names = self.now.outputs in
            result ≡ (if is_among word.now names then Some (number_in names word.now) else None) }
        ensures within { IfSome result (λ number. number < length self.now.outputs) }
    {
        match self.outputs.number(word) {
            Some(number) => Some(number as u8),
            None => None,
        }
    }

    pub(crate) fn line_count(&self) -> usize
        ensures { result ≡ length self.now.lines }
    {
        self.lines.len()
    }

    pub(crate) fn symbol_count(&self) -> usize
        ensures { result ≡ length self.now.symbols }
    {
        self.symbols.len()
    }

    pub(crate) fn output_count(&self) -> usize
        ensures { result ≡ length self.now.outputs }
    {
        self.outputs.len()
    }

    /// Whether the name is that of a line, symbol or output.
    pub(crate) fn declares(&self, word: &[u8]) -> bool
        ensures { result ≡ is_declared word.now (declared_by self.now 0) }
    {
        self.lines.contains(word) || self.symbol_names.contains(word) || self.outputs.contains(word)
    }

    /// One more line.
    pub(crate) fn add_line(&mut self, word: &'a [u8]) -> Result<(), NoMemory>
        requires name { is_name word.now ≡ true }
        requires new { is_declared word.now (declared_by self.old 0) ≡ false }
        ensures { OnOk result (self.new ≡ record self.old { lines = self.old.lines ++ word.now ∷ [] }) }
    {
        self.lines.declare(word)
    }

    /// One more symbol, whose pattern is still to come.
    pub(crate) fn add_symbol(&mut self, alloc: Global, word: &'a [u8]) -> Result<(), NoMemory>
        requires name { is_name word.now ≡ true }
        requires new { is_declared word.now (declared_by self.old 0) ≡ false }
        requires room { length self.old.symbols < 32 }
        ensures { OnOk result (self.new ≡ record self.old { symbols = self.old.symbols ++ record { name = word.now; pattern = [] } ∷ [] }) }
    {
        let symbol = Symbol {
            name: Name::new(word).unwrap(),
            pattern: SmallVec::new(alloc),
        };
        self.symbols.reserve(1)?;
        self.symbol_names.declare(word)?;
        self.symbols.push(symbol).unwrap();
        Ok(())
    }

    /// The pattern of the last symbol.
    pub(crate) fn set_pattern(&mut self, pattern: SmallVec<PatternBit, 16>)
        ensures { self.new ≡ record self.old { symbols = with_pattern pattern.items self.old.symbols } }
    {
        set_last_pattern(&mut self.symbols, pattern);
    }

    /// One more output.
    pub(crate) fn add_output(&mut self, word: &'a [u8]) -> Result<(), NoMemory>
        requires name { is_name word.now ≡ true }
        requires new { is_declared word.now (declared_by self.old 0) ≡ false }
        requires room { length self.old.outputs < 16 }
        ensures { OnOk result (self.new ≡ record self.old { outputs = self.old.outputs ++ word.now ∷ [] }) }
    {
        self.outputs.declare(word)
    }

    /// The names of the lines.
    pub(crate) fn lines(&self, alloc: Global) -> Result<Vec<Name>, NoMemory>
        ensures { IfOk result (λ names. names.items ≡ self.now.lines) }
    {
        self.lines.to_vec(alloc)
    }

    /// The names of the outputs.
    pub(crate) fn outputs(&self, alloc: Global) -> Result<Vec<Name>, NoMemory>
        ensures { IfOk result (λ names. names.items ≡ self.now.outputs) }
    {
        self.outputs.to_vec(alloc)
    }

    /// The symbols.
    pub(crate) fn into_symbols(self) -> Vec<Symbol>
        ensures { result.items ≡ self.entry.symbols }
    {
        self.symbols
    }
}

fn set_last_pattern(symbols: &mut Vec<Symbol>, pattern: SmallVec<PatternBit, 16>)
    ensures { symbols.new.items ≡ with_pattern pattern.items symbols.old.items }
{
    if let Some(symbol) = symbols.last_mut() {
        symbol.pattern = pattern;
    }
}
