// Specifications as tables.

ghost use Rattle.std.specs.Prelude.{◌≡◌};
ghost use Rattle.rx_lang.specs.Tables.{IsSpecification};

use crate::expr_node::ExprNode;
use crate::symbol::Symbol;
use rx_text::Name;
use std::marker::Model;

/// A specification: its lines, symbols and outputs in order of declaration, the nodes of all expressions in one table,
/// and the root node of each `expr` and of each `scan` statement. A child stands before its parent in the table of nodes.
#[derive(Drop)]
pub struct Spec {
    lines: Vec<Name>,
    symbols: Vec<Symbol>,
    outputs: Vec<Name>,
    nodes: Vec<ExprNode>,
    exprs: Vec<u32>,
    scans: Vec<u32>,
}

impl Model for Spec {
    ghost use Rattle.rx_lang.specs.Tables.{Tables, IsSpecification};

    ghost Value = { Tables };

    ghost view = { λ s. record {
      lines = s.lines.items;
      symbols = s.symbols.items;
      outputs = s.outputs.items;
      nodes = s.nodes.items;
      exprs = s.exprs.items;
      scans = s.scans.items;
    } };

    ghost invariant = { λ s. IsSpecification (record {
      lines = s.lines.items;
      symbols = s.symbols.items;
      outputs = s.outputs.items;
      nodes = s.nodes.items;
      exprs = s.exprs.items;
      scans = s.scans.items;
    }) };
}

impl Spec {
    /// The specification with these tables.
    pub fn new(
        lines: Vec<Name>,
        symbols: Vec<Symbol>,
        outputs: Vec<Name>,
        nodes: Vec<ExprNode>,
        exprs: Vec<u32>,
        scans: Vec<u32>,
    ) -> Spec
        requires { IsSpecification (record {
          lines = lines.items;
          symbols = symbols.items;
          outputs = outputs.items;
          nodes = nodes.items;
          exprs = exprs.items;
          scans = scans.items;
        }) }
        ensures { result ≡ record {
          lines = lines.items;
          symbols = symbols.items;
          outputs = outputs.items;
          nodes = nodes.items;
          exprs = exprs.items;
          scans = scans.items;
        } }
    {
        Self {
            lines,
            symbols,
            outputs,
            nodes,
            exprs,
            scans,
        }
    }

    /// The names of the input lines, 1 to 16 in number.
    pub fn lines(&self) -> &[Name]
        ensures lines { result.now ≡ self.now.lines }
        ensures specification { IsSpecification self.now }
    {
        &self.lines
    }

    /// The symbols, 1 to 32 in number.
    pub fn symbols(&self) -> &[Symbol]
        ensures symbols { result.now ≡ self.now.symbols }
        ensures specification { IsSpecification self.now }
    {
        &self.symbols
    }

    /// The names of the outputs, 1 to 16 in number.
    pub fn outputs(&self) -> &[Name]
        ensures outputs { result.now ≡ self.now.outputs }
        ensures specification { IsSpecification self.now }
    {
        &self.outputs
    }

    /// The nodes of all expressions, each behind its children.
    pub fn nodes(&self) -> &[ExprNode]
        ensures nodes { result.now ≡ self.now.nodes }
        ensures specification { IsSpecification self.now }
    {
        &self.nodes
    }

    /// The root node of each `expr` statement. There is one, or a `scan` statement.
    pub fn exprs(&self) -> &[u32]
        ensures roots { result.now ≡ self.now.exprs }
        ensures specification { IsSpecification self.now }
    {
        &self.exprs
    }
    /// The root node of each `scan` statement.
    pub fn scans(&self) -> &[u32]
        ensures roots { result.now ≡ self.now.scans }
        ensures specification { IsSpecification self.now }
    {
        &self.scans
    }
}
