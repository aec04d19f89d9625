// Nodes of expressions, built token by token with a stack of open groups.

ghost use Rattle.std.specs.Prelude.{◌≡◌, ◌<◌, ◌^◌, true, length, OnOk};
ghost use Rattle.rx_syntax.specs.Uses.{is_among};
ghost use Rattle.rx_syntax.specs.Accepted.{number_in};
ghost use Rattle.rx_syntax.specs.NameTables.{names_of};
ghost use Rattle.rx_syntax.specs.NodeBuilder.{AreDigits, IsKnown, IsKnownPiece, NodesRead, capped, closed_in, no_nodes, piece_on, token_on, with_bar, with_group, with_keyword, with_leaf, with_least, with_most, with_name, with_sign, with_statement};

use crate::bounds::bound_of;
use crate::declarations::Declarations;
use crate::group::Group;
use crate::kind::Kind;
use crate::machine::Due;
use crate::node_table::{NodeTable, Sign};
use rx_lang::ExprNode;
use rx_text::NoMemory;
use std::alloc::Global;
use std::marker::Model;

/// The nodes so far, the roots of the `expr` and `scan` statements that have ended, whether the last statement scans, the
/// last least and most number of a counted repeat, the group that is open, and those round it, the innermost last.
#[derive(Drop)]
pub(crate) struct NodeBuilder {
    table: NodeTable,
    exprs: Vec<u32>,
    scans: Vec<u32>,
    is_scan: bool,
    least: u8,
    most: u8,
    group: Group,
    outer: Vec<Group>,
}

impl Model for NodeBuilder {
    ghost use Rattle.std.specs.Prelude.{reverse};
    ghost use Rattle.rx_syntax.specs.NodeBuilder.{NodesRead};

    ghost Value = { NodesRead };

    ghost view = { λ b. record {
      nodes = b.table;
      exprs = b.exprs.items;
      scans = b.scans.items;
      is_scan = b.is_scan;
      least = b.least;
      most = b.most;
      group = b.group;
      outer = reverse b.outer.items;
    } };
}

impl NodeBuilder {
    pub(crate) fn new(alloc: Global) -> NodeBuilder
        ensures { result ≡ no_nodes }
    {
        NodeBuilder {
            table: NodeTable::new(alloc),
            exprs: Vec::new(alloc),
            scans: Vec::new(alloc),
            is_scan: false,
            least: 0,
            most: 0,
            group: Group::empty(),
            outer: Vec::new(alloc),
        }
    }

    /// The symbol with this number is a further part.
    pub(crate) fn add_leaf(&mut self, symbol: u8) -> Result<(), NoMemory>
        ensures { OnOk result (self.new ≡ with_leaf symbol self.old) }
    {
        let chain = self.group.chain(&mut self.table)?;
        let leaf = self.table.add(ExprNode::Leaf(symbol))?;
        self.group.sequence_before = chain;
        self.group.last = Some(leaf);
        Ok(())
    }

    /// A parenthesis or bracket opens.
    pub(crate) fn open_group(&mut self) -> Result<(), NoMemory>
        ensures { OnOk result (self.new ≡ with_group self.old) }
    {
        self.outer.push(self.group)?;
        self.group = Group::empty();
        Ok(())
    }

    /// A parenthesis or bracket closes: the group is a further part of the one round it.
    pub(crate) fn close_group(&mut self) -> Result<(), NoMemory>
        ensures { OnOk result (self.new ≡ closed_in self.old.outer self.old) }
    {
        if let Some(outer) = self.outer.pop() {
            let part = self.group.whole(&mut self.table)?;
            let chain = outer.chain(&mut self.table)?;
            self.group = Group {
                union_before: outer.union_before,
                sequence_before: chain,
                last: part,
            };
        }
        Ok(())
    }

    /// The last part has a postfix sign.
    pub(crate) fn add_sign(&mut self, sign: Sign) -> Result<(), NoMemory>
        ensures { OnOk result (self.new ≡ with_sign sign self.old) }
    {
        self.group.last = self.table.sign(sign, self.group.last)?;
        Ok(())
    }

    /// A bar stands behind the group so far.
    pub(crate) fn add_bar(&mut self) -> Result<(), NoMemory>
        ensures { OnOk result (self.new ≡ with_bar self.old) }
    {
        let union = self.group.whole(&mut self.table)?;
        self.group = Group {
            union_before: union,
            sequence_before: None,
            last: None,
        };
        Ok(())
    }

    /// The symbol with this number is a further name of a class.
    pub(crate) fn add_name(&mut self, symbol: u8) -> Result<(), NoMemory>
        ensures { OnOk result (self.new ≡ with_name symbol self.old) }
    {
        self.add_bar()?;
        self.add_leaf(symbol)
    }

    /// A statement ends.
    pub(crate) fn end_statement(&mut self) -> Result<(), NoMemory>
        ensures { OnOk result (self.new ≡ with_statement self.old) }
    {
        let root = self.group.whole(&mut self.table)?;
        if let Some(root) = root {
            if self.is_scan {
                self.scans.push(root)?;
            } else {
                self.exprs.push(root)?;
            }
        }
        self.group = Group::empty();
        Ok(())
    }

    // Reads a token of this kind with these bytes, before which this was due.
    fn read_token(
        &mut self,
        declarations: &Declarations<'_>,
        due: Due,
        kind: Kind,
        word: &[u8],
    ) -> Result<(), NoMemory>
        requires { IsKnown declarations.now due kind word.now }
        ensures { OnOk result (self.new ≡ token_on declarations.now due kind word.now self.old) }
    {
        match (due, kind) {
            (Due::NextOutput | Due::NextExpr, Kind::Expr) => self.is_scan = false,
            (Due::NextOutput | Due::NextExpr, Kind::Scan) => self.is_scan = true,
            (Due::Part | Due::Rest | Due::ClassName, Kind::Name) => {
                self.add_leaf(symbol(declarations, word))?
            }
            (Due::ClassNames, Kind::Name) => self.add_name(symbol(declarations, word))?,
            (Due::Part | Due::Rest, Kind::Open | Kind::OpenBracket) => self.open_group()?,
            (Due::Rest, Kind::Close) | (Due::ClassNames, Kind::CloseBracket) => self.close_group()?,
            (Due::Rest, Kind::Bar) => self.add_bar()?,
            (Due::Rest, Kind::Star) => self.add_sign(Sign::Star)?,
            (Due::Rest, Kind::Plus) => self.add_sign(Sign::Plus)?,
            (Due::Rest, Kind::Question) => self.add_sign(Sign::Optional)?,
            (Due::MarkName, Kind::Name) => self.add_sign(Sign::Marked(output(declarations, word)))?,
            (Due::Least, Kind::Bits | Kind::Number) => self.least = capped(word),
            (Due::Most, Kind::Bits | Kind::Number) => self.most = capped(word),
            (Due::BoundsEnd, Kind::CloseBrace) => {
                self.add_sign(Sign::Counted(self.least, self.most))?
            }
            (Due::Rest, Kind::Semicolon) => self.end_statement()?,
            _ => {}
        }
        Ok(())
    }

    /// Reads a piece of the text with these bytes, before which this was due.
    pub(crate) fn read_piece(
        &mut self,
        declarations: &Declarations<'_>,
        due: Due,
        kind: Option<Kind>,
        word: &[u8],
    ) -> Result<(), NoMemory>
        requires { IsKnownPiece declarations.now due kind word.now }
        ensures { OnOk result (self.new ≡ piece_on declarations.now due kind word.now self.old) }
    {
        match kind {
            None => Ok(()),
            Some(kind) => self.read_token(declarations, due, kind, word),
        }
    }

    /// The nodes, and the roots of the `expr` and `scan` statements.
    pub(crate) fn into_parts(self) -> (Vec<ExprNode>, Vec<u32>, Vec<u32>)
        ensures nodes { result.0.items ≡ self.nodes }
        ensures exprs { result.1.items ≡ self.exprs }
        ensures scans { result.2.items ≡ self.scans }
        ensures few { length result.0.items < 2 ^ 32 }
    {
        (self.table.into_nodes(), self.exprs, self.scans)
    }
}

// The number that these digits write, or 255 where that is less.
fn capped(digits: &[u8]) -> u8
    requires { AreDigits digits.now }
    ensures { result ≡ capped digits.now }
{
    bound_of(digits).unwrap_or(255)
}

// The number of a declared symbol.
fn symbol(declarations: &Declarations<'_>, word: &[u8]) -> u8
    requires { is_among word.now (names_of declarations.now.symbols) ≡ true }
    ensures { result ≡ number_in (names_of declarations.now.symbols) word.now }
{
    match declarations.symbol(word) {
        Some(number) => number,
        None => unreachable!(),
    }
}

// The number of a declared output.
fn output(declarations: &Declarations<'_>, word: &[u8]) -> u8
    requires { is_among word.now declarations.now.outputs ≡ true }
    ensures { result ≡ number_in declarations.now.outputs word.now }
{
    match declarations.output(word) {
        Some(number) => number,
        None => unreachable!(),
    }
}
