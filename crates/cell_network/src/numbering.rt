// The numbers of a part's nets.

ghost use Rattle.std.specs.Prelude.{◌≡◌};
ghost use Rattle.rx_lang.specs.Tables.{IsSpecification};
ghost use Rattle.star_normal.specs.Tables.{IsTree};
ghost use Rattle.cell_network.specs.Shapes.{number, AreSmall};
ghost use Rattle.cell_network.specs.Parts.{counts_of};
ghost use Rattle.cell_network.specs.Home.{AreFew};

use crate::part_net::PartNet;
use rx_lang::Spec;
use star_normal::Tree;

/// The numbers of the nets of a part, by their names. The wires of symbols, the shared wires, the lines, their complements
/// and the outputs are numbered on from the first of each.
#[derive(Clone, Copy, Debug, Default, PartialEq, Eq)]
pub struct Numbering {
    pub symbols: u32,
    pub shared: u32,
    pub inn: u32,
    pub out: u32,
    pub reset: u32,
    pub vdd: u32,
    pub not_begins: u32,
    pub begins: u32,
    pub not_symbol: u32,
    pub source: u32,
    pub master: u32,
    pub inverse: u32,
    pub stored: u32,
    pub left_out: u32,
    pub right_in: u32,
    pub right_out: u32,
    pub not_right: u32,
    pub not_out: u32,
    pub lines: u32,
    pub complements: u32,
    pub outputs: u32,
}

impl Numbering {
    /// The number of a net.
    pub fn number(&self, net: PartNet) -> u32
        requires { AreSmall self.now }
        ensures { result ≡ number self.now net }
    {
        match net {
            PartNet::Symbol(s) => self.symbols + u32::from(s),
            PartNet::Shared(y) => self.shared + u32::from(y),
            PartNet::In => self.inn,
            PartNet::Out => self.out,
            PartNet::Reset => self.reset,
            PartNet::Vdd => self.vdd,
            PartNet::NotBegins => self.not_begins,
            PartNet::Begins => self.begins,
            PartNet::NotSymbol => self.not_symbol,
            PartNet::Data => self.source,
            PartNet::Master => self.master,
            PartNet::Inverse => self.inverse,
            PartNet::Stored => self.stored,
            PartNet::LeftOut => self.left_out,
            PartNet::RightIn => self.right_in,
            PartNet::RightOut => self.right_out,
            PartNet::NotRight => self.not_right,
            PartNet::NotOut => self.not_out,
            PartNet::Line(i) => self.lines + u32::from(i),
            PartNet::Complement(i) => self.complements + u32::from(i),
            PartNet::Output(y) => self.outputs + u32::from(y),
        }
    }
}

/// How many lines, symbols, outputs and nodes there are.
#[derive(Clone, Copy, Debug, PartialEq, Eq)]
pub struct Counts {
    pub lines: u32,
    pub symbols: u32,
    pub outputs: u32,
    pub nodes: u32,
}

impl Counts {
    /// The numbers of a tree and its specification.
    pub fn of(tree: &Tree, spec: &Spec) -> Counts
        ensures counts { result ≡ counts_of tree.now spec.now }
        ensures few { AreFew result }
        ensures specification { IsSpecification spec.now }
        ensures tree { IsTree tree.now }
    {
        Counts {
            lines: spec.lines().len() as u32,
            symbols: spec.symbols().len() as u32,
            outputs: spec.outputs().len() as u32,
            nodes: tree.nodes().len() as u32,
        }
    }
}
