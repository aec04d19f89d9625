// The planes of a programmable logic array, over the part that feeds them.

ghost use Rattle.std.specs.Prelude.{◌≡◌};
ghost use Rattle.pla_plan.specs.Planes.{plane_rows, right_from};
ghost use Rattle.pla_plan.specs.Fits.{IsArray};

use nor_net::{Gate, Part};
use std::marker::Model;

/// A programmable logic array: terms, which are NORs of left nets, sums, which are NORs of terms, and the part below the planes that
/// feeds them. Net 0 of the part is the high supply, nets 1 to `left` are the left nets, and the net behind them is the ground. The net
/// of term k is the k-th behind those of the part. Net i of the part has its poly in the column `at[i]`. The array has so many rows and
/// columns of tiles.
#[derive(Drop)]
pub struct Planes {
    left: u32,
    terms: Vec<Gate>,
    sums: Vec<Gate>,
    part: Part,
    at: Vec<u32>,
    rows: u32,
    cols: u32,
}

impl Model for Planes {
    ghost use Rattle.pla_plan.specs.Planes.{PlaneTables};
    ghost use Rattle.pla_plan.specs.Fits.{IsArray};

    ghost Value = { PlaneTables };

    ghost view = { λ p. record {
      left = p.left;
      terms = p.terms.items;
      sums = p.sums.items;
      part = p.part;
      at = p.at.items;
      rows = p.rows;
      cols = p.cols;
    } };

    ghost invariant = { λ p. IsArray (record {
      left = p.left;
      terms = p.terms.items;
      sums = p.sums.items;
      part = p.part;
      at = p.at.items;
      rows = p.rows;
      cols = p.cols;
    }) };
}

impl Planes {
    /// The array of these parts, which make one.
    pub fn new(
        left: u32,
        terms: Vec<Gate>,
        sums: Vec<Gate>,
        part: Part,
        at: Vec<u32>,
        rows: u32,
        cols: u32,
    ) -> Planes
        requires { IsArray (record { left = left; terms = terms.items; sums = sums.items; part = part; at = at.items; rows = rows; cols = cols }) }
        ensures { result ≡ record { left = left; terms = terms.items; sums = sums.items; part = part; at = at.items; rows = rows; cols = cols } }
    {
        Planes {
            left,
            terms,
            sums,
            part,
            at,
            rows,
            cols,
        }
    }

    /// The number of left nets.
    pub fn left(&self) -> u32
        ensures number { result ≡ self.now.left }
        ensures array { IsArray self.now }
    {
        self.left
    }

    /// The terms.
    pub fn terms(&self) -> &[Gate]
        ensures gates { result.now ≡ self.now.terms }
        ensures array { IsArray self.now }
    {
        &self.terms
    }

    /// The sums.
    pub fn sums(&self) -> &[Gate]
        ensures gates { result.now ≡ self.now.sums }
        ensures array { IsArray self.now }
    {
        &self.sums
    }

    /// The part below the planes.
    pub fn part(&self) -> &Part
        ensures { result.now ≡ self.now.part }
    {
        &self.part
    }

    /// The columns of the part's nets.
    pub fn at(&self) -> &[u32]
        ensures columns { result.now ≡ self.now.at }
        ensures array { IsArray self.now }
    {
        &self.at
    }

    /// How many rows of tiles it has.
    pub fn rows(&self) -> u32
        ensures number { result ≡ self.now.rows }
        ensures array { IsArray self.now }
    {
        self.rows
    }

    /// How many columns of tiles it has.
    pub fn cols(&self) -> u32
        ensures number { result ≡ self.now.cols }
        ensures array { IsArray self.now }
    {
        self.cols
    }

    /// The first column of the right plane.
    pub(crate) fn right_from(&self) -> u32
        ensures { result ≡ right_from self.now }
    {
        2 * self.left + 7
    }

    /// How many rows the planes have.
    pub(crate) fn plane_rows(&self) -> u32
        ensures number { result ≡ plane_rows self.now }
        ensures array { IsArray self.now }
    {
        5 * self.terms.len() as u32 + 7
    }
}
