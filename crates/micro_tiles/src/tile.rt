// Tiles by their numbers.

ghost use Rattle.std.specs.Prelude.{◌≡◌, ◌<◌, ◌↔◌, IsSome, IfSome};
ghost use Rattle.micro_tiles.specs.declared.side.Side.{Side};
ghost use Rattle.micro_tiles.specs.Sides.{mirrored_side};
ghost use Rattle.micro_tiles.specs.Table.{is_transpose, basic_of, design_of, transpose_of, port_at, tile_count};

use crate::design::Design;
use crate::table::{BASIC, BASICS};
use std::marker::Model;

/// How many tiles there are.
pub const TILES: u8 = 55;

/// A tile, by its number in the table.
#[derive(Clone, Copy, Debug, PartialEq, Eq)]
pub struct Tile(u8);

impl Model for Tile {
    ghost use Rattle.std.specs.Prelude.{ℕ, ◌<◌};
    ghost use Rattle.micro_tiles.specs.Table.{tile_count};

    ghost Value = { ℕ };

    ghost view = { λ t. t.0 };

    ghost invariant = { λ t. t.0 < tile_count };

    ghost inverse = { λ n. record { 0 = n } };
}

impl Tile {
    /// The tile of this number, or `None` exactly where there is none.
    pub fn new(number: u8) -> Option<Tile>
        ensures made { IsSome result ↔ (number < tile_count) }
        ensures number { IfSome result (λ tile. tile ≡ number) }
    {
        if number < TILES {
            Some(Tile(number))
        } else {
            None
        }
    }

    /// The basic tile of this number.
    pub(crate) fn numbered(number: u8) -> Tile
        requires { number < 28 }
        ensures { result ≡ number }
    {
        Tile(number)
    }

    /// Its number in the table.
    pub fn number(self) -> u8
        ensures number { result ≡ self }
        ensures known { result < tile_count }
    {
        self.0
    }

    /// Whether it is the transpose of a basic tile.
    pub fn is_transpose(self) -> bool
        ensures { result ≡ is_transpose self }
    {
        self.0 >= BASICS
    }

    /// The number of the basic tile that it is, or is the transpose of.
    fn basic(self) -> u8
        ensures number { result ≡ basic_of self }
        ensures low { result < 28 }
    {
        if self.is_transpose() {
            self.0 - (BASICS - 1)
        } else {
            self.0
        }
    }

    /// The design of the basic tile that it is, or is the transpose of.
    pub fn design(self) -> Design
        ensures { result ≡ design_of self }
    {
        BASIC[usize::from(self.basic())]
    }
}

/// The mirror image of a tile over the diagonal from north-west to south-east: its square (x, y) goes to
/// (13 - y, 13 - x).
pub fn transposed(tile: Tile) -> Tile
    ensures number { result ≡ transpose_of tile }
    ensures known { result < tile_count }
    ensures ports { (side : Side) → port_at result (mirrored_side side) ≡ port_at tile side }
{
    Tile(transposed_number(tile.0))
}

/// The number of the transpose of the tile of this number.
fn transposed_number(number: u8) -> u8
    requires { number < tile_count }
    ensures number { result ≡ transpose_of number }
    ensures low { result < tile_count }
{
    if number == 0 {
        number
    } else if number >= BASICS {
        number - (BASICS - 1)
    } else {
        number + (BASICS - 1)
    }
}
