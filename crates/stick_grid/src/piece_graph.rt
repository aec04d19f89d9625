// The nets of a grid's tiles as the nodes of a graph.

ghost use Rattle.std.specs.Prelude.{◌≡◌, ◌<◌, ◌*◌, ◌^◌, IfSome, Some, true, length, slice_get};
ghost use Rattle.stick_grid.specs.PieceGraph.{place_of, tile_in, number_of, leads, is_node, beyond, link_over, links};

use crate::grid::Grid;
use crate::place::{Place, place_of};
use geom::Layer;
use micro_tiles::{Side, Tile, local_net};
use nmos_model::Graph;
use std::marker::Model;

/// How many numbers each tile has. Its nets are numbered from 0 to 3.
const NETS: u32 = 4;

/// A layer at a side of a tile.
#[derive(Clone, Copy, Debug, PartialEq, Eq)]
pub(crate) struct Exit(pub Side, pub Layer);

/// The layers that may lead over each side.
const EXITS: [Exit; 12] = [
    Exit(Side::North, Layer::Metal),
    Exit(Side::North, Layer::Poly),
    Exit(Side::North, Layer::Diffusion),
    Exit(Side::East, Layer::Metal),
    Exit(Side::East, Layer::Poly),
    Exit(Side::East, Layer::Diffusion),
    Exit(Side::South, Layer::Metal),
    Exit(Side::South, Layer::Poly),
    Exit(Side::South, Layer::Diffusion),
    Exit(Side::West, Layer::Metal),
    Exit(Side::West, Layer::Poly),
    Exit(Side::West, Layer::Diffusion),
];

/// The nets of the tiles of a grid: four numbers for each tile, row by row from the north, which are nodes where the tile has
/// the net. They are linked where they meet at the common side of neighbours.
#[derive(Drop)]
pub(crate) struct Pieces<'a> {
    grid: &'a Grid,
}

impl<'a> Model for Pieces<'a> {
    ghost use Rattle.std.specs.Prelude.{◌<◌, ◌*◌, ◌^◌};
    ghost use Rattle.stick_grid.specs.Tilings.{Tiling};

    ghost Value = { Tiling };

    ghost view = { λ p. p.grid.now };

    ghost invariant = { λ p. 4 * (p.grid.now.rows * p.grid.now.cols) < 2 ^ 32 };
}

impl<'a> Pieces<'a> {
    /// The nets of the tiles of the grid.
    pub(crate) fn new(grid: &'a Grid) -> Pieces<'a>
        requires { 4 * (grid.now.rows * grid.now.cols) < 2 ^ 32 }
        ensures { result ≡ grid.now }
    {
        Pieces { grid }
    }

    /// How many rows and columns of tiles there are.
    pub(crate) fn extent(&self) -> (u32, u32)
        ensures { result ≡ (self.now.rows, self.now.cols) }
    {
        (self.grid.rows(), self.grid.cols())
    }

    /// Where the tile of the number lies.
    fn place(&self, number: u32) -> Place
        requires { number < 4 * (self.now.rows * self.now.cols) }
        ensures place { result ≡ place_of self.now number }
        ensures is_row { result.row < self.now.rows }
        ensures is_col { result.col < self.now.cols }
    {
        place_of((number / NETS) as usize, self.grid.cols())
    }

    /// The tile in the place.
    pub(crate) fn tile(&self, place: Place) -> Tile
        requires is_row { place.row < self.now.rows }
        requires is_col { place.col < self.now.cols }
        ensures { result ≡ tile_in self.now place }
    {
        self.grid.tile_at(place.row, place.col)
    }

    /// The number of a net of the tile in the place.
    pub(crate) fn number(&self, place: Place, net: u8) -> u32
        requires is_row { place.row < self.now.rows }
        requires is_col { place.col < self.now.cols }
        requires few { net < 4 }
        ensures number { result ≡ number_of self.now place net }
        ensures within { result < 4 * (self.now.rows * self.now.cols) }
    {
        NETS * (place.row * self.grid.cols() + place.col) + u32::from(net)
    }

    /// The place beyond the side, if the grid has it.
    fn beyond(&self, place: Place, side: Side) -> Option<Place>
        requires is_row { place.row < self.now.rows }
        requires is_col { place.col < self.now.cols }
        ensures place { result ≡ beyond self.now place side }
        ensures is_row { IfSome result (λ there. there.row < self.now.rows) }
        ensures is_col { IfSome result (λ there. there.col < self.now.cols) }
    {
        let Place { row, col } = place;
        match side {
            Side::North if row > 0 => Some(Place { row: row - 1, col }),
            Side::East if col + 1 < self.grid.cols() => Some(Place { row, col: col + 1 }),
            Side::South if row + 1 < self.grid.rows() => Some(Place { row: row + 1, col }),
            Side::West if col > 0 => Some(Place { row, col: col - 1 }),
            _ => None,
        }
    }

    /// Whether the net of the number leads over the side in the layer.
    fn leads(&self, number: u32, exit: Exit) -> bool
        requires { number < 4 * (self.now.rows * self.now.cols) }
        ensures { result ≡ leads self.now number exit }
    {
        let Exit(side, layer) = exit;
        local_net(self.tile(self.place(number)), side, layer) == Some((number % NETS) as u8)
    }

    /// The number of the net beyond the side, where the net of the number leads over it.
    fn link_over(&self, number: u32, exit: Exit) -> Option<u32>
        requires { number < 4 * (self.now.rows * self.now.cols) }
        ensures { result ≡ link_over self.now number exit }
    {
        if !self.leads(number, exit) {
            return None;
        }
        let Exit(side, layer) = exit;
        let beyond = self.beyond(self.place(number), side)?;
        let net = local_net(self.tile(beyond), side.opposite(), layer)?;
        Some(self.number(beyond, net))
    }
}

impl Graph for Pieces<'_> {
    ghost size = { λ t. 4 * (t.rows * t.cols) };

    ghost is_node = { is_node };

    ghost links = { links };

    fn size(&self) -> u32
        ensures { result ≡ 4 * (self.now.rows * self.now.cols) }
    {
        NETS * self.grid.size() as u32
    }

    fn is_node(&self, number: u32) -> bool
        requires { number < 4 * (self.now.rows * self.now.cols) }
        ensures { result ≡ is_node self.now number }
    {
        EXITS.iter().any(|exit| self.leads(number, *exit))
    }

    fn link_count(&self, node: u32) -> u32
        requires within { node < 4 * (self.now.rows * self.now.cols) }
        requires node { is_node self.now node ≡ true }
        ensures { result ≡ length (links self.now node) }
    {
        EXITS.len() as u32
    }

    fn link(&self, node: u32, at: u32) -> Option<u32>
        requires within { node < 4 * (self.now.rows * self.now.cols) }
        requires node { is_node self.now node ≡ true }
        requires link { at < length (links self.now node) }
        ensures { Some result ≡ slice_get (links self.now node) at }
    {
        self.link_over(node, EXITS[at as usize])
    }
}
