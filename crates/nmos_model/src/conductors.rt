// The conducting squares of a raster as the nodes of a graph.

ghost use Rattle.std.specs.Prelude.{◌≡◌, ◌<◌, ◌≤◌, ◌+◌, ◌*◌, ◌^◌, ◌/◌, Some, true, length, slice_get};
ghost use Rattle.nmos_model.specs.Rasters.{cover_at};
ghost use Rattle.nmos_model.specs.Conductors.{Squares, conducts, is_node, layer_of, link_to, link_under, links, other_layer};

use crate::classes::Graph;
use crate::raster::Cover;
use geom::Layer;
use std::marker::Model;

/// The layers that conduct.
const LAYERS: u32 = 3;

/// How many links each node has: to its four sides, and to the two other layers.
const LINKS: u32 = 6;

/// Squares by rows from the lowest: for each square its metal, its poly and its diffusion are numbers, and nodes where they
/// conduct.
#[derive(Drop)]
pub(crate) struct Conductors {
    width: u32,
    squares: Vec<Cover>,
}

impl Model for Conductors {
    ghost use Rattle.std.specs.Prelude.{◌≤◌, ◌<◌, ◌+◌, ◌*◌, ◌^◌, length};
    ghost use Rattle.nmos_model.specs.Conductors.{Squares};

    ghost Value = { Squares };

    ghost view = { λ c. record { width = c.width; covers = c.squares.items } };

    ghost invariant = { λ c. 3 * (length c.squares.items + c.width + 1) < 2 ^ 32 };
}

impl Conductors {
    /// The squares in rows of this width.
    pub(crate) fn new(width: u32, squares: Vec<Cover>) -> Conductors
        requires { 3 * (length squares.items + width + 1) < 2 ^ 32 }
        ensures { result ≡ record { width = width; covers = squares.items } }
    {
        Conductors { width, squares }
    }

    /// What covers the square of the number.
    fn cover(&self, number: u32) -> Cover
        requires { number < 3 * length self.now.covers }
        ensures { result ≡ cover_at self.now.covers (number / 3) }
    {
        self.squares[(number / LAYERS) as usize]
    }

    /// A link to the number, where it is a node's.
    fn link_to(&self, number: u32) -> Option<u32>
        ensures { result ≡ link_to self.now number }
    {
        if number < self.size() && self.is_node(number) {
            Some(number)
        } else {
            None
        }
    }

    /// A link to another layer of the same square, where it lies under a cut.
    fn link_under(&self, number: u32, by: u32) -> Option<u32>
        requires within { number < 3 * length self.now.covers }
        requires small { number + 3 < 2 ^ 32 }
        requires near { by < 3 }
        ensures { result ≡ link_under self.now number by }
    {
        if self.cover(number).cut {
            self.link_to(other_layer(number, by))
        } else {
            None
        }
    }
}

/// The number of another layer of the same square.
fn other_layer(number: u32, by: u32) -> u32
    requires near { by < 3 }
    requires small { number + 3 < 2 ^ 32 }
    ensures { result ≡ other_layer number by }
{
    number - number % LAYERS + (number % LAYERS + by) % LAYERS
}

/// The layer of the number.
fn layer_of(number: u32) -> Layer
    ensures { result ≡ layer_of number }
{
    match number {
        0 => Layer::Metal,
        1 => Layer::Poly,
        _ => Layer::Diffusion,
    }
}

/// The square conducts in the layer.
pub(crate) fn conducts(layer: Layer, cover: Cover) -> bool
    ensures { result ≡ conducts layer cover }
{
    match layer {
        Layer::Metal => cover.metal,
        Layer::Poly => cover.poly,
        Layer::Diffusion => cover.diffusion && !cover.poly,
        Layer::Cut | Layer::Implant => false,
    }
}

impl Graph for Conductors {
    ghost size = { λ c. 3 * length c.covers };

    ghost is_node = { is_node };

    ghost links = { links };

    fn size(&self) -> u32
        ensures { result ≡ 3 * length self.now.covers }
    {
        LAYERS * self.squares.len() as u32
    }

    fn is_node(&self, number: u32) -> bool
        requires { number < 3 * length self.now.covers }
        ensures { result ≡ is_node self.now number }
    {
        conducts(layer_of(number % LAYERS), self.cover(number))
    }

    fn link_count(&self, node: u32) -> u32
        requires within { node < 3 * length self.now.covers }
        requires node { is_node self.now node ≡ true }
        ensures { result ≡ length (links self.now node) }
    {
        LINKS
    }

    fn link(&self, node: u32, at: u32) -> Option<u32>
        requires within { node < 3 * length self.now.covers }
        requires node { is_node self.now node ≡ true }
        requires link { at < length (links self.now node) }
        ensures { Some result ≡ slice_get (links self.now node) at }
    {
        let row = LAYERS * self.width;
        match at {
            0 => self.link_to(node.saturating_sub(LAYERS)),
            1 => self.link_to(node + LAYERS),
            2 => self.link_to(node.saturating_sub(row)),
            3 => self.link_to(node + row),
            4 => self.link_under(node, 1),
            _ => self.link_under(node, 2),
        }
    }
}
