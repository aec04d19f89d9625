// What tiles are made of.

use geom::Layer;

/// The sides to which the wires of a layer lead from the middle of a tile.
#[derive(Clone, Copy, Debug, PartialEq, Eq)]
pub struct Arms {
    pub north: bool,
    pub east: bool,
    pub south: bool,
    pub west: bool,
}

/// What a tile is made of. Wires lead from the middle of the tile to its sides.
#[derive(Clone, Copy, Debug, PartialEq, Eq)]
pub enum Design {
    /// Nothing.
    Empty,
    /// Wires of metal.
    Metal(Arms),
    /// Wires of poly.
    Poly(Arms),
    /// Wires of metal that cross wires of poly, and do not meet them.
    Crossing(Arms, Arms),
    /// Wires of metal that meet wires of another layer under a cut.
    Contact(Arms, Layer, Arms),
    /// A pull-down or pass transistor, 2 lambda long and 4 lambda wide: diffusion from north to south, under poly
    /// from the west.
    Pass,
    /// A depletion load, 8 lambda long and 2 lambda wide: diffusion from north to south, under poly that leads east.
    Load,
}
