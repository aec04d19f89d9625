// The sides of tiles, and what they carry.

ghost use Rattle.std.specs.Prelude.{◌≡◌, ◌↔◌, IsTrue};
ghost use Rattle.micro_tiles.specs.Sides.{Carries, mirrored_side, opposite};

use geom::Layer;

/// A side of a tile.
#[derive(Clone, Copy, Debug, PartialEq, Eq)]
pub enum Side {
    North,
    East,
    South,
    West,
}

impl Side {
    /// Where the mirror over the diagonal from north-west to south-east takes it: north and west change places, and
    /// so do south and east.
    pub fn mirrored(self) -> Side
        ensures { result ≡ mirrored_side self }
    {
        match self {
            Side::North => Side::West,
            Side::East => Side::South,
            Side::South => Side::East,
            Side::West => Side::North,
        }
    }

    /// The side at the other end of a straight wire.
    pub fn opposite(self) -> Side
        ensures { result ≡ opposite self }
    {
        match self {
            Side::North => Side::South,
            Side::East => Side::West,
            Side::South => Side::North,
            Side::West => Side::East,
        }
    }
}

/// What a side of a tile carries: metal or none, and at most one of poly and diffusion.
#[derive(Clone, Copy, Debug, PartialEq, Eq)]
pub struct Port {
    pub metal: bool,
    pub other: Option<Layer>,
}

impl Port {
    /// Whether it carries the layer.
    pub fn carries(&self, layer: Layer) -> bool
        ensures { IsTrue result ↔ Carries self.now layer }
    {
        match layer {
            Layer::Metal => self.metal,
            _ => self.other == Some(layer),
        }
    }
}
