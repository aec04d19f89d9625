// The transistors of tiles.

ghost use Rattle.std.specs.Prelude.{◌≡◌};
ghost use Rattle.micro_tiles.specs.Regions.{channel_of};
ghost use Rattle.micro_tiles.specs.Table.{transistor_at};

use crate::design::Design;
use crate::tile::Tile;
use geom::{Box2, Layer};

/// How a transistor works.
#[derive(Clone, Copy, Debug, PartialEq, Eq)]
pub enum Mode {
    /// It conducts while its gate is high.
    Enhancement,
    /// It always conducts.
    Depletion,
}

/// The transistor of a tile, with the numbers of its gate and its two terminals among the tile's nets.
#[derive(Clone, Copy, Debug, PartialEq, Eq)]
pub struct Transistor {
    pub mode: Mode,
    pub gate: u8,
    pub first: u8,
    pub second: u8,
}

/// The transistor of the tile, if it has one.
pub fn transistor_in(tile: Tile) -> Option<Transistor>
    ensures { result ≡ transistor_at tile }
{
    let mode = match tile.design() {
        Design::Pass => Mode::Enhancement,
        Design::Load => Mode::Depletion,
        _ => return None,
    };
    Some(Transistor {
        mode,
        gate: 1,
        first: 2,
        second: 3,
    })
}

/// The squares of the channel of the tile's transistor, if it has one: a box of diffusion, in lambda from the tile's lower
/// left corner.
pub fn channel_in(tile: Tile) -> Option<Box2>
    ensures { result ≡ channel_of tile }
{
    match (transistor_in(tile)?.mode, tile.is_transpose()) {
        (Mode::Enhancement, false) => Box2::new(Layer::Diffusion, 5, 6, 9, 8),
        (Mode::Enhancement, true) => Box2::new(Layer::Diffusion, 6, 5, 8, 9),
        (Mode::Depletion, false) => Box2::new(Layer::Diffusion, 6, 3, 8, 11),
        (Mode::Depletion, true) => Box2::new(Layer::Diffusion, 3, 6, 11, 8),
    }
}
