// What the sides of tiles carry.

ghost use Rattle.std.specs.Prelude.{◌≡◌};
ghost use Rattle.micro_tiles.specs.Designs.{arm_at, led, port_of, pass_layer, load_layer};
ghost use Rattle.micro_tiles.specs.Table.{port_at};

use crate::design::{Arms, Design};
use crate::side::{Port, Side};
use crate::tile::Tile;
use geom::Layer;

/// What the side of the tile carries.
pub fn port(tile: Tile, side: Side) -> Port
    ensures { result ≡ port_at tile side }
{
    if tile.is_transpose() {
        design_port(tile.design(), side.mirrored())
    } else {
        design_port(tile.design(), side)
    }
}

/// What the side of the design carries.
fn design_port(design: Design, side: Side) -> Port
    ensures { result ≡ port_of design side }
{
    let (metal, other) = match design {
        Design::Empty => (false, None),
        Design::Metal(arms) => (arm(arms, side), None),
        Design::Poly(arms) => (false, along(Layer::Poly, arms, side)),
        Design::Crossing(metal, arms) => (arm(metal, side), along(Layer::Poly, arms, side)),
        Design::Contact(metal, layer, arms) => (arm(metal, side), along(layer, arms, side)),
        Design::Pass => (false, pass_at(side)),
        Design::Load => (false, load_at(side)),
    };
    Port { metal, other }
}

/// Whether an arm leads to the side.
fn arm(arms: Arms, side: Side) -> bool
    ensures { result ≡ arm_at arms side }
{
    match side {
        Side::North => arms.north,
        Side::East => arms.east,
        Side::South => arms.south,
        Side::West => arms.west,
    }
}

/// The layer, where an arm of it leads to the side.
fn along(layer: Layer, arms: Arms, side: Side) -> Option<Layer>
    ensures { result ≡ led layer arms side }
{
    if arm(arms, side) { Some(layer) } else { None }
}

/// What a pass transistor has at the side.
fn pass_at(side: Side) -> Option<Layer>
    ensures { result ≡ pass_layer side }
{
    match side {
        Side::North | Side::South => Some(Layer::Diffusion),
        Side::East => None,
        Side::West => Some(Layer::Poly),
    }
}

/// What a load has at the side.
fn load_at(side: Side) -> Option<Layer>
    ensures { result ≡ load_layer side }
{
    match side {
        Side::North | Side::South => Some(Layer::Diffusion),
        Side::East => Some(Layer::Poly),
        Side::West => None,
    }
}
