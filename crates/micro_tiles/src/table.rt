// The basic tiles, by their numbers.

use crate::design::{Arms, Design};
use geom::Layer;

/// No wires.
pub const NO_ARMS: Arms = Arms {
    north: false,
    east: false,
    south: false,
    west: false,
};

const NORTH: Arms = Arms {
    north: true,
    east: false,
    south: false,
    west: false,
};

const EAST: Arms = Arms {
    north: false,
    east: true,
    south: false,
    west: false,
};

const SOUTH: Arms = Arms {
    north: false,
    east: false,
    south: true,
    west: false,
};

const WEST: Arms = Arms {
    north: false,
    east: false,
    south: false,
    west: true,
};

const NORTH_SOUTH: Arms = Arms {
    north: true,
    east: false,
    south: true,
    west: false,
};

const EAST_WEST: Arms = Arms {
    north: false,
    east: true,
    south: false,
    west: true,
};

const NORTH_EAST_SOUTH: Arms = Arms {
    north: true,
    east: true,
    south: true,
    west: false,
};

const SOUTH_WEST: Arms = Arms {
    north: false,
    east: false,
    south: true,
    west: true,
};

/// How many tiles are basic. The others are the transposes of the basic tiles from number 1 on, in their order.
pub const BASICS: u8 = 28;

/// The basic tiles. Their metal lies east and west, their poly and their diffusion north and south, but for the
/// branches and corners that lead to gates.
pub const BASIC: [Design; 28] = [
    Design::Empty,
    // From 1: a metal row and its ends.
    Design::Metal(EAST_WEST),
    Design::Metal(EAST),
    Design::Metal(WEST),
    // From 4: a poly column and its ends, its branch to a gate, and the corner at the gate of a load.
    Design::Poly(NORTH_SOUTH),
    Design::Poly(NORTH),
    Design::Poly(SOUTH),
    Design::Poly(NORTH_EAST_SOUTH),
    Design::Poly(SOUTH_WEST),
    // 9: a metal row crosses a poly column.
    Design::Crossing(EAST_WEST, NORTH_SOUTH),
    // From 10: a metal row meets a poly column.
    Design::Contact(EAST_WEST, Layer::Poly, NORTH_SOUTH),
    Design::Contact(EAST_WEST, Layer::Poly, NORTH),
    Design::Contact(EAST_WEST, Layer::Poly, SOUTH),
    Design::Contact(EAST, Layer::Poly, NORTH_SOUTH),
    Design::Contact(EAST, Layer::Poly, NORTH),
    Design::Contact(EAST, Layer::Poly, SOUTH),
    Design::Contact(WEST, Layer::Poly, NORTH_SOUTH),
    Design::Contact(WEST, Layer::Poly, NORTH),
    Design::Contact(WEST, Layer::Poly, SOUTH),
    // 19: a metal row goes on in poly.
    Design::Contact(WEST, Layer::Poly, EAST),
    // From 20: a metal row meets a transistor.
    Design::Contact(EAST_WEST, Layer::Diffusion, NORTH),
    Design::Contact(EAST_WEST, Layer::Diffusion, SOUTH),
    Design::Contact(EAST, Layer::Diffusion, NORTH),
    Design::Contact(EAST, Layer::Diffusion, SOUTH),
    Design::Contact(WEST, Layer::Diffusion, NORTH),
    Design::Contact(WEST, Layer::Diffusion, SOUTH),
    // 26 and 27: the transistors.
    Design::Pass,
    Design::Load,
];
