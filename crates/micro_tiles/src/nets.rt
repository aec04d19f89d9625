// The nets of tiles, by numbers.

ghost use Rattle.std.specs.Prelude.{◌≡◌, ◌<◌, ◌↔◌, IsSome, IfSome};
ghost use Rattle.micro_tiles.specs.Designs.{side_net};
ghost use Rattle.micro_tiles.specs.Nets.{in_first_half, named_net, square_net};
ghost use Rattle.micro_tiles.specs.Sides.{Carries};
ghost use Rattle.micro_tiles.specs.Table.{is_transpose, design_of, port_at};

use crate::design::Design;
use crate::ports::port;
use crate::side::Side;
use crate::tile::Tile;
use geom::Layer;

/// The number, among the tile's nets, of what the side carries in the layer, or `None` exactly where it carries
/// nothing there. Metal, and all that meets it under a cut, is 0, other poly is 1, and the diffusion at the two ends
/// of a transistor is 2 and 3.
pub fn local_net(tile: Tile, side: Side, layer: Layer) -> Option<u8>
    ensures carried { IsSome result ↔ Carries (port_at tile side) layer }
    ensures net { IfSome result (λ net. net ≡ side_net (design_of tile) side layer) }
    ensures named { result ≡ named_net tile side layer }
    ensures few { IfSome result (λ net. net < 4) }
{
    if port(tile, side).carries(layer) {
        Some(net_at_side(tile.design(), side, layer))
    } else {
        None
    }
}

/// The number, among the tile's nets, of its square (`x`, `y`), in lambda from the tile's lower left corner, which
/// conducts in the layer.
pub fn net_of_square(tile: Tile, layer: Layer, x: i64, y: i64) -> u8
    ensures number { result ≡ square_net tile layer x y }
    ensures few { result < 4 }
{
    match (tile.design(), layer) {
        (Design::Contact(_, _, _), _) | (_, Layer::Metal) => 0,
        (_, Layer::Poly) => 1,
        (_, _) => { if is_in_first_half(tile, x, y) { 2 } else { 3 } }
    }
}

/// Whether the square lies in the half of the tile in which a transistor has its first terminal.
fn is_in_first_half(tile: Tile, x: i64, y: i64) -> bool
    ensures { result ≡ in_first_half (is_transpose tile) x y }
{
    if tile.is_transpose() { x < 7 } else { 7 <= y }
}

/// The number of the net of a layer at a side of the design, or of its transpose.
fn net_at_side(design: Design, side: Side, layer: Layer) -> u8
    ensures { result ≡ side_net design side layer }
{
    match (design, layer, side) {
        (Design::Contact(_, _, _), _, _) | (_, Layer::Metal, _) => 0,
        (_, Layer::Poly, _) => 1,
        (_, _, Side::North | Side::West) => 2,
        (_, _, Side::South | Side::East) => 3,
    }
}
