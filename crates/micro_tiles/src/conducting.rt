// Which squares of tiles conduct.

ghost use Rattle.std.specs.Prelude.{◌≡◌, ◌↔◌, IsTrue};
ghost use Rattle.geom.specs.Squares.{Covered};
ghost use Rattle.geom.specs.Conduction.{Conducts};
ghost use Rattle.micro_tiles.specs.Conducting.{is_between, is_inside, covers, is_covered, conducts};
ghost use Rattle.micro_tiles.specs.Table.{boxes};

use crate::boxes::{box_at, box_count};
use crate::tile::Tile;
use geom::{Box2, Layer};

/// Whether the tile conducts in the layer at its square (`x`, `y`), in lambda from the tile's lower left corner: it has metal
/// there, or poly, or diffusion and no poly.
pub fn conducts(tile: Tile, layer: Layer, x: i64, y: i64) -> bool
    ensures test { result ≡ conducts tile layer x y }
    ensures meaning { IsTrue result ↔ Conducts (Covered (boxes tile)) layer x y }
{
    match layer {
        Layer::Metal | Layer::Poly => is_covered(tile, layer, x, y),
        Layer::Diffusion => is_covered(tile, layer, x, y) && !is_covered(tile, Layer::Poly, x, y),
        Layer::Cut | Layer::Implant => false,
    }
}

/// Whether some box of the tile covers the square in the layer.
fn is_covered(tile: Tile, layer: Layer, x: i64, y: i64) -> bool
    ensures { result ≡ is_covered tile layer x y }
{
    for index in 0..box_count(tile) {
        if covers(box_at(tile, index), layer, x, y) {
            return true;
        }
    }
    false
}

/// Whether the box covers the square in the layer.
fn covers(b: Box2, layer: Layer, x: i64, y: i64) -> bool
    ensures { result ≡ covers layer x y b }
{
    b.layer == layer && is_inside(b, x, y)
}

/// Whether the square lies in the box, whatever its layer.
fn is_inside(b: Box2, x: i64, y: i64) -> bool
    ensures { result ≡ is_inside b x y }
{
    is_between(b.x1, b.x2, x) && is_between(b.y1, b.y2, y)
}

/// Whether a square lies between two edges.
fn is_between(from: i64, to: i64, at: i64) -> bool
    ensures { result ≡ is_between from to at }
{
    from <= at && at < to
}
