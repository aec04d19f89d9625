// Boxes of one layer, whose edges stay within 2^40 lambda of the origin.

ghost use Rattle.std.specs.Prelude.{◌≡◌, ◌↔◌, IsSome, IfSome, IsTrue};
ghost use Rattle.geom.specs.Squares.{IsSide, IsBox};

use crate::layer::Layer;
use std::marker::Model;

/// The greatest distance of an edge from the origin, in lambda.
pub const FARTHEST_EDGE: i64 = 0x100_0000_0000;

/// A box of a layer: the squares from `x1` up to but not including `x2`, and from `y1` up to but not including
/// `y2`, in lambda. All four edges lie within 2^40 of the origin, `x1 < x2` and `y1 < y2`.
#[derive(Clone, Copy, Debug, PartialEq, Eq)]
pub struct Box2 {
    pub layer: Layer,
    pub x1: i64,
    pub y1: i64,
    pub x2: i64,
    pub y2: i64,
}

impl Model for Box2 {
    ghost use Rattle.std.specs.Prelude.{◌≡◌};
    ghost use Rattle.geom.specs.Squares.{BoxShape, IsBox};

    ghost Value = { BoxShape };

    ghost view = { λ b. record { layer = b.layer; x1 = b.x1; y1 = b.y1; x2 = b.x2; y2 = b.y2 } };

    ghost invariant = { λ b. IsBox (record { layer = b.layer; x1 = b.x1; y1 = b.y1; x2 = b.x2; y2 = b.y2 }) };

    ghost inverse = { λ b. record { layer = b.layer; x1 = b.x1; y1 = b.y1; x2 = b.x2; y2 = b.y2 } };
}

impl Box2 {
    /// The box with these edges, or `None` where they are not in order or one is farther than 2^40 from the origin.
    pub fn new(layer: Layer, x1: i64, y1: i64, x2: i64, y2: i64) -> Option<Box2>
        ensures made { IsSome result ↔ IsBox (record { layer = layer; x1 = x1; y1 = y1; x2 = x2; y2 = y2 }) }
        ensures edges { IfSome result
            (λ made. made ≡ record { layer = layer; x1 = x1; y1 = y1; x2 = x2; y2 = y2 }) }
    {
        if is_side(x1, x2) && is_side(y1, y2) {
            Some(Box2 {
                layer,
                x1,
                y1,
                x2,
                y2,
            })
        } else {
            None
        }
    }
}

/// The two edges are in order and within reach of the origin.
fn is_side(from: i64, to: i64) -> bool
    ensures { IsTrue result ↔ IsSide from to }
{
    -FARTHEST_EDGE <= from && from < to && to <= FARTHEST_EDGE
}
