// Boxes as a drawing, of which the laws of drawings speak.

use geom::Box2;
use nmos_model::Drawn;
use std::marker::Model;

/// A list of boxes, by the squares that they cover.
pub(crate) struct DrawnBoxes {
    boxes: Vec<Box2>,
}

impl Model for DrawnBoxes {
    ghost use Rattle.std.specs.Prelude.{List};
    ghost use Rattle.geom.specs.Squares.{BoxShape};

    ghost Value = { List BoxShape };

    ghost view = { λ drawn. drawn.boxes.items };
}

impl Drawn for DrawnBoxes {
    ghost use Rattle.geom.specs.Squares.{Covered};

    ghost covers = { λ boxes. Covered boxes };
}
