// Drawings, of which laws speak.

ghost use Rattle.std.specs.Prelude.{ℤ};
ghost use Rattle.geom.specs.declared.layer.Layer.{Layer};

use geom::Box2;

/// What covers squares in layers, as boxes, plans of tiles and chips do.
pub trait Drawn {
    // the layer covers the square
    ghost covers: { Self → Layer → ℤ → ℤ → Type 0 };
}

impl Drawn for Vec<Box2> {
    ghost use Rattle.geom.specs.Squares.{Covered};

    ghost covers = { λ boxes. Covered boxes.items };
}
