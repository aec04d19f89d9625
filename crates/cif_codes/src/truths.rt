// Tests.

ghost use Rattle.std.specs.Prelude.{◌≡◌, ◌||◌, None};
ghost use Rattle.std.specs.Bool.{Decides};
ghost use Rattle.geom.specs.CifShapes.{is_along_axis};

use geom::Layer;

/// Exactly one of the numbers is 0.
pub fn is_along_axis(a: i64, b: i64) -> bool
    ensures { result ≡ is_along_axis a b }
{
    if a == 0 { b != 0 } else { b == 0 }
}

/// One of the two.
pub fn either(one: bool, other: bool) -> bool
    ensures { result ≡ (one || other) }
{
    one || other
}

/// No layer is set.
pub fn is_bare(layer: Option<Layer>) -> bool
    ensures { Decides result (layer ≡ None) }
{
    match layer {
        Some(_) => false,
        None => true,
    }
}
