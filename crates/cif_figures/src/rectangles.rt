// Rectangles by twice their edges in units.

ghost use Rattle.std.specs.Prelude.{◌≡◌};
ghost use Rattle.geom.specs.CifShapes.{outlined_box};
ghost use Rattle.geom.specs.CifDrawings.{scaled};
ghost use Rattle.cif_codes.specs.Scales.{ratio, IsScale};
ghost use Rattle.cif_figures.specs.Rectangles.{outline_of, IsDrawn};

use cif_codes::{Edges, Scale};
use geom::{Box2, Layer};

/// The box of these edges.
pub fn scaled_box(scale: Scale, layer: Layer, edges: Edges) -> Box2
    requires scale { IsScale scale }
    requires drawn { IsDrawn (ratio scale) edges }
    ensures { result ≡ outlined_box layer (scaled (ratio scale)) (outline_of edges) }
{
    Box2 {
        layer,
        x1: scale.scaled(edges.left),
        y1: scale.scaled(edges.bottom),
        x2: scale.scaled(edges.right),
        y2: scale.scaled(edges.top),
    }
}
