// What holds of the boxes of every polygon.

ghost use Rattle.std.specs.Prelude.{ℤ, List, ◌↔◌};
ghost use Rattle.geom.specs.declared.layer.Layer.{Layer};
ghost use Rattle.geom.specs.declared.point.Point.{Point};
ghost use Rattle.geom.specs.Squares.{BoxShape};
ghost use Rattle.geom.specs.Rows.{Over};
ghost use Rattle.geom.specs.CifShapes.{InPolygon, ArePolygonBoxes};

/// The boxes of a polygon cover the squares inside it and no others.
pub fn boxes_cover_polygons()
    ensures { (layer : Layer) (points : List Point) (boxes : List BoxShape) → ArePolygonBoxes layer points boxes
        → (x y : ℤ) → Over boxes x y ↔ InPolygon points x y }
{}
