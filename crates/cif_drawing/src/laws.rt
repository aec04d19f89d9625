// What holds of all drawings.

ghost use Rattle.std.specs.Prelude.{◌≡◌, ℕ, List};
ghost use Rattle.geom.specs.declared.layer.Layer.{Layer};
ghost use Rattle.geom.specs.declared.point.Point.{Point};
ghost use Rattle.geom.specs.Squares.{BoxShape, IsBox};
ghost use Rattle.geom.specs.Rows.{Among};
ghost use Rattle.geom.specs.CifShapes.{ArePolygonBoxes};
ghost use Rattle.geom.specs.CifDrawings.{CifDrawing};
ghost use Rattle.geom.specs.CifRefusals.{IsCifText, DrawsCif, stroke_boxes};

/// A text of a drawing draws all boxes of the drawing and its labels, where the boxes stay within reach, as what `flatten` gives.
pub fn texts_draw_flat_boxes()
    ensures { (text : List ℕ) (drawing : CifDrawing) (boxes : List BoxShape) → IsCifText text drawing → boxes ≡ stroke_boxes drawing.strokes
        → ((b : BoxShape) → Among boxes b → IsBox b) → DrawsCif text boxes drawing.labels }
{}

/// A polygon has one list of boxes.
pub fn polygons_have_one_list()
    ensures { (layer : Layer) (points : List Point) (boxes others : List BoxShape) → ArePolygonBoxes layer points boxes
        → ArePolygonBoxes layer points others → boxes ≡ others }
{}
