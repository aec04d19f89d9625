// Each list of boxes with squares has a box. This function runs nothing: a caller has the law from the contract.

ghost use Rattle.chip_box.specs.Extents.{RectanglesExist};

/// There is a least rectangle of whole tiles round boxes with squares.
pub fn rectangles_exist()
    ensures { RectanglesExist }
{}
