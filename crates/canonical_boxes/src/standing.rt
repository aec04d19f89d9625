// The boxes that begin in a row, by two binary searches.

ghost use Rattle.std.specs.Prelude.{◌≡◌, ◌↔◌, ℕ, ◌<◌, ◌≤◌, length, true};
ghost use Rattle.geom.specs.Squares.{BoxShape};
ghost use Rattle.canonical_boxes.specs.Canonical.{IsCanonical, IsAt};
ghost use Rattle.canonical_boxes.specs.Standing.{BeginsAmong, is_passed, is_reached};

use geom::Box2;

/// The numbers of the boxes that begin in row `y` and have a column from `from` up to but not including `to`: those from the first
/// number up to but not including the second. Takes log n steps.
pub fn begun_among(boxes: &[Box2], y: i64, from: i64, to: i64) -> (usize, usize)
    requires { IsCanonical boxes.now }
    ensures within { result.1 ≤ length boxes.now }
    ensures numbers { (k : ℕ) (b : BoxShape) → IsAt boxes.now k b
        → ((result.0 ≤ k) × (k < result.1)) ↔ BeginsAmong b y from to }
{
    (count_passed(boxes, y, from), count_reached(boxes, y, to))
}

/// How many boxes begin below row `y`, or in it and end at or before column `x`: they stand first.
pub(crate) fn count_passed(boxes: &[Box2], y: i64, x: i64) -> usize
    requires { IsCanonical boxes.now }
    ensures within { result ≤ length boxes.now }
    ensures numbers { (k : ℕ) (b : BoxShape) → IsAt boxes.now k b → (k < result) ↔ (is_passed y x b ≡ true) }
{
    boxes.partition_point(|b| is_passed(b, y, x))
}

/// How many boxes begin below row `y`, or in it and before column `x`: they stand first.
fn count_reached(boxes: &[Box2], y: i64, x: i64) -> usize
    requires { IsCanonical boxes.now }
    ensures within { result ≤ length boxes.now }
    ensures numbers { (k : ℕ) (b : BoxShape) → IsAt boxes.now k b → (k < result) ↔ (is_reached y x b ≡ true) }
{
    boxes.partition_point(|b| is_reached(b, y, x))
}

/// The box begins below row `y`, or in it and ends at or before column `x`.
fn is_passed(b: &Box2, y: i64, x: i64) -> bool
    ensures { result ≡ is_passed y x b.now }
{
    b.y1 < y || (b.y1 <= y && b.x2 <= x)
}

/// The box begins below row `y`, or in it and before column `x`.
fn is_reached(b: &Box2, y: i64, x: i64) -> bool
    ensures { result ≡ is_reached y x b.now }
{
    b.y1 < y || (b.y1 <= y && b.x1 < x)
}
