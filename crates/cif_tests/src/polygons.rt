//! Squares inside polygons.

use cif_shapes::inside;
use geom::Point;

/// The corners of an L, and of a square that is gone round twice.
const L: [Point; 6] = [
    Point { x: 0, y: 0 },
    Point { x: 4, y: 0 },
    Point { x: 4, y: 2 },
    Point { x: 2, y: 2 },
    Point { x: 2, y: 4 },
    Point { x: 0, y: 4 },
];

const TWICE: [Point; 8] = [
    Point { x: 0, y: 0 },
    Point { x: 2, y: 0 },
    Point { x: 2, y: 2 },
    Point { x: 0, y: 2 },
    Point { x: 0, y: 0 },
    Point { x: 2, y: 0 },
    Point { x: 2, y: 2 },
    Point { x: 0, y: 2 },
];

/// Squares, and whether they lie inside the L.
const SQUARES: [(i64, i64, bool); 8] = [
    (0, 0, true),
    (3, 1, true),
    (3, 2, false),
    (1, 3, true),
    (2, 2, false),
    (-1, 0, false),
    (4, 0, false),
    (0, 4, false),
];

#[test]
fn tells_what_is_inside(rt: HostRuntime) {
    for (x, y, wanted) in SQUARES {
        assert_eq!(rt; inside(&L, x, y), wanted);
        assert_eq!(rt; inside(&TWICE, x, y), false);
        assert_eq!(rt; inside(&[], x, y), false);
    }
}
