//! Turned, moved and merged boxes that are known from outside.

use geom::{Box2, Layer, Orient, merge_runs, place};
use layout_words::{shapes, text_of};
use std::test::Fail;

/// The eight ways to turn: whether the axes are exchanged, and whether x and y are negated then.
const WAYS: [(bool, bool, bool); 8] = [
    (false, false, false),
    (false, true, false),
    (false, false, true),
    (false, true, true),
    (true, false, false),
    (true, true, false),
    (true, false, true),
    (true, true, true),
];

/// The number of each way followed by each other.
const COMPOSED: [[usize; 8]; 8] = [
    [0, 1, 2, 3, 4, 5, 6, 7],
    [1, 0, 3, 2, 6, 7, 4, 5],
    [2, 3, 0, 1, 5, 4, 7, 6],
    [3, 2, 1, 0, 7, 6, 5, 4],
    [4, 5, 6, 7, 0, 1, 2, 3],
    [5, 4, 7, 6, 2, 3, 0, 1],
    [6, 7, 4, 5, 1, 0, 3, 2],
    [7, 6, 5, 4, 3, 2, 1, 0],
];

/// The edges of a box, the number of a way to turn it, how far it is moved to the right then, and the edges of its image; none
/// where the first or the last are those of no box.
const PLACED: &[([i64; 4], usize, i64, Option<[i64; 4]>)] = &[
    ([1, 2, 4, 10], 0, 0, Some([1, 2, 4, 10])),
    ([1, 2, 4, 10], 1, 0, Some([-4, 2, -1, 10])),
    ([1, 2, 4, 10], 2, 0, Some([1, -10, 4, -2])),
    ([1, 2, 4, 10], 3, 0, Some([-4, -10, -1, -2])),
    ([1, 2, 4, 10], 4, 0, Some([2, 1, 10, 4])),
    ([1, 2, 4, 10], 5, 0, Some([-10, 1, -2, 4])),
    ([1, 2, 4, 10], 6, 0, Some([2, -4, 10, -1])),
    ([1, 2, 4, 10], 7, 0, Some([-10, -4, -2, -1])),
    // Mirrored, rotated by a quarter, and moved.
    ([0, 0, 4, 8], 7, 14, Some([6, -4, 14, 0])),
    // Edges lie within 2^40 of the origin.
    (
        [0, 0, 1099511627776, 1],
        0,
        0,
        Some([0, 0, 1099511627776, 1]),
    ),
    ([0, 0, 1099511627776, 1], 0, 1, None),
    ([0, 0, 1099511627777, 1], 0, 0, None),
    ([0, -1099511627777, 1, 0], 0, 0, None),
    ([0, 0, 0, 1], 0, 0, None),
];

/// Boxes, and what they merge into, in this order.
const MERGED: &[(&str, &str)] = &[
    ("", ""),
    ("M 0 0 4 2; M 2 0 6 2; M 0 2 6 4", "M 0 0 6 4"),
    (
        "M 2 1 5 3; M 0 0 3 2; M 7 0 8 2",
        "M 0 0 3 1; M 7 0 8 2; M 0 1 5 2; M 2 2 5 3",
    ),
    // Columns drawn in pieces, and stairs.
    ("M 0 3 2 5; M 0 0 2 3; M 0 1 2 4", "M 0 0 2 5"),
    (
        "M 0 0 1 1; M 1 0 2 2; M 2 0 3 3",
        "M 0 0 3 1; M 1 1 3 2; M 2 2 3 3",
    ),
    // Holes, corners and gaps.
    (
        "M 0 0 6 1; M 0 1 2 3; M 4 1 6 3; M 0 3 6 4",
        "M 0 0 6 1; M 0 1 2 3; M 4 1 6 3; M 0 3 6 4",
    ),
    ("M 1 1 2 2; M 0 0 1 1", "M 0 0 1 1; M 1 1 2 2"),
    ("M 0 0 1 1; M 0 2 1 3", "M 0 0 1 1; M 0 2 1 3"),
    // Tall boxes over ragged rows, and between longer ones.
    (
        "M 0 0 9 1; M 0 1 6 2; M 0 2 7 3; M 0 3 9 4; M 1 0 3 4; M 2 1 6 3; M 4 0 5 4",
        "M 0 0 9 1; M 0 1 6 2; M 0 2 7 3; M 0 3 9 4",
    ),
    (
        "M 0 0 9 1; M 0 1 6 2; M 0 2 7 3; M 0 3 9 4; M 1 0 3 4; M 5 0 8 4",
        "M 0 0 9 1; M 0 1 8 3; M 0 3 9 4",
    ),
    (
        "M 0 0 9 1; M 0 2 9 3; M 1 0 3 4; M 2 0 4 4; M 3 0 5 4; M 11 0 12 4",
        "M 0 0 9 1; M 11 0 12 4; M 1 1 5 2; M 0 2 9 3; M 1 3 5 4",
    ),
    // The whole plane, and each layer by itself.
    (
        "M 0 0 1 1; M -1099511627776 -1099511627776 1099511627776 1099511627776; M 1099511627775 1099511627775 1099511627776 1099511627776",
        "M -1099511627776 -1099511627776 1099511627776 1099511627776",
    ),
    (
        "C 0 0 2 2; M 2 0 4 2; P 0 5 2 6",
        "P 0 5 2 6; M 2 0 4 2; C 0 0 2 2",
    ),
];

fn way(number: usize) -> Option<Orient> {
    let (swap, neg_x, neg_y) = *WAYS.get(number)?;
    Some(Orient { swap, neg_x, neg_y })
}

fn metal(edges: &[i64; 4]) -> Option<Box2> {
    let [x1, y1, x2, y2] = *edges;
    Box2::new(Layer::Metal, x1, y1, x2, y2)
}

#[test]
fn turns_and_moves_boxes(rt: HostRuntime) -> Result<(), Fail> {
    for (edges, number, dx, wanted) in PLACED {
        assert!(rt; -100 <= *dx && *dx <= 100);
        let turn = way(*number).ok_or("no way")?;
        let image = match metal(edges) {
            Some(b) => place(b, turn, *dx, 0),
            None => None,
        };
        let wanted = match wanted {
            Some(edges) => metal(edges),
            None => None,
        };
        assert!(rt; image == wanted, "{edges:?} in way {number}");
    }
    Ok(())
}

#[test]
fn composes_in_sixty_four_ways(rt: HostRuntime) -> Result<(), Fail> {
    for (first, row) in COMPOSED.iter().enumerate() {
        for (next, wanted) in row.iter().enumerate() {
            let composed = way(first).ok_or("no way")?.then(way(next).ok_or("no way")?);
            assert!(rt; way(*wanted) == Some(composed), "{first} then {next}");
        }
    }
    Ok(())
}

#[test]
fn merges_boxes(rt: HostRuntime) -> Result<(), Fail> {
    for (drawn, wanted) in MERGED {
        let (boxes, _) = shapes(rt.alloc(), drawn)?;
        let merged = merge_runs(rt.alloc(), &boxes)?;
        assert_eq!(rt; text_of(rt.alloc(), &merged)?.as_str(), *wanted, "{drawn}");
    }
    Ok(())
}
