//! Layouts of trees: their sides, and where the nodes of small ones stand.

use crate::sequences::{Way, tree_of_expression, tree_of_text, tree_of_way};
use block_grid::Blocks;
use demo_spec::demo_spec;
use light_order::order;
use star_normal::normalize;
use std::alloc::Global;
use std::test::Fail;
use tree_layout::layout;

/// How sequences are parted, how many leaves they have, and the rows and columns of their layouts.
const SIDES: &[(&str, Way, &[(u32, u32, u32)])] = &[
    (
        "left",
        Way::Left,
        &[
            (1, 3, 3),
            (2, 6, 5),
            (3, 11, 9),
            (4, 11, 11),
            (7, 20, 15),
            (10, 27, 23),
            (16, 27, 31),
            (64, 59, 71),
            (100, 104, 75),
            (200, 123, 149),
            (341, 201, 153),
            (1024, 251, 311),
            (2000, 440, 315),
            (4096, 507, 631),
        ],
    ),
    (
        "right",
        Way::Right,
        &[
            (1, 3, 3),
            (2, 6, 5),
            (3, 11, 9),
            (4, 11, 11),
            (7, 20, 15),
            (10, 27, 23),
            (16, 27, 31),
            (64, 59, 71),
            (100, 104, 75),
            (200, 123, 149),
        ],
    ),
    (
        "halves",
        Way::Halves,
        &[
            (1, 3, 3),
            (2, 6, 5),
            (3, 11, 9),
            (4, 11, 11),
            (7, 20, 15),
            (10, 28, 23),
            (16, 28, 34),
            (64, 60, 76),
            (100, 111, 84),
            (200, 137, 167),
            (341, 209, 169),
            (1024, 275, 344),
            (2000, 532, 396),
            (4096, 563, 722),
        ],
    ),
    (
        "comb",
        Way::Comb,
        &[
            (1, 3, 3),
            (2, 6, 5),
            (3, 11, 9),
            (4, 11, 11),
            (7, 20, 15),
            (10, 27, 24),
            (16, 28, 34),
            (64, 59, 79),
            (100, 104, 83),
            (200, 121, 165),
            (341, 197, 169),
            (1024, 245, 343),
            (2000, 427, 347),
            (4096, 493, 695),
        ],
    ),
    (
        "random",
        Way::Random,
        &[
            (1, 3, 3),
            (2, 6, 5),
            (3, 11, 9),
            (4, 11, 11),
            (7, 19, 15),
            (10, 26, 23),
            (16, 29, 33),
            (64, 69, 76),
            (100, 104, 79),
            (200, 125, 164),
            (341, 208, 162),
            (1024, 268, 350),
            (2000, 485, 367),
            (4096, 561, 725),
        ],
    ),
];

/// Specifications, and the rows and columns of their layouts.
const TEXTS: &[(&str, u32, u32)] = &[
    ("line x; symbol a = 1; output z; expr a !z;", 3, 3),
    (
        "line x y; symbol a = 1-; symbol b = 01; output z; expr (a | b)* a !z;",
        11,
        9,
    ),
];

/// How many leaves a specification has that is made from the number 1, and the rows and columns of its layout.
const DEMOS: &[(u32, u32, u32)] = &[(2, 6, 5), (200, 126, 155), (2000, 476, 344)];

/// The rows and columns of the blocks.
fn sides(blocks: &Blocks) -> (u32, u32) {
    (blocks.rows(), blocks.cols())
}

#[test]
fn sequences_have_their_sides(rt: HostRuntime) -> Result<(), Fail> {
    for (name, way, rows) in SIDES {
        for (leaves, rows, cols) in rows.iter() {
            let tree = tree_of_way(rt.alloc(), *way, *leaves)?;
            let blocks = layout(rt.alloc(), &tree)?;
            assert_eq!(rt; sides(&blocks), (*rows, *cols), "{name} {leaves}");
        }
    }
    Ok(())
}

#[test]
fn specifications_have_their_sides(rt: HostRuntime) -> Result<(), Fail> {
    for (text, rows, cols) in TEXTS {
        let tree = tree_of_text(rt.alloc(), text)?;
        let blocks = layout(rt.alloc(), &tree)?;
        assert_eq!(rt; sides(&blocks), (*rows, *cols), "{text}");
    }
    Ok(())
}

#[test]
fn demos_have_their_sides(rt: HostRuntime) -> Result<(), Fail> {
    for (leaves, rows, cols) in DEMOS {
        assert!(rt; 1 <= *leaves && *leaves <= 4096);
        let spec = demo_spec(rt.alloc(), 1, *leaves)?;
        let tree = normalize(rt.alloc(), &spec)?;
        let blocks = layout(rt.alloc(), &tree)?;
        assert_eq!(rt; sides(&blocks), (*rows, *cols), "{leaves}");
    }
    Ok(())
}

#[test]
fn layouts_have_each_node(rt: HostRuntime) -> Result<(), Fail> {
    let tree = tree_of_way(rt.alloc(), Way::Left, 1024)?;
    let blocks = layout(rt.alloc(), &tree)?;
    assert!(rt; blocks.rows() <= 973 && blocks.cols() <= 973);
    for node in 0..2048 {
        assert!(rt; blocks.place_of(node).is_some(), "{node}");
    }
    assert!(rt; blocks.place_of(2048).is_none());
    Ok(())
}

/// How the first of two places lies to the second one.
fn lies(one: (u32, u32), other: (u32, u32)) -> (&'static str, &'static str) {
    (
        side(one.0, other.0, "north", "south"),
        side(one.1, other.1, "west", "east"),
    )
}

/// The side of a row or a column on which another one lies.
fn side(one: u32, other: u32, below: &'static str, above: &'static str) -> &'static str {
    if one == other {
        "beside"
    } else if one < other {
        below
    } else {
        above
    }
}

/// Two nodes by their numbers in the order, and how the first one's row and column lie to the second one's.
const PLACES: &[(usize, usize, (&str, &str))] = &[
    (0, 1, ("beside", "west")),
    (2, 3, ("beside", "west")),
    (0, 2, ("north", "beside")),
    (1, 3, ("north", "beside")),
];

/// The place of the node with this number in the order.
fn place(blocks: &Blocks, order: &[u32], at: usize) -> Option<(u32, u32)> {
    blocks.place_of(*order.get(at)?)
}

#[test]
fn four_nodes_stand_in_two_rows_and_columns(rt: HostRuntime) -> Result<(), Fail> {
    let tree = tree_of_expression(rt.alloc(), "a a")?;
    let order = order(rt.alloc(), &tree)?;
    assert_eq!(rt; order.len(), 4);
    let blocks = layout(rt.alloc(), &tree)?;
    for (one, other, wanted) in PLACES {
        let one = place(&blocks, &order, *one).ok_or("no place")?;
        let other = place(&blocks, &order, *other).ok_or("no place")?;
        assert_eq!(rt; lies(one, other), *wanted);
    }
    Ok(())
}

#[test]
fn the_frame_stands_before_one_leaf(rt: HostRuntime) -> Result<(), Fail> {
    let tree = tree_of_expression(rt.alloc(), "a")?;
    assert_eq!(rt; order(rt.alloc(), &tree)?.as_slice(), [1, 0].as_slice());
    Ok(())
}
