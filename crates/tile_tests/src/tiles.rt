//! Tiles written out by hand.

use geom::{Box2, Layer};
use layout_words::text_of;
use micro_tiles::{
    Mode, Side, TILES, Tile, box_at, box_count, channel_in, local_net, net_of_square, port,
    transistor_in, transposed,
};
use std::alloc::Global;
use std::test::Fail;

/// A tile by its number, and its boxes in their order.
const BOXES: &[(u8, &str)] = &[
    (0, ""),
    (2, "M 5 5 14 9"),
    (7, "P 6 0 8 14; P 6 6 14 8"),
    (9, "M 0 5 14 9; P 6 0 8 14"),
    (19, "M 0 5 9 9; P 6 6 14 8; P 5 5 9 9; C 6 6 8 8"),
    (23, "M 5 5 14 9; D 5 0 9 9; C 6 6 8 8"),
    (26, "D 5 0 9 14; P 0 6 11 8"),
    (27, "D 6 0 8 14; P 4 3 10 11; P 10 6 14 8; I 4 1 10 13"),
    (34, "P 0 6 14 8; P 6 0 8 8"),
    (46, "M 5 5 9 14; P 6 0 8 8; P 5 5 9 9; C 6 6 8 8"),
    (53, "D 0 5 14 9; P 6 3 8 14"),
    (54, "D 0 6 14 8; P 3 4 11 10; P 6 0 8 4; I 1 4 13 10"),
];

/// A tile, and what its sides carry north, east, south and west: `M` for metal, and `P` or `D` for poly or diffusion.
const PORTS: &[(u8, [&str; 4])] = &[
    (0, ["", "", "", ""]),
    (8, ["", "", "P", "P"]),
    (14, ["P", "M", "", ""]),
    (21, ["", "M", "D", "M"]),
    (27, ["D", "P", "D", ""]),
    (35, ["P", "P", "", ""]),
    (41, ["", "", "M", "P"]),
    (48, ["M", "D", "M", ""]),
    (54, ["", "D", "P", "D"]),
];

/// A tile, a layer, and its nets in this layer on the sides north, east, south and west, `-` where there is none.
const SIDES: &[(u8, Layer, &str)] = &[
    (9, Layer::Metal, "- 0 - 0"),
    (9, Layer::Poly, "1 - 1 -"),
    (10, Layer::Poly, "0 - 0 -"),
    (26, Layer::Diffusion, "2 - 3 -"),
    (26, Layer::Poly, "- - - 1"),
    (26, Layer::Cut, "- - - -"),
    (54, Layer::Diffusion, "- 3 - 2"),
    (54, Layer::Poly, "- - 1 -"),
];

/// A tile, a layer, a square, and its net.
const SQUARES: &[(u8, Layer, i64, i64, u8)] = &[
    (9, Layer::Metal, 6, 6, 0),
    (9, Layer::Poly, 6, 6, 1),
    (20, Layer::Diffusion, 6, 13, 0),
    (26, Layer::Diffusion, 5, 8, 2),
    (26, Layer::Diffusion, 8, 5, 3),
    (53, Layer::Diffusion, 5, 8, 2),
    (53, Layer::Diffusion, 8, 5, 3),
];

/// A tile and its transpose, and the channel and the mode of its transistor, if it has one.
const TRANSPOSES: &[(u8, u8, &str, Option<Mode>)] = &[
    (0, 0, "", None),
    (1, 28, "", None),
    (28, 1, "", None),
    (10, 37, "", None),
    (20, 47, "", None),
    (26, 53, "D 5 6 9 8", Some(Mode::Enhancement)),
    (53, 26, "D 6 5 8 9", Some(Mode::Enhancement)),
    (27, 54, "D 6 3 8 11", Some(Mode::Depletion)),
    (54, 27, "D 3 6 11 8", Some(Mode::Depletion)),
];

const ALL_SIDES: [Side; 4] = [Side::North, Side::East, Side::South, Side::West];

fn tile(number: u8) -> Result<Tile, Fail> {
    Ok(Tile::new(number).ok_or("no tile")?)
}

fn boxes(alloc: Global, tile: Tile) -> Result<Vec<Box2>, Fail> {
    let mut boxes = Vec::new(alloc);
    for index in 0..box_count(tile) {
        boxes.push(box_at(tile, index))?;
    }
    Ok(boxes)
}

#[test]
fn tiles_have_their_boxes(rt: HostRuntime) -> Result<(), Fail> {
    for (number, wanted) in BOXES {
        let boxes = boxes(rt.alloc(), tile(*number)?)?;
        assert_eq!(rt; text_of(rt.alloc(), &boxes)?.as_str(), *wanted, "{number}");
    }
    Ok(())
}

/// What a side carries.
fn carried(tile: Tile, side: Side) -> &'static str {
    let port = port(tile, side);
    match (port.metal, port.other) {
        (false, None) => "",
        (true, None) => "M",
        (false, Some(Layer::Poly)) => "P",
        (false, Some(Layer::Diffusion)) => "D",
        _ => "more",
    }
}

#[test]
fn tiles_have_their_ports(rt: HostRuntime) -> Result<(), Fail> {
    for (number, wanted) in PORTS {
        for (side, wanted) in ALL_SIDES.iter().zip(wanted.iter()) {
            assert_eq!(rt; carried(tile(*number)?, *side), *wanted, "{number}");
        }
    }
    Ok(())
}

/// The nets of the layer on the four sides.
fn nets_text(alloc: Global, tile: Tile, layer: Layer) -> Result<String, Fail> {
    let mut text = String::new(alloc);
    for side in ALL_SIDES.iter() {
        let separator = if text.is_empty() { "" } else { " " };
        match local_net(tile, *side, layer) {
            Some(net) => text.push_str(format!(in alloc; "{separator}{net}")?.as_str())?,
            None => text.push_str(format!(in alloc; "{separator}-")?.as_str())?,
        }
    }
    Ok(text)
}

#[test]
fn sides_have_their_nets(rt: HostRuntime) -> Result<(), Fail> {
    for (number, layer, wanted) in SIDES {
        let found = nets_text(rt.alloc(), tile(*number)?, *layer)?;
        assert_eq!(rt; found.as_str(), *wanted, "{number}");
    }
    Ok(())
}

#[test]
fn squares_have_their_nets(rt: HostRuntime) -> Result<(), Fail> {
    for (number, layer, x, y, wanted) in SQUARES {
        assert_eq!(rt;
            net_of_square(tile(*number)?, *layer, *x, *y),
            *wanted,
            "{number}"
        );
    }
    Ok(())
}

#[test]
fn tiles_have_their_transposes_and_transistors(rt: HostRuntime) -> Result<(), Fail> {
    for (number, other, channel, mode) in TRANSPOSES {
        let tile = tile(*number)?;
        assert!(rt; Some(transposed(tile)) == Tile::new(*other), "{number}");
        let found: Vec<Box2> = channel_in(tile).into_iter().collect(rt.alloc())?;
        assert_eq!(rt; text_of(rt.alloc(), &found)?.as_str(), *channel, "{number}");
        assert!(rt;
            transistor_in(tile).map(|transistor| transistor.mode) == *mode,
            "{number}"
        );
    }
    for number in 0..=255u8 {
        assert_eq!(rt; Tile::new(number).is_some(), number < 55);
    }
    assert_eq!(rt; TILES, 55);
    Ok(())
}
