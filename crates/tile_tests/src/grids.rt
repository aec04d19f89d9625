//! Grids of tiles, their boxes, and the networks that they stand for: by their squares, and by the nets of their tiles.

ghost use Rattle.std.specs.Prelude.{◌≡◌, is_some};
ghost use Rattle.rx_text.specs.Role.{bears_name};
ghost use Rattle.nmos_model.specs.Pads.{AreNamed};

use crate::laid::laid;
use geom::{Box2, Label};
use layout_words::{fault_text, network_text, shapes, text_of};
use nmos_model::extract_plain;
use nmos_model::laws::drawings_are_networks_or_refused;
use rx_text::PadName;
use std::alloc::Global;
use std::test::Fail;
use stick_grid::{Grid, grid_network};

/// Rows of tiles by their numbers; the boxes of the grid, and those of its mirror image over the diagonal from north-west to
/// south-east, in their order.
const DRAWN: &[(&str, &str, &str)] = &[
    ("2 3", "M 5 5 14 9; M 14 5 23 9", "M 5 14 9 23; M 5 5 9 14"),
    ("6/5", "P 6 14 8 22; P 6 6 8 14", "P 6 6 14 8; P 14 6 22 8"),
    // A contact and its wires.
    (
        "15 3/5 0",
        "M 5 19 14 23; P 6 14 8 22; P 5 19 9 23; C 6 20 8 22; M 14 19 23 23; P 6 6 8 14",
        "M 5 14 9 23; P 6 20 14 22; P 5 19 9 23; C 6 20 8 22; P 14 20 22 22; M 5 5 9 14",
    ),
];

/// Tiles that do not meet.
const APART: &[&str] = &["2 2", "6/6", "2 3/5 0", "0 9"];

/// Labels of four ends of poly in the first of three rows of seven tiles.
const FOUR: &str = "GND P 48 40; PHI1 P 62 40; PHI2 P 76 40; RESET P 90 40";

/// Three rows of tiles, labels beside the four, and the network, or its refusal.
const NETWORKS: &[(&str, &str, &str)] = &[
    // Nothing, and two ends of metal that meet.
    (
        "0 0 5 5 5 5 5/0 0 0 0 0 0 0/0 0 0 0 0 0 0",
        "VDD P 34 40",
        "5 nets",
    ),
    (
        "0 0 5 5 5 5 5/2 3 0 0 0 0 0/0 0 0 0 0 0 0",
        "VDD P 34 40; IN:a M 5 19; IN:a M 22 22",
        "6 nets, IN:a",
    ),
    // No square outside has a net.
    (
        "0 0 5 5 5 5 5/2 3 0 0 0 0 0/0 0 0 0 0 0 0",
        "VDD P 34 40; IN:a M 4 19",
        "X4@4,19",
    ),
    (
        "0 0 5 5 5 5 5/2 3 0 0 0 0 0/0 0 0 0 0 0 0",
        "VDD P 34 40; IN:a P 7 20",
        "X4@7,20",
    ),
    (
        "0 0 5 5 5 5 5/2 3 0 0 0 0 0/0 0 0 0 0 0 0",
        "VDD P 34 40; IN:a M 7 7",
        "X4@7,7",
    ),
    (
        "0 0 5 5 5 5 5/2 3 0 0 0 0 0/0 0 0 0 0 0 0",
        "VDD P 34 40; IN:a M -1 20",
        "X4@-1,20",
    ),
    (
        "0 0 5 5 5 5 5/2 3 0 0 0 0 0/0 0 0 0 0 0 0",
        "VDD P 34 40; IN:a M 28 20",
        "X4@28,20",
    ),
    (
        "0 0 5 5 5 5 5/2 3 0 0 0 0 0/0 0 0 0 0 0 0",
        "VDD P 34 40; IN:a M 7 -1",
        "X4@7,-1",
    ),
    (
        "0 0 5 5 5 5 5/2 3 0 0 0 0 0/0 0 0 0 0 0 0",
        "VDD P 34 40; IN:a M 7 28",
        "X4@7,28",
    ),
    // Two ends of metal that lead away from each other.
    (
        "0 0 5 5 5 5 5/3 2 3 0 0 0 0/0 0 0 0 0 0 0",
        "VDD P 34 40; IN:a M 0 19; OUT:b M 27 22",
        "7 nets, IN:a, OUT:b",
    ),
    // Metal crosses poly, or meets it under a cut.
    (
        "6 0 5 5 5 5 5/9 3 0 0 0 0 0/5 0 0 0 0 0 0",
        "VDD P 34 40; IN:a M 20 20; IN:a M 7 20; OUT:b P 7 20; OUT:b P 7 7",
        "7 nets, IN:a, OUT:b",
    ),
    (
        "6 0 5 5 5 5 5/10 3 0 0 0 0 0/5 0 0 0 0 0 0",
        "VDD P 34 40; IN:a M 20 20; IN:a P 7 7",
        "6 nets, IN:a",
    ),
    // A ring.
    (
        "0 0 5 5 5 5 5/15 18 0 0 0 0 0/14 17 0 0 0 0 0",
        "VDD P 34 40; IN:a M 14 5; IN:a P 21 14",
        "6 nets, IN:a",
    ),
    // A pass transistor whose northern terminal meets metal. Poly parts the diffusion under it.
    (
        "0 0 5 5 5 5 5/21 3 0 0 0 0 0/26 0 0 0 0 0 0",
        "VDD P 34 40; IN:a M 20 20; IN:a D 6 14; IN:a D 6 8; IN:g P 6 7; OUT:b D 6 5",
        "8 nets, IN:a, IN:g, OUT:b, pass IN:g IN:a OUT:b",
    ),
    (
        "0 0 5 5 5 5 5/21 3 0 0 0 0 0/26 0 0 0 0 0 0",
        "VDD P 34 40; IN:a D 6 7",
        "X4@6,7",
    ),
    // Pass transistors in the first and in the second column, and one that lies on its side.
    (
        "23 3 5 5 5 5 5/26 0 0 0 0 0 0/24 0 0 0 0 0 0",
        "VDD P 34 40; IN:a M 20 34; IN:g P 0 20; OUT:b M 2 6",
        "8 nets, IN:a, IN:g, OUT:b, pass IN:g IN:a OUT:b",
    ),
    (
        "2 25 5 5 5 5 5/33 26 0 0 0 0 0/2 24 0 0 0 0 0",
        "VDD P 34 40; IN:a M 6 34; IN:g P 13 20; OUT:b M 6 6",
        "8 nets, IN:a, IN:g, OUT:b, pass IN:g IN:a OUT:b",
    ),
    (
        "6 0 5 5 5 5 5/53 49 0 0 0 0 0/0 30 0 0 0 0 0",
        "VDD P 34 40; IN:g P 6 30; IN:a D 0 19; OUT:b M 19 13",
        "8 nets, IN:g, IN:a, OUT:b, pass IN:g IN:a OUT:b",
    ),
    // A load whose gate meets its southern terminal by two contacts, and one whose gate meets nothing.
    (
        "25 0 5 5 5 5 5/27 8 0 0 0 0 0/22 17 0 0 0 0 0",
        "VDD M 2 34; IN:a P 34 40; OUT:z M 10 6",
        "7 nets, IN:a, OUT:z, load OUT:z",
    ),
    (
        "23 3 5 5 5 5 5/26 0 0 0 0 0 0/27 32 0 0 0 0 0",
        "VDD P 34 40",
        "X3@6,3",
    ),
];

/// Whole grids with all their labels.
const WHOLE: &[(&str, &str, &str)] = &[
    // Two pass transistors, one above the other, beside a column of poly: their common terminal is `x`, and between the
    // supply and the ground both clocks are their gates.
    (
        "26 4/26 4",
        "VDD D 7 26; GND D 7 1; PHI1 P 1 20; PHI2 P 1 6; RESET P 20 0; IN:x D 7 14",
        "6 nets, IN:x, pass PHI1 VDD IN:x, pass PHI2 IN:x GND",
    ),
    // A label on a channel in diffusion stands on nothing.
    ("26 4/26 4", "VDD D 7 20", "X4@7,20"),
    // An inverter: its load, its output, and a transistor to ground whose gate is the input.
    (
        "25 0 0 5 5 5/27 8 0 0 0 0/22 11 25 0 0 0/0 33 26 0 0 0/0 0 22 3 0 0",
        "VDD M 2 62; GND M 40 6; PHI1 P 48 68; PHI2 P 62 68; RESET P 76 68; IN:x P 22 20; OUT:z M 15 34",
        "7 nets, IN:x, OUT:z, load OUT:z, pass IN:x OUT:z GND",
    ),
];

/// Labels that stand in front of those of each row.
const GRIDS: &[(&str, &[(&str, &str, &str)])] = &[(FOUR, NETWORKS), ("", WHOLE)];

/// The type of pad names keeps a name as the role asks.
fn see_name(_pad: PadName)
    ensures { bears_name _pad.role ≡ is_some _pad.name }
{}

fn see_names(labels: &[Label])
    ensures { AreNamed labels.now }
{
    for label in labels {
        see_name(label.pad);
    }
}

/// The text that both are, or else both.
fn agreed(alloc: Global, one: String, other: &String) -> Result<String, Fail> {
    if one.as_str() == other.as_str() {
        return Ok(one);
    }
    Ok(format!(in alloc; "{one} but {other}")?)
}

/// What the grid comes to with these labels, by its squares, and by its tiles too where its squares stand for a network.
fn outcome(alloc: Global, grid: &Grid, labels: &[Label]) -> Result<String, Fail> {
    drawings_are_networks_or_refused::<Vec<Box2>>();
    see_names(labels);
    let boxes = grid.boxes(alloc)?;
    match extract_plain(alloc, &boxes, labels) {
        Err(fault) => fault_text(alloc, fault),
        Ok(network) => {
            let by_tiles = grid_network(alloc, grid, labels)?;
            agreed(
                alloc,
                network_text(alloc, &network)?,
                &network_text(alloc, &by_tiles)?,
            )
        }
    }
}

/// The labels of the mirror image of a grid over the diagonal from north-west to south-east.
fn mirrored(alloc: Global, grid: &Grid, labels: &[Label]) -> Result<Vec<Label>, Fail> {
    let height = 14 * i128::from(grid.rows());
    let width = 14 * i128::from(grid.cols());
    let mut images = Vec::new(alloc);
    for label in labels {
        images.push(Label {
            x: i64::try_from(height - 1 - i128::from(label.y))?,
            y: i64::try_from(width - 1 - i128::from(label.x))?,
            ..*label
        })?;
    }
    Ok(images)
}

/// What the grid of these tiles comes to with these labels, and its mirror image too where there is a network: a refusal stands
/// at another place there.
fn both_outcomes(alloc: Global, tiles: &str, labels: &str) -> Result<String, Fail> {
    let grid = laid(alloc, tiles)?.ok_or("no grid")?;
    let (_, labels) = shapes(alloc, labels)?;
    let upright = outcome(alloc, &grid, &labels)?;
    if !upright.as_str().contains("nets") {
        return Ok(upright);
    }
    let images = mirrored(alloc, &grid, &labels)?;
    let turned = outcome(alloc, &grid.transpose(alloc)?, &images)?;
    agreed(alloc, upright, &turned)
}

#[test]
fn grids_stand_for_networks(rt: HostRuntime) -> Result<(), Fail> {
    for (front, rows) in GRIDS {
        for (tiles, behind, wanted) in rows.iter() {
            let labels = format!(in rt.alloc(); "{front}; {behind}")?;
            let found = both_outcomes(rt.alloc(), tiles, labels.as_str())?;
            assert_eq!(rt; found.as_str(), *wanted, "{tiles}: {behind}");
        }
    }
    Ok(())
}

/// The boxes of the grid of these tiles, and those of its mirror image.
fn drawn(alloc: Global, tiles: &str) -> Result<(String, String), Fail> {
    let grid = laid(alloc, tiles)?.ok_or("no grid")?;
    let boxes = text_of(alloc, &grid.boxes(alloc)?)?;
    let image = grid.transpose(alloc)?;
    Ok((boxes, text_of(alloc, &image.boxes(alloc)?)?))
}

#[test]
fn draws_grids(rt: HostRuntime) -> Result<(), Fail> {
    for (tiles, wanted, turned) in DRAWN {
        let (boxes, images) = drawn(rt.alloc(), tiles)?;
        assert_eq!(rt; boxes.as_str(), *wanted, "{tiles}");
        assert_eq!(rt; images.as_str(), *turned, "{tiles}");
    }
    for tiles in APART {
        assert!(rt; laid(rt.alloc(), tiles)?.is_none(), "{tiles}");
    }
    Ok(())
}
