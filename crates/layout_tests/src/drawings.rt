//! Small drawings, and the networks that their squares stand for, or their refusals.

use layout_words::{fault_text, network_text, shapes};
use nmos_model::extract_plain;
use std::alloc::Global;
use std::test::Fail;

/// The clocks and the reset in the east, each on a square of its own.
const CLOCKS: &str =
    "M 120 0 124 4; PHI1 M 120 0; M 130 0 134 4; PHI2 M 130 0; M 140 0 144 4; RESET M 140 0";

/// The same and the supplies.
const FIVE: &str =
    "M 100 0 104 4; VDD M 100 0; M 110 0 114 4; GND M 110 0; M 120 0 124 4; PHI1 M 120 0; M 130 0 134 4; PHI2 M 130 0; M 140 0 144 4; RESET M 140 0";

/// Five squares, and a depletion device that is no load.
const ODD_LOAD: &str =
    "M 100 0 104 4; M 110 0 114 4; M 120 0 124 4; M 130 0 134 4; M 140 0 144 4; D 0 0 4 20; P -2 9 6 11; I -1 8 5 12";

/// Squares of metal for which the labels of a row ask.
const ISLES: &str = "M 200 0 204 4; M 210 0 214 4; M 220 0 224 4";

/// Two drawings that stand in front of each of these, which have boxes and labels too, and what they come to together.
const DRAWINGS: &[(&str, &str, &[(&str, &str)])] = &[
    (FIVE, "", JOINED),
    (FIVE, "", CHANNELS),
    (FIVE, "", LABELS),
    (FIVE, ISLES, NAMES),
    (CLOCKS, "", DEVICES),
    (CLOCKS, "", ODD_CHANNELS),
    (ODD_LOAD, "", MISSING),
];

/// Which squares are joined.
const JOINED: &[(&str, &str)] = &[
    ("", "5 nets"),
    // Corners do not join, and sides do.
    ("M 0 0 4 4; M 4 4 8 8", "7 nets"),
    ("M 0 0 4 4; M 4 0 8 4", "6 nets"),
    ("M 0 0 4 4; M 5 0 8 4", "7 nets"),
    // Layers that cross are joined under a cut alone.
    ("M 0 0 4 4; P 1 -2 3 6", "7 nets"),
    ("M 0 0 4 4; P 1 -2 3 6; C 1 1 3 3", "6 nets"),
    // A cut without metal joins nothing, and a cut beside the crossing neither.
    ("P 1 -2 3 6; C 1 1 3 3", "6 nets"),
    ("M 0 0 4 4; P 1 -2 3 6; C 1 4 3 6", "7 nets"),
    ("M 0 0 4 4; D 1 -2 3 6; C 1 1 3 3", "6 nets"),
    // Neither cuts nor implant conduct.
    ("C 1 1 3 3; I 0 0 9 9", "5 nets"),
];

/// Poly over diffusion of few squares, or the region of it that is refused.
const CHANNELS: &[(&str, &str)] = &[
    ("D -1 0 2 1", "6 nets"),
    // Terminals to the left and right, and above and below.
    (
        "D -1 0 2 1; P 0 -1 1 2; IN:a D -1 0; OUT:b D 1 0; IN:g P 0 -1",
        "8 nets, IN:a, OUT:b, IN:g, pass IN:g IN:a OUT:b",
    ),
    (
        "D 0 -2 3 5; P -1 0 4 2; IN:a D 0 -2; OUT:b D 0 4; IN:g P -1 0",
        "8 nets, IN:a, OUT:b, IN:g, pass IN:g OUT:b IN:a",
    ),
    // Two in one row.
    (
        "D -1 0 2 1; P 0 -1 1 2; D 2 0 6 1; P 3 -1 5 2; IN:a D -1 0; OUT:b D 1 0; OUT:c D 5 0; IN:g P 0 -1; IN:h P 3 -1",
        "10 nets, IN:a, OUT:b, OUT:c, IN:g, IN:h, pass IN:g IN:a OUT:b, pass IN:h OUT:b OUT:c",
    ),
    // Two that touch in a corner.
    (
        "D -1 0 2 1; D 1 1 2 3; P 0 -1 1 1; P 1 1 3 2; IN:a D -1 0; OUT:b D 1 0; OUT:c D 1 2; IN:g P 0 -1; IN:h P 2 1",
        "10 nets, IN:a, OUT:b, OUT:c, IN:g, IN:h, pass IN:g IN:a OUT:b, pass IN:h OUT:c OUT:b",
    ),
    // Under implant, and partly under it, with and without the first square.
    ("D 0 -2 3 5; P -1 0 4 2; I 0 0 3 2", "X3@0,0"),
    ("D 0 -2 3 5; P -1 0 4 2; I -1 -1 2 3", "X1@0,0"),
    ("D 0 -2 3 5; P -1 0 4 2; I 1 1 4 3", "X1@0,0"),
    // Regions of the shape of an L, with a hole, and with a square to the left of the first.
    ("D 0 10 4 14; P 0 10 2 11; P 0 11 1 13", "X1@0,10"),
    (
        "D 0 10 4 14; P 0 10 2 11; P 0 11 1 13; P 2 10 3 13; P 1 12 2 13",
        "X1@0,10",
    ),
    ("D 0 10 4 14; P 1 10 2 12; P 0 11 1 12", "X1@1,10"),
    // The second region is odd.
    (
        "D -1 0 2 1; P 0 -1 1 2; D 0 10 4 14; P 0 10 2 11; P 0 11 1 13",
        "X1@0,10",
    ),
    // Poly that ends inside the diffusion, below and above.
    ("D 0 0 5 3; P 2 1 3 5", "X2@2,1"),
    ("D 0 0 5 3; P 2 -2 3 2", "X2@2,0"),
    // Diffusion on one side alone, and on no side.
    ("D 0 0 3 1; P 0 -1 1 2", "X2@0,0"),
    ("D -1 0 2 1; P 0 -1 3 2", "X2@0,0"),
    ("D 0 0 1 1; P 0 -1 1 2", "X2@0,0"),
    // Diffusion along a part of a side.
    ("D -1 0 2 1; D -1 1 1 2; P 0 -1 1 3", "X2@0,0"),
    // A region that is no rectangle comes before one without terminals, wherever they lie.
    (
        "D 0 0 3 1; P 0 -1 1 2; D 0 10 4 14; P 0 10 2 11; P 0 11 1 13",
        "X1@0,10",
    ),
];

/// Labels on nothing, and labels that disagree.
const LABELS: &[(&str, &str)] = &[
    // On nothing, on a layer that does not conduct, and a name with two labels on one net.
    ("IN:x M 0 0", "X4@0,0"),
    ("M 0 0 4 4; C 1 1 3 3; IN:x C 1 1", "X4@1,1"),
    ("M 0 0 4 4; IN:x M 0 0; IN:x M 3 3", "6 nets, IN:x"),
    // Two names on one net, and one name on two.
    ("M 0 0 4 4; IN:x M 0 0; OUT:x M 3 3", "X5@3,3"),
    ("M 0 0 4 4; M 6 0 8 2; IN:x M 0 0; IN:x M 6 0", "X5@6,0"),
    ("M 0 0 4 4; VDD M 2 1", "X5@2,1"),
    // A label on nothing comes before labels that disagree.
    (
        "M 0 0 4 4; IN:x M 0 0; OUT:x M 3 3; OUT:x M 80 80",
        "X4@80,80",
    ),
];

/// Labels of the isles and of other squares.
const NAMES: &[(&str, &str)] = &[
    ("", "8 nets"),
    ("IN:x M 200 0; VDD M 103 3; IN:x M 203 3", "8 nets, IN:x"),
    // An input and an output of one name are two pads.
    ("IN:x M 200 0; OUT:x M 210 0", "8 nets, IN:x, OUT:x"),
    ("OUT:b M 220 0; IN:a M 200 0", "8 nets, OUT:b, IN:a"),
    ("IN:a M 210 0; IN:ab M 200 0", "8 nets, IN:a, IN:ab"),
    ("IN:x M 200 0; IN:x M 210 0", "X5@210,0"),
    ("IN:x M 200 0; IN:y M 200 1", "X5@200,1"),
    ("OUT:x M 130 0", "X5@130,0"),
    ("GND M 210 0; IN:x M 100 0", "X5@210,0"),
    ("IN:x M 200 0; IN:x M 210 0; IN:z M 300 0", "X4@300,0"),
    ("IN:x M 199 0; IN:z M 300 0", "X4@199,0"),
];

/// Devices, and depletion devices that are no loads.
const DEVICES: &[(&str, &str)] = &[
    // Poly over diffusion parts it: a pass transistor, from the diffusion above to that below.
    (
        "D 0 0 4 20; P -2 9 6 11; GND D 0 0; VDD D 0 19; IN:x P 5 9",
        "6 nets, IN:x, pass IN:x VDD GND",
    ),
    // From left to right.
    (
        "D 0 0 20 4; P 9 -2 11 6; VDD D 0 0; GND D 19 3; IN:x P 9 5",
        "6 nets, IN:x, pass IN:x VDD GND",
    ),
    // Under implant, with its gate on the net below it, above it, to the left and to the right: a load.
    (
        "D 0 0 4 20; P -2 9 6 11; I -1 8 5 12; P 6 2 10 11; M 0 2 10 4; C 1 2 3 4; C 7 2 9 4; M 50 0 54 4; OUT:x D 0 0; VDD D 0 19; GND M 50 0",
        "6 nets, OUT:x, load OUT:x",
    ),
    (
        "D 0 0 4 20; P -2 9 6 11; I -1 8 5 12; P 6 9 10 18; M 0 16 10 18; C 1 16 3 18; C 7 16 9 18; M 50 0 54 4; OUT:x D 0 19; VDD D 0 0; GND M 50 0",
        "6 nets, OUT:x, load OUT:x",
    ),
    (
        "D 0 0 20 4; P 9 -2 11 6; I 8 -1 12 5; P 2 6 11 10; M 2 0 4 10; C 2 1 4 3; C 2 7 4 9; M 50 0 54 4; OUT:x D 0 0; VDD D 19 3; GND M 50 0",
        "6 nets, OUT:x, load OUT:x",
    ),
    (
        "D 0 0 20 4; P 9 -2 11 6; I 8 -1 12 5; P 9 6 18 10; M 16 0 18 10; C 16 1 18 3; C 16 7 18 9; M 50 0 54 4; OUT:x D 19 3; VDD D 0 0; GND M 50 0",
        "6 nets, OUT:x, load OUT:x",
    ),
    // The first of them without implant.
    (
        "D 0 0 4 20; P -2 9 6 11; P 6 2 10 11; M 0 2 10 4; C 1 2 3 4; C 7 2 9 4; M 50 0 54 4; OUT:x D 0 0; VDD D 0 19; GND M 50 0",
        "6 nets, OUT:x, pass OUT:x VDD OUT:x",
    ),
    // Two channels of one gate.
    (
        "D 0 0 4 20; P -2 9 6 11; P -2 14 6 16; P 6 9 8 16; GND D 0 0; VDD D 0 19; IN:x P 5 9; OUT:x D 0 12",
        "7 nets, IN:x, OUT:x, pass IN:x OUT:x GND, pass IN:x VDD OUT:x",
    ),
    // A label on a channel in diffusion stands on nothing.
    (
        "D 0 0 4 20; P -2 9 6 11; GND D 0 0; VDD D 0 19; OUT:x D 0 9",
        "X4@0,9",
    ),
    ("M 0 0 4 4; GND M 0 0", "X6"),
    // A missing pad comes before a depletion device that is no load.
    (
        "D 0 0 4 20; P -2 9 6 11; I -1 8 5 12; GND D 0 0; IN:x P 5 9",
        "X6",
    ),
    // Its gate is on the net of no terminal.
    (
        "D 0 0 4 20; P -2 9 6 11; I -1 8 5 12; GND D 0 0; VDD D 0 19; IN:x P 5 9",
        "X3@0,9",
    ),
    // Its other terminal is on the ground.
    (
        "D 0 0 4 20; P -2 9 6 11; I -1 8 5 12; P 6 2 10 11; M 0 2 10 4; C 1 2 3 4; C 7 2 9 4; M 50 0 54 4; OUT:x D 0 0; GND D 0 19; VDD M 50 0",
        "X3@0,9",
    ),
    // The first of two that are no loads, behind an enhancement device.
    (
        "D 0 0 4 20; P -2 9 6 11; D 10 0 14 20; P 8 12 16 14; I 9 11 15 15; D 20 0 24 20; P 18 14 26 16; I 19 13 25 17; VDD D 0 0; GND D 0 19",
        "X3@10,12",
    ),
];

/// Regions that are no channels; labels come after them.
const ODD_CHANNELS: &[(&str, &str)] = &[
    // L-shaped, and with a hole.
    ("D 0 0 8 8; P 2 2 4 6; P 4 2 6 4; IN:x M 80 80", "X1@2,2"),
    (
        "D 0 0 10 10; P 2 2 8 4; P 2 6 8 8; P 2 4 4 6; P 6 4 8 6; IN:x M 80 80",
        "X1@2,2",
    ),
    // Partly under implant.
    (
        "D 0 0 4 20; P -2 9 6 11; I 2 9 4 11; IN:x M 80 80",
        "X1@0,9",
    ),
    // The second of two.
    (
        "D 0 0 4 20; P -2 9 6 11; D 0 30 8 38; P 2 32 4 36; P 4 32 6 34; IN:x M 80 80",
        "X1@2,32",
    ),
    // At the edge of its diffusion, which lies below it alone.
    ("D 0 0 4 10; P -2 8 6 12; IN:x M 80 80", "X2@0,8"),
    // Diffusion on three sides.
    ("D 0 0 8 20; P 2 9 12 11; IN:x M 80 80", "X2@2,9"),
    // Diffusion along a part of the side above it.
    (
        "D 0 0 4 11; D 0 11 2 20; P -2 9 6 11; IN:x M 80 80",
        "X2@0,9",
    ),
    // An odd channel comes before odd terminals of an earlier one.
    (
        "D 0 0 4 10; P -2 8 6 12; D 0 30 8 38; P 2 32 4 36; P 4 32 6 34; IN:x M 80 80",
        "X1@2,32",
    ),
    // Channels that touch in a corner are two; the lower one has diffusion on one side alone.
    (
        "D 0 0 2 2; D 2 2 4 4; P 0 0 2 2; P 2 2 4 4; IN:x M 80 80",
        "X2@0,0",
    ),
];

/// Labels of four of the five squares: a missing pad comes before a depletion device that is no load.
const MISSING: &[(&str, &str)] = &[
    (
        "GND M 110 0; PHI1 M 120 0; PHI2 M 130 0; RESET M 140 0",
        "X6",
    ),
    (
        "VDD M 100 0; PHI1 M 120 0; PHI2 M 130 0; RESET M 140 0",
        "X6",
    ),
    (
        "VDD M 100 0; GND M 110 0; PHI2 M 130 0; RESET M 140 0",
        "X6",
    ),
    (
        "VDD M 100 0; GND M 110 0; PHI1 M 120 0; RESET M 140 0",
        "X6",
    ),
    ("VDD M 100 0; GND M 110 0; PHI1 M 120 0; PHI2 M 130 0", "X6"),
    (
        "VDD M 100 0; GND M 110 0; PHI1 M 120 0; PHI2 M 130 0; RESET M 140 0",
        "X3@0,9",
    ),
];

/// Drawings of nothing, and of more squares than are looked at.
const WHOLE: &[(&str, &str)] = &[
    ("", "X6"),
    ("M 0 0 2000 2000", "X6"),
    ("M 0 0 2001 2000", "too wide"),
];

/// What the drawing comes to.
fn outcome(alloc: Global, drawing: &str) -> Result<String, Fail> {
    let (boxes, labels) = shapes(alloc, drawing)?;
    match extract_plain(alloc, &boxes, &labels) {
        Ok(network) => network_text(alloc, &network),
        Err(fault) => fault_text(alloc, fault),
    }
}

#[test]
fn drawings_stand_for_networks(rt: HostRuntime) -> Result<(), Fail> {
    for (one, other, rows) in DRAWINGS {
        for (drawing, wanted) in rows.iter() {
            let whole = format!(in rt.alloc(); "{one}; {other}; {drawing}")?;
            let found = outcome(rt.alloc(), whole.as_str())?;
            assert_eq!(rt; found.as_str(), *wanted, "{drawing}");
        }
    }
    Ok(())
}

#[test]
fn looks_at_four_million_squares(rt: HostRuntime) -> Result<(), Fail> {
    for (drawing, wanted) in WHOLE {
        assert_eq!(rt;
            outcome(rt.alloc(), drawing)?.as_str(),
            *wanted,
            "{drawing}"
        );
    }
    Ok(())
}
