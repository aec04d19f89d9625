//! Drawings at random, of which the sweep over boxes and the flood over squares make the same networks, or refuse alike.

ghost use Rattle.std.specs.Prelude.{◌<◌};

use layout_words::{fault_text, network_text, shapes};
use nmos_extract::extract;
use nmos_model::{PlainFault, extract_plain};
use std::alloc::Global;
use std::test::Fail;
use switch_net::{Device, Network};

/// Five labelled squares in the east.
const FIVE: &str =
    "M 100 0 104 4; VDD M 100 0; M 110 0 114 4; GND M 110 0; M 120 0 124 4; PHI1 M 120 0; M 130 0 134 4; PHI2 M 130 0; M 140 0 144 4; RESET M 140 0";

/// Parts of drawings: the layers and the edges of their boxes.
const PARTS: [&[(&str, [i8; 4])]; 11] = [
    // A transistor upright, one that lies, and a load with its implant.
    &[("D", [0, -3, 3, 5]), ("P", [-2, 0, 5, 2])],
    &[("D", [-3, 0, 5, 3]), ("P", [0, -2, 2, 5])],
    &[
        ("D", [0, -3, 2, 9]),
        ("P", [-1, 0, 3, 5]),
        ("I", [-2, -1, 4, 6]),
    ],
    // Wires, contacts, and implant by itself.
    &[("M", [0, 0, 12, 3])],
    &[("M", [0, 0, 3, 12])],
    &[("P", [0, 0, 9, 2])],
    &[("D", [0, 0, 2, 7])],
    &[("C", [0, 0, 2, 2]), ("M", [-1, -1, 3, 3])],
    &[
        ("C", [0, 0, 2, 2]),
        ("M", [-1, -1, 3, 3]),
        ("P", [-1, -1, 3, 3]),
    ],
    &[("C", [0, 0, 1, 1])],
    &[("I", [0, 0, 4, 4])],
];

/// How many drawings there are of each number of parts.
const DRAWINGS: u64 = 60;

/// Drawings have fewer parts than this.
const PARTS_END: u64 = 9;

/// The next number at random, below the bound.
fn random(state: &mut u64, bound: u8) -> u8
    requires { 0 < bound }
    ensures { result < bound }
{
    *state = state.wrapping_mul(1_103_515_245).wrapping_add(12_345) % 0x8000_0000;
    (*state / 0x1_0000 % u64::from(bound)) as u8
}

/// Where an edge lies that is moved so far.
fn sum(edge: i8, way: u8) -> i16 {
    i16::from(edge) + i16::from(way)
}

/// The text of a box of a part that is moved.
fn moved(alloc: Global, layer: &str, edges: [i8; 4], x: u8, y: u8) -> Result<String, Fail> {
    let [x1, y1, x2, y2] = edges;
    let (x1, y1) = (sum(x1, x), sum(y1, y));
    let (x2, y2) = (sum(x2, x), sum(y2, y));
    Ok(format!(in alloc; "; {layer} {x1} {y1} {x2} {y2}")?)
}

/// Adds a part at random, somewhere in a small field.
fn add_part(alloc: Global, state: &mut u64, text: &mut String) -> Result<(), Fail> {
    let part = PARTS.get(usize::from(random(state, 11))).ok_or("no part")?;
    let (x, y) = (random(state, 24), random(state, 24));
    for (layer, edges) in part.iter() {
        let moved = moved(alloc, *layer, *edges, x, y)?;
        text.push_str(moved.as_str())?;
    }
    Ok(())
}

/// The five squares and so many parts at random.
fn drawing(alloc: Global, state: &mut u64, parts: u64) -> Result<String, Fail> {
    let mut text = FIVE.to_string(alloc)?;
    for _ in 0..parts {
        add_part(alloc, state, &mut text)?;
    }
    Ok(text)
}

/// Whether the device is a load, and its nets.
fn nets_of(device: Device) -> (bool, [u32; 3]) {
    match device {
        Device::Load { net } => (true, [net.0; 3]),
        Device::Pass { gate, a, b } => (false, [gate.0, a.0, b.0]),
    }
}

/// Adds the numbers of the nets of two pads or devices, one beside the other.
fn push_pairs(pairs: &mut Vec<(u32, u32)>, one: &[u32], other: &[u32]) -> Result<(), Fail> {
    for (a, b) in one.iter().zip(other) {
        pairs.push((*a, *b))?;
    }
    Ok(())
}

/// The networks have as many nets, pads and devices.
fn are_as_large(one: &Network, other: &Network) -> bool {
    one.nets() == other.nets()
        && one.pads().len() == other.pads().len()
        && one.devices().len() == other.devices().len()
}

/// The numbers of each two nets that stand at one place of two networks, or `None` where these differ in more than the numbers.
fn paired(alloc: Global, one: &Network, other: &Network) -> Result<Option<Vec<(u32, u32)>>, Fail> {
    let mut pairs = Vec::new(alloc);
    for (a, b) in one.pads().iter().zip(other.pads()) {
        if a.name != b.name {
            return Ok(None);
        }
        pairs.push((a.net.0, b.net.0))?;
    }
    for (a, b) in one.devices().iter().zip(other.devices()) {
        let (load, nets) = nets_of(*a);
        let (other_load, other_nets) = nets_of(*b);
        if load != other_load {
            return Ok(None);
        }
        push_pairs(&mut pairs, &nets, &other_nets)?;
    }
    Ok(Some(pairs))
}

/// No number has two partners.
fn is_function(mut pairs: Vec<(u32, u32)>) -> Result<bool, Fail> {
    pairs.sort()?;
    Ok(
        pairs.windows(2).all(|two| match two {
            [one, other] => one.0 != other.0 || one.1 == other.1,
            _ => true,
        }),
    )
}

/// The networks differ in the numbers of their nets alone.
fn are_alike(alloc: Global, one: &Network, other: &Network) -> Result<bool, Fail> {
    if !are_as_large(one, other) {
        return Ok(false);
    }
    let Some(pairs) = paired(alloc, one, other)? else {
        return Ok(false);
    };
    let back = pairs.iter().map(|pair| (pair.1, pair.0)).collect(alloc)?;
    Ok(is_function(pairs)? && is_function(back)?)
}

/// The extractors make the same network.
const NETWORK: &str = "network";

/// The extractors do not agree.
const DIFFER: &str = "differ";

/// What both extractors make of the drawing where they agree: a network, or a refusal; and where they differ, both.
fn outcome(alloc: Global, drawing: &str) -> Result<String, Fail> {
    let (boxes, labels) = shapes(alloc, drawing)?;
    let by_squares = extract_plain(alloc, &boxes, &labels);
    let by_boxes = extract(alloc, &boxes, &labels);
    match (by_squares, by_boxes) {
        (Ok(one), Ok(other)) => {
            let alike = are_alike(alloc, &one, &other)?;
            Ok(if alike { NETWORK } else { DIFFER }.to_string(alloc)?)
        }
        (Err(one), Err(other)) => {
            let one = fault_text(alloc, one)?;
            let other = fault_text(alloc, PlainFault::from(other))?;
            Ok(if one.as_str() == other.as_str() {
                one
            } else {
                DIFFER.to_string(alloc)?
            })
        }
        _ => Ok(DIFFER.to_string(alloc)?),
    }
}

#[test]
fn sweeps_as_squares_flood(rt: HostRuntime) -> Result<(), Fail> {
    let mut state = 1;
    let mut networks = 0u32;
    for parts in 0..PARTS_END {
        for _ in 0..DRAWINGS {
            let drawing = drawing(rt.alloc(), &mut state, parts)?;
            let found = outcome(rt.alloc(), drawing.as_str())?;
            assert!(rt; found.as_str() != DIFFER, "{drawing}");
            if found.as_str() == NETWORK {
                networks = networks.wrapping_add(1);
            }
        }
    }
    // There are networks of few parts, and refusals where one of many parts is a load without a supply.
    assert!(rt; (100..=440).contains(&networks), "{networks}");
    Ok(())
}

/// Drawings behind the five squares that have too many squares to list, and what they come to.
const VAST: &[(&str, &str)] = &[
    ("M 0 20 5000000000 5000000020", "6 nets"),
    (
        "D -1000000000000 -5 1000000000000 -3; P -7 -1000000000000 7 1000000000000; IN:a D -9 -4; OUT:b D 9 -4; IN:g P 0 1",
        "8 nets, IN:a, OUT:b, IN:g, pass IN:g IN:a OUT:b",
    ),
    (
        "D -1099511627776 -1099511627776 1099511627776 1099511627776; P 0 0 1 1",
        "X2@0,0",
    ),
];

#[test]
fn lists_no_squares(rt: HostRuntime) -> Result<(), Fail> {
    for (drawing, wanted) in VAST {
        let whole = format!(in rt.alloc(); "{FIVE}; {drawing}")?;
        let (boxes, labels) = shapes(rt.alloc(), whole.as_str())?;
        let found = match extract(rt.alloc(), &boxes, &labels) {
            Ok(network) => network_text(rt.alloc(), &network)?,
            Err(fault) => fault_text(rt.alloc(), PlainFault::from(fault))?,
        };
        assert_eq!(rt; found.as_str(), *wanted, "{drawing}");
    }
    Ok(())
}
