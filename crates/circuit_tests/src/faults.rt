//! Lists of pads and devices: what is wrong with them first.

use rx_text::{Name, PadName, Role};
use std::alloc::Global;
use std::test::Fail;
use switch_net::{Device, Net, Network, Pad, first_double_pad};

/// A number of nets, parts, and the fault in words, or `ok`.
const FAULTS: &[(u32, &str, &str)] = &[
    (
        7,
        "vdd 0, gnd 1, phi1 2, phi2 3, reset 4, in x 5, out z 6, pass 5 6 1, load 6",
        "ok",
    ),
    (
        7,
        "vdd 0, gnd 1, phi1 2, phi2 3, reset 4, in x 5, out x 6",
        "ok",
    ),
    // Nets that are not below the number of nets: pads are counted first, and then devices.
    (
        7,
        "vdd 0, gnd 1, phi1 2, phi2 3, reset 4, in x 5, out x 7",
        "part 6",
    ),
    (
        7,
        "vdd 0, gnd 1, gnd 7, phi2 3, reset 4, in x 5, out z 6",
        "part 2",
    ),
    (
        6,
        "vdd 0, gnd 1, phi1 2, phi2 3, reset 4, in x 5, out z 6, pass 7 6 1, load 6",
        "part 6",
    ),
    (
        7,
        "vdd 0, gnd 1, phi1 2, phi2 3, reset 4, in x 5, out z 6, pass 7 6 1, load 8",
        "part 7",
    ),
    (
        7,
        "vdd 0, gnd 1, phi1 2, phi2 3, reset 4, in x 5, out z 6, pass 5 7 1, load 6",
        "part 7",
    ),
    (
        7,
        "vdd 0, gnd 1, phi1 2, phi2 3, reset 4, in x 5, out z 6, pass 5 6 9, load 6",
        "part 7",
    ),
    (
        7,
        "vdd 0, gnd 1, phi1 2, phi2 3, reset 4, in x 5, out z 6, load 6, load 7",
        "part 8",
    ),
    (
        7,
        "vdd 0, gnd 1, phi1 2, phi1 3, reset 4, in x 5, out z 6",
        "pad 3",
    ),
    (
        7,
        "vdd 0, gnd 1, phi1 2, phi2 3, reset 4, in x 5, in x 6",
        "pad 6",
    ),
    (
        7,
        "vdd 0, gnd 1, phi1 2, phi2 3, reset 4, in x 5, in w 5",
        "pad 6",
    ),
    (
        7,
        "in w 0, gnd 1, phi1 2, phi2 3, reset 4, in x 5, out z 6",
        "role Vdd",
    ),
    (
        7,
        "vdd 0, in w 1, phi1 2, phi2 3, reset 4, in x 5, out z 6",
        "role Gnd",
    ),
    (
        7,
        "vdd 0, gnd 1, in w 2, phi2 3, reset 4, in x 5, out z 6",
        "role Phi1",
    ),
    (
        7,
        "vdd 0, gnd 1, phi1 2, in w 3, reset 4, in x 5, out z 6",
        "role Phi2",
    ),
    (
        7,
        "vdd 0, gnd 1, phi1 2, phi2 3, in w 4, in x 5, out z 6",
        "role Reset",
    ),
];

/// Pads, and the number of the first that repeats the name or the net of an earlier one.
const DOUBLES: &[(&str, Option<u32>)] = &[
    ("", None),
    (
        "vdd 0, gnd 1, phi1 2, phi2 3, reset 4, in a 5, in b 6, in b1 7, out a 8, out b 9",
        None,
    ),
    (
        "vdd 0, gnd 1, phi1 2, phi2 3, reset 4, in a 5, in b 6, in b1 7, out a 8, vdd 9",
        Some(9),
    ),
    (
        "vdd 0, gnd 1, phi1 2, phi2 3, reset 4, in a 5, in b 6, in b1 7, out a 8, out c 0",
        Some(9),
    ),
    (
        "vdd 0, gnd 1, phi1 2, phi2 3, reset 4, in a 5, in b 6, in b1 7, out a 8, in a 9",
        Some(9),
    ),
    (
        "out b 0, gnd 1, phi1 2, phi2 3, reset 4, in a 5, in b 6, in b1 7, out a 8, out b 9",
        Some(9),
    ),
    (
        "vdd 0, gnd 1, phi1 2, phi2 3, reset 4, in a 5, in a 6, in b1 7, out a 8, vdd 9",
        Some(6),
    ),
    (
        "vdd 0, gnd 1, phi1 2, out c 0, reset 4, in a 5, in b 6, in b1 7, out a 8, out c 1",
        Some(3),
    ),
    (
        "vdd 0, vdd 0, vdd 0, phi2 3, reset 4, in a 5, in b 6, in b1 7, out a 8, out b 9",
        Some(1),
    ),
];

fn name_of(words: &[&str]) -> Option<PadName> {
    match words {
        ["vdd"] => Some(PadName::plain(Role::Vdd)),
        ["gnd"] => Some(PadName::plain(Role::Gnd)),
        ["phi1"] => Some(PadName::plain(Role::Phi1)),
        ["phi2"] => Some(PadName::plain(Role::Phi2)),
        ["reset"] => Some(PadName::plain(Role::Reset)),
        ["in", name] => Some(PadName::input(Name::new(name.as_bytes())?)),
        ["out", name] => Some(PadName::output(Name::new(name.as_bytes())?)),
        _ => None,
    }
}

fn net(text: &str) -> Result<Net, Fail> {
    Ok(Net(text.parse::<u32>()?))
}

/// The pads and the devices of the text.
fn parts(alloc: Global, text: &str) -> Result<(Vec<Pad>, Vec<Device>), Fail> {
    let mut pads = Vec::new(alloc);
    let mut devices = Vec::new(alloc);
    for part in text.split(", ") {
        let words: Vec<&str> = part.split(' ').collect(alloc)?;
        match words.as_slice() {
            ["pass", gate, a, b] => devices.push(Device::Pass {
                gate: net(gate)?,
                a: net(a)?,
                b: net(b)?,
            })?,
            ["load", loaded] => devices.push(Device::Load { net: net(loaded)? })?,
            [name @ .., at] if !name.is_empty() => pads.push(Pad {
                name: name_of(name).ok_or("no pad")?,
                net: net(at)?,
            })?,
            _ => {}
        }
    }
    Ok((pads, devices))
}

/// The fault of the parts in words, or `ok`.
fn fault_of(alloc: Global, nets: u32, text: &str) -> Result<String, Fail> {
    let (pads, devices) = parts(alloc, text)?;
    if pads.len() > 100 {
        return Err("too many pads".into());
    }
    match Network::new(nets, pads, devices) {
        Ok(_) => Ok("ok".to_string(alloc)?),
        Err(fault) => Ok(format!(in alloc; "{fault} ")?),
    }
}

#[test]
fn names_the_first_fault(rt: HostRuntime) -> Result<(), Fail> {
    for (nets, text, wanted) in FAULTS {
        let fault = fault_of(rt.alloc(), *nets, text)?;
        assert!(rt; fault.as_str().contains(wanted), "{text}: {fault}");
    }
    Ok(())
}

#[test]
fn finds_the_first_pad_that_repeats_another(rt: HostRuntime) -> Result<(), Fail> {
    for (text, wanted) in DOUBLES {
        let (pads, _) = parts(rt.alloc(), text)?;
        assert!(rt; pads.len() <= 100);
        assert_eq!(rt; first_double_pad(rt.alloc(), &pads)?, *wanted, "{text}");
    }
    Ok(())
}
