//! CIF texts, and what they draw.

use cif_read::{CifFault, Drawing, ReadCifFault, flatten, read_cif};
use layout_words::{shapes, text_of};
use rx_text::Place;
use std::alloc::Global;
use std::process::Abort;
use std::test::Fail;

/// Texts, and the boxes and labels that they draw: the bytes between commands, boxes, scales.
const BOXES: &[(&str, &str)] = &[
    ("E", ""),
    ("  E nd of it", ""),
    ("E\n\n", ""),
    (";;; (a (nested) comment); E", ""),
    ("(a comment; with (two) semicolons;);E", ""),
    ("(E;L XX;DS 1 0);E", ""),
    ("();( ) ;(()()) ;E", ""),
    ("(a)b;E", ""),
    ("0;9 (;94;;E", ""),
    ("L NM; B 800 800 400 400; E", "M 0 0 4 4"),
    ("LNM;B800 800 400 400;E", "M 0 0 4 4"),
    ("L\tNM\r\n;B\n800 800,400.400_;E  \n end", "M 0 0 4 4"),
    ("L NM;B800\u{0}800\u{e9}400\u{7f}400;E\u{1f}", "M 0 0 4 4"),
    ("L NM;B 0800 00800 0400 400; E", "M 0 0 4 4"),
    ("LNM;B800 400 400 200 0 1;E", "M 1 -1 3 3"),
    ("LNM;B800 400 400 200 -3 0;E", "M 0 0 4 2"),
    ("L NM;B 800 400 200 400 0 -5;E", "M 0 0 2 4"),
    ("L NM;B800 800 400,-400;E", "M 0 -4 4 0"),
    ("L NM;B 400 400 -0 0; E", "M -1 -1 1 1"),
    ("L NM; B 200 400 100 200;E", "M 0 0 1 2"),
    ("L NM; B 800 800 400 400;E nd", "M 0 0 4 4"),
    ("LNM;b 800 says more;B800+800,400.400;E", "M 0 0 4 4"),
    (
        "L ND;B 200 200 100 100;L NP;B 200 200 100 100;L NM;B 200 200 100 100;L NC;B 200 200 100 100;L NI;B 200 200 100 100;E",
        "D 0 0 1 1; P 0 0 1 1; M 0 0 1 1; C 0 0 1 1; I 0 0 1 1",
    ),
    (
        "L NP; 9 L NM; B 200 200 100 100; 94 other 1 2; E",
        "P 0 0 1 1",
    ),
    (
        "DS 1 100 1; L NM; B 8 28 14 14; DF; C 1 T 0 0; E",
        "M 5 0 9 14",
    ),
    ("DS 1 05 1; DF; E", ""),
    ("DS 0;L NM;B 200 200 100 100;DF;C 00;E", "M 0 0 1 1"),
    ("DS 1 3 2; L NM; B 400 400 200 200; DF; C 1; E", "M 0 0 3 3"),
    (
        "DS 1 1 3; L NM; B 1200 1200 600 600; DF; C 1; E",
        "M 0 0 2 2",
    ),
    ("DS 1 2 3; L NM; B 300 300 150 150; DF; C 1; E", "M 0 0 1 1"),
    ("DS 1 400 1;L NM;B 1 1 1 1;DF;C 1;E", "M 1 1 3 3"),
    (
        "DS 1 2 1; L NM; B 100 100 50 50; DF; DS 2 3 1; C 1 T 200 0; DF; C 2 T 200 0; E",
        "M 4 0 5 1",
    ),
    ("DS 1 200 1; L NM; B 2 2 1099511627775 1; DF; E", ""),
    (
        "DS 1 200 1;L NM;B 2 2 1 1;DF;DS 2 200 1;C 1 T 1099511627775 0;DF;E",
        "",
    ),
    (
        "DS 1 200 1;L NM;B 2 2 1 1;DF;DS 2 200 1;C 1 T 0 -1099511627776;DF;C 2;E",
        "M 0 -1099511627776 2 -1099511627774",
    ),
    (
        "DS 1; L NM; B 1099511627600 400 549755813800 200; DF; E",
        "",
    ),
    (
        "DS 1099511627776 1099511627776 1099511627776;DF;C 1099511627776;E",
        "",
    ),
];

/// Texts, and the boxes and labels that they draw: calls, layers, polygons, wires, labels.
const CALLS: &[(&str, &str)] = &[
    (
        "DS 1 2 1; L NM; B 400 800 200 400; DF; C 1 M X R 0 1 T 2800 0; E",
        "M 6 -4 14 0",
    ),
    (
        "DS1;LNM;B400 800 200 400;DF;C1MXR0 1T2800 0;C1;E",
        "M 10 -2 14 0; M 0 0 2 4",
    ),
    (
        "DS1;LNM;B400 800 200 400;DF;C1MX;C1M Y;C1R0 1;C1R 0 -7;C1R-3 0;C 1 R 9 0;E",
        "M -2 0 0 4; M 0 -4 2 0; M -4 0 0 2; M 0 -2 4 0; M -2 -4 0 0; M 0 0 2 4",
    ),
    (
        "DS1;LNM;B400 800 200 400;DF;C1T400 0M X;C1MXT400 0;C1R0 1MX;C1MXR0 1;C1T-200 0;E",
        "M -4 0 -2 4; M 0 0 2 4; M 0 0 4 2; M -4 -2 0 0; M -1 0 1 4",
    ),
    (
        "DS 1; L NM; B 200 200 100 100; DF; DS 2; C 1 T 200 0; L NP; B 200 200 100 100; DF; C 2 R 0 1; E",
        "M -1 1 0 2; P -1 0 0 1",
    ),
    (
        "DS 1;L NM;B 200 200 100 100;DF;DS 2;C 1 T 0 200;C 1 M X;DF;DS 3;C 2 T 400 0;C 2 R 0 1;DF;C 3;C 3 M Y;E",
        "M 2 1 3 2; M 1 0 2 1; M -2 0 -1 1; M -1 -1 0 0; M 2 -2 3 -1; M 1 -1 2 0; M -2 -1 -1 0; M -1 0 0 1",
    ),
    ("DS 1; DF; C 1; E", ""),
    ("DS 1;L NM;B 200 200 100 100;DF;E", ""),
    ("DS 1;DF;DS 2;C 1;C 1 T 200 0;DF;C 2;C 1;E", ""),
    (
        "DS 1;DF;DS 2;C 1;L NM;B 200 200 100 100;DF;C 2;E",
        "M 0 0 1 1",
    ),
    // A definition begins with no layer, and the outer one holds behind it.
    (
        "L NM; DS 1; L NP; DF; B 200 200 100 100; C 1; E",
        "M 0 0 1 1",
    ),
    (
        "L NM;DS 1;L NP;B 200 200 100 100;DF;DS 2;L NI;C 1;DF;B 400 400 200 200;C 2;E",
        "M 0 0 2 2; P 0 0 1 1",
    ),
    (
        "L NM; P 0 0 800 0 800 400 400 400 400 800 0 800; E",
        "M 0 0 4 2; M 0 2 2 4",
    ),
    ("L NM; P 0 0 0 400 0 800 0 400; E", ""),
    ("L NM; P 0 0 0 400 -400 400,-400 0; E", "M -2 0 0 2"),
    (
        "DS 1 2 1;L NP;P0 0 100 0 100 100 0 100;DF;C 1;E",
        "P 0 0 1 1",
    ),
    ("DS 1;L NM;P 0 0 0 400 0 800 0 400;DF;DS 2;C 1;DF;C 2;E", ""),
    ("L NM; W 600 300 300 2300 300; E", "M 0 0 13 3"),
    ("L NM;W 400 0 0 0 0;E", "M -1 -1 1 1"),
    (
        "L NM; W 200 100 100 500 100 500 900; W400 0 0;E",
        "M 0 0 3 1; M 2 0 3 5; M -1 -1 1 1",
    ),
    (
        "94 VDD 400 400 NP; 94 IN:x_1 -200 0 ND;94  OUT:z  0 200  NM ;E",
        "VDD P 2 2; IN:x_1 D -1 0; OUT:z M 0 1",
    ),
    (
        "94 GND 0 0 ND;94 PHI1 -0 0 NM;94 PHI2 -200 -0400 NP;94 RESET 200 0 NM;E",
        "GND D 0 0; PHI1 M 0 0; PHI2 P -1 -2; RESET M 1 0",
    ),
    (
        "94 IN:line 0 0 NM;94 OUT:end 0 0 NM;94 IN:abcdefghijklmnopqrstuvwxyz01234 0 0 NM;E",
        "IN:line M 0 0; OUT:end M 0 0; IN:abcdefghijklmnopqrstuvwxyz01234 M 0 0",
    ),
    ("94 vdd 0 0 NM; 94; 94VDD 0 0 NM; E", ""),
    (
        "94\tVDD 0 0 NM;940 VDD 1;94 VDDX 1;94 IN: 0 0 NM;94 IN:1a 0;94 IN:A 0;94 IN:abcdefghijklmnopqrstuvwxyz012345;94 X:a;E",
        "",
    ),
    ("DS 1;94 other;94\tVDD;9;DF;E", ""),
    (
        "94 VDD 1099511627600 -1099511627600 NM;E",
        "VDD M 5497558138 -5497558138",
    ),
    // A chip as it is written.
    (
        "DS 1 100 1;\nL NP;\nB 6 6 -3 -1;\nB 2 2 1 1;\nL ND;\nB 2 2 1 1;\nDF;\nDS 2 100 1;\nDF;\n\
        DS 3 100 1;\nL NC;\nB 4 4 6 6;\nL NI;\nB 4 4 6 6;\nDF;\n\
        C 3 T 2800 -5600;\nC 1 T 0 0;\nC 3 T -200 858993459200;\n\
        94 VDD 400 400 NP;\n94 IN:x_1 -200 0 ND;\n94 RESET 600 858993459200 NM;\nE\n",
        "C 16 -26 18 -24; I 16 -26 18 -24; P -3 -2 0 1; P 0 0 1 1; D 0 0 1 1; \
        C 1 4294967298 3 4294967300; I 1 4294967298 3 4294967300; VDD P 2 2; IN:x_1 D -1 0; RESET M 3 4294967296",
    ),
];

/// The text of a refusal.
fn refusal(alloc: Global, fault: CifFault) -> Result<String, Fail> {
    match fault.place {
        Place::Text { line, column } => Ok(format!(in alloc; "{:?} {line}:{column}", fault.code)?),
        _ => Ok(format!(in alloc; "{:?}", fault.code)?),
    }
}

/// The drawing of the text, or its refusal.
fn read(alloc: Global, text: &[u8]) -> Result<Result<Drawing, ReadCifFault>, Fail> {
    if text.len() >= 1 << 20 {
        return Err("too long".into());
    }
    Ok(read_cif(alloc, text))
}

/// What becomes of a text: the text of its boxes, or of its refusal.
pub(crate) fn outcome(alloc: Global, text: &[u8]) -> Result<String, Fail> {
    let drawing = match read(alloc, text)? {
        Ok(drawing) => drawing,
        Err(ReadCifFault::Fault(fault)) => return refusal(alloc, fault),
        Err(ReadCifFault::NoMemory) => return Ok(format!(in alloc; "no memory")?),
    };
    match flatten(alloc, &drawing) {
        Ok(flat) => text_of(alloc, &flat.boxes),
        Err(ReadCifFault::Fault(fault)) => refusal(alloc, fault),
        Err(ReadCifFault::NoMemory) => Ok(format!(in alloc; "no memory")?),
    }
}

/// The text draws these boxes and labels.
fn draws(rt: &impl Abort, alloc: Global, text: &str, wanted: &str) -> Result<(), Fail> {
    let (boxes, labels) = shapes(alloc, wanted)?;
    let found = outcome(alloc, text.as_bytes())?;
    assert_eq!(rt; found.as_str(), text_of(alloc, &boxes)?.as_str(), "{text}");
    if let Ok(drawing) = read(alloc, text.as_bytes())? {
        let flat = flatten(alloc, &drawing).ok().ok_or("no boxes")?;
        assert_eq!(rt; flat.labels.as_slice(), labels.as_slice(), "{text}");
    }
    Ok(())
}

#[test]
fn draws_boxes(rt: HostRuntime) -> Result<(), Fail> {
    for (text, wanted) in BOXES {
        draws(&rt, rt.alloc(), text, wanted)?;
    }
    Ok(())
}

#[test]
fn draws_calls(rt: HostRuntime) -> Result<(), Fail> {
    for (text, wanted) in CALLS {
        draws(&rt, rt.alloc(), text, wanted)?;
    }
    Ok(())
}

/// Every byte parts numbers but digits, capital letters, a sign, parentheses and a semicolon.
#[test]
fn other_bytes_are_blanks(rt: HostRuntime) -> Result<(), Fail> {
    for byte in 0..=255u8 {
        let speaks = byte.is_ascii_digit() || byte.is_ascii_uppercase() || b"-();".contains(&byte);
        if !speaks {
            let mut text = b"L NM;B 800 800 400".to_vec(rt.alloc())?;
            text.push(byte)?;
            text.extend_from_slice(b"400;E")?;
            assert_eq!(rt; outcome(rt.alloc(), &text)?.as_str(), "M 0 0 4 4", "{byte}");
        }
    }
    Ok(())
}
