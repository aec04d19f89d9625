//! CIF texts that are refused, and the code and the place of each refusal.

use crate::reading::outcome;
use std::alloc::Global;
use std::process::Abort;
use std::test::Fail;

/// Bytes that no command goes on with.
const SYNTAX: &[(&str, &str)] = &[
    ("X;", "C1 1:1"),
    ("-;", "C1 1:1"),
    (");", "C1 1:1"),
    ("A;E", "C1 1:1"),
    ("L NM;Z;E", "C1 1:6"),
    ("L NM; F", "C1 1:7"),
    ("D S 1;", "C1 1:2"),
    ("DX;", "C1 1:2"),
    ("DS;", "C1 1:3"),
    ("DS 1 0;", "C1 1:6"),
    ("DS 1 00", "C1 1:6"),
    ("DS 1 0 X", "C1 1:6"),
    ("DS 1 2 0;", "C1 1:8"),
    ("DS 1 2 00 ;", "C1 1:8"),
    ("DS 1 2;", "C1 1:7"),
    ("DS 1 0005;", "C1 1:10"),
    ("DS 1 2 3 4;", "C1 1:10"),
    ("DS -1;", "C1 1:4"),
    ("DF 1;", "C1 1:4"),
    ("(a) b c);", "C1 1:8"),
    ("(a);(b)(c);E", "C1 1:8"),
    ("(a)B;E", "C1 1:4"),
    ("(a));E", "C1 1:4"),
    ("L;", "C1 1:2"),
    ("L nm;", "C1 1:5"),
    ("L ABCDE;", "C1 1:7"),
    ("L N M;", "C1 1:5"),
    ("L -N;", "C1 1:3"),
    ("B;", "C1 1:2"),
    ("L NM;B 1 2 3;E", "C1 1:13"),
    ("L NM; B 800 800 400 400 1; E", "C1 1:26"),
    ("L NM;B 1 2 3 4 5 6 7;E", "C1 1:20"),
    ("L NM; B 800 800 400-400; E", "C1 1:20"),
    ("L NM; B 800 800 400 --400; E", "C1 1:22"),
    ("L NM; B -800 800 400 400; E", "C1 1:9"),
    ("L NM; B 800 -800 400 400; E", "C1 1:13"),
    ("C;", "C1 1:2"),
    ("C -1;", "C1 1:3"),
    ("C 1 5;", "C1 1:5"),
    ("C 1 M Z;", "C1 1:7"),
    ("C 1 T 1;E", "C1 1:8"),
    ("C 1 T - 200 0;E", "C1 1:8"),
    ("C 1 T 200 0 3;E", "C1 1:13"),
    ("C 1 MX Y;E", "C1 1:8"),
];

/// The same in shapes; ends of texts, and bytes behind them.
const ENDS: &[(&str, &str)] = &[
    ("L NM; P;", "C1 1:8"),
    ("L NM; P 1;", "C1 1:10"),
    ("L NM;P 0 0 1;E", "C1 1:13"),
    ("L NM; W;", "C1 1:8"),
    ("L NM; W 1;", "C1 1:10"),
    ("L NM; W -1 0 0;", "C1 1:9"),
    ("L NM;W 1 0 0 5;", "C1 1:15"),
    ("L NM; P 0 0 1099511627777 5 X;E", "C1 1:29"),
    ("L NM;\nB 800 800 400 400;\n  L XX;\nE", "C2 3:3"),
    ("L NM;\r\nL XX;E", "C2 2:1"),
    ("L NM;\rL XX;E", "C2 1:7"),
    ("\u{e9};L XX;E", "C2 1:4"),
    ("\n\n\nC\n1\n-", "C1 6:1"),
    ("", "C10 1:1"),
    (" \n ", "C10 2:2"),
    ("D", "C10 1:2"),
    ("(()", "C10 1:4"),
    ("(;E", "C10 1:4"),
    ("((a);E", "C10 1:7"),
    ("9", "C10 1:2"),
    ("94 VDD 0 0 NC", "C10 1:14"),
    ("C 1", "C10 1:4"),
    ("DS 1;DS 1", "C10 1:10"),
    ("L NM; B 800 800 400 400;", "C10 1:25"),
    ("L NM; B 800 800 300 400", "C10 1:24"),
    ("L NM;P 0 0", "C10 1:11"),
    ("E;", "C11 1:2"),
    ("E L", "C11 1:3"),
    ("E R", "C11 1:3"),
    ("EE", "C11 1:2"),
    ("E(a)", "C11 1:2"),
    ("E )", "C11 1:3"),
    ("E 5", "C11 1:3"),
    ("E\n-", "C11 2:1"),
    ("L NM; B 800 800 400 400;E L", "C11 1:27"),
];

/// Layers, symbols and definitions.
const DEFINITIONS: &[(&str, &str)] = &[
    ("L XX; E", "C2 1:1"),
    ("L 1; E", "C2 1:1"),
    ("L N;E", "C2 1:1"),
    ("L ABCD;E", "C2 1:1"),
    ("L NM;L NX;L NP;E", "C2 1:6"),
    ("L NM; L NPQ;E", "C2 1:7"),
    ("B 800 800 400 400; E", "C3 1:1"),
    ("P 0 0 200 0 200 200 0 200;E", "C3 1:1"),
    ("W 200 0 100;E", "C3 1:1"),
    ("L NM; DS 1; B 200 200 100 100; DF; E", "C3 1:13"),
    ("DS 1;L NM;DF;B 200 200 100 100;E", "C3 1:14"),
    ("B 0 0 100 1099511627777;E", "C3 1:1"),
    ("P 0 0 1 1 2 2;E", "C3 1:1"),
    ("W 0 1 1 5 5;E", "C3 1:1"),
    ("C 1; E", "C4 1:1"),
    ("C 1;DS 1;DF;E", "C4 1:1"),
    ("DS 1;DF;C 2;E", "C4 1:9"),
    ("DS 1; C 1; DF; E", "C4 1:7"),
    ("C 999 T 100 0; E", "C4 1:1"),
    ("C 5 R 1 1;E", "C4 1:1"),
    ("C 5 T 1099511627777000 0;E", "C4 1:1"),
    ("C 1099511627777;E", "C4 1:1"),
    ("DS 1;DF;C 100000000000000000000000000000001;E", "C4 1:9"),
    ("DS 1; DS 1; DF; E", "C5 1:7"),
    ("DS 1; DF; DS 1; DF; E", "C5 1:11"),
    ("DS 1;DF;DS 2;DF;DS 01;E", "C5 1:17"),
    ("DS 1;DF;DS 2;DS 1;E", "C5 1:14"),
    ("DS 1;DS 1 1099511627777 1;E", "C5 1:6"),
    ("DS 1; DS 2; DF; E", "C6 1:7"),
    ("DS 1;DS 2 1099511627777 1;E", "C6 1:6"),
    ("DF; E", "C6 1:1"),
    ("DS 1;DF;DF;E", "C6 1:9"),
    ("DS 1; E", "C6 1:7"),
    ("DS 1; E L", "C6 1:7"),
    ("DS 1 1099511627777 1; DF; E", "C8 1:1"),
    ("DS 1 1 1099511627777; DF; E", "C8 1:1"),
    ("DS 1099511627777; DF; E", "C8 1:1"),
    ("DS 1;DF;DS 100000000000000000000000000000001;E", "C8 1:9"),
    ("DD 5;", "C9 1:1"),
    ("DD", "C9 1:1"),
    ("DDX", "C9 1:1"),
    ("DS 1;DD;E", "C9 1:6"),
    ("R 5 6;", "C9 1:1"),
    ("R", "C9 1:1"),
    ("DS 1;RX;DF;E", "C9 1:6"),
];

/// Boxes and calls.
const BOXES: &[(&str, &str)] = &[
    ("L NM; B 800 800 300 400; E", "C7 1:7"),
    ("L NM; B 800 800 400 300; E", "C7 1:7"),
    ("L NM; B 801 800 400 400; E", "C7 1:7"),
    ("L NM; B 200 800 200 400; E", "C7 1:7"),
    ("L NM; B 0 800 300 400; E", "C7 1:7"),
    ("L NM; B 800 600 400 400; E", "C7 1:7"),
    ("L NM; B 800 800 400 1099511627776001; E", "C7 1:7"),
    ("DS 1 1 3; L NM; B 200 200 100 100; DF; E", "C7 1:17"),
    ("DS 1 200 1; L NM; B 1 2 1 1; DF; E", "C7 1:19"),
    ("L NM; B 800 800 400 1099511627776000; E", "C8 1:7"),
    ("L NM; B 800 800 400 400 1099511627777 0; E", "C8 1:7"),
    ("L NM; B 800 800 300 400 1099511627777 1; E", "C8 1:7"),
    ("L NM; B 0 800 400 1099511627776000; E", "C8 1:7"),
    ("L NM; B 1099511628000 800 0 0; E", "C8 1:7"),
    ("DS 1 200 1;L NM;B 2 2 1099511627776 1;DF;E", "C8 1:17"),
    (
        "DS 1 1099511627776 1; L NM; B 400 400 200 200; DF; E",
        "C8 1:29",
    ),
    ("L NM; B 800 800 400 400 1 1; E", "C9 1:7"),
    ("L NM; B 800 800 400 400 0 0; E", "C9 1:7"),
    ("L NM; B 800 800 300 400 1 1; E", "C9 1:7"),
    ("L NM; B 0 800 400 400; E", "C9 1:7"),
    ("L NM; B 800 0 400 400; E", "C9 1:7"),
    ("DS 1; DF; C 1 T 100 0; E", "C7 1:11"),
    ("DS 1; DF; C 1 M X T 0 -1; E", "C7 1:11"),
    ("DS 1; DF; C 1 T 1099511627777 0; E", "C7 1:11"),
    ("DS 1;DF;C 1 T 1 0 R 1 1;E", "C7 1:9"),
    ("DS 1;DF;DS 2 1 3;C 1 T 200 0;DF;E", "C7 1:18"),
    ("DS 1; DF; C 1 T 1099511628000 0; E", "C8 1:11"),
    ("DS 1; DF; C 1 T 0 -1099511628000; E", "C8 1:11"),
    ("DS 1;DF;C 1 R 1099511627777 0;E", "C8 1:9"),
    ("DS 1;DF;C 1 R 1099511627777 1;E", "C8 1:9"),
    ("DS 1;DF;DS 2 200 1;C 1 T 1099511627777 0;DF;E", "C8 1:20"),
    ("DS 1;DF;DS 2 400 1;C 1 T 1099511627776 0;DF;E", "C8 1:20"),
    ("DS 1; DF; C 1 R 1 1; E", "C9 1:11"),
    ("DS 1; DF; C 1 R 0 0; E", "C9 1:11"),
    ("DS 1; DF; C 1 R 0 1 R 5 -5 M X; E", "C9 1:11"),
];

/// Polygons, wires and labels.
const SHAPES: &[(&str, &str)] = &[
    ("L NM; P 0 0 800 0 800 400 100 400; E", "C7 1:7"),
    (
        "L NM; P 0 0 1099511627777 0 1099511627777 200 0 200; E",
        "C7 1:7",
    ),
    (
        "L NM; P 0 0 1099511628000 0 1099511628000 200 0 200; E",
        "C8 1:7",
    ),
    ("L NM; P 0 0 1099511628000 1099511628000 0 0; E", "C8 1:7"),
    ("L NM; P 0 0 800 400 0 400; E", "C9 1:7"),
    ("L NM; P 0 0 400 0 400 400; E", "C9 1:7"),
    ("L NM; P 0 0 0 0 400 0 400 400 0 400; E", "C9 1:7"),
    ("L NM; P 0 0 400 0 400 400 0 400 0 0; E", "C9 1:7"),
    ("L NM; W 200 0 0; E", "C7 1:7"),
    ("L NM; W 0 1 0; E", "C7 1:7"),
    ("L NM; W 1099511627800 0 0; E", "C7 1:7"),
    ("L NM; W 1099511628000 0 0; E", "C8 1:7"),
    ("L NM; W 200 100 100 500 300; E", "C9 1:7"),
    ("L NM; W 0 0 0; E", "C9 1:7"),
    // The least and the greatest coordinate of a segment decide, however great they are.
    (
        "L NM; W 100 50 50 10000000000000000000000000000150 150; E",
        "C8 1:7",
    ),
    (
        "L NM; W 100 150 50 10000000000000000000000000000050 150; E",
        "C7 1:7",
    ),
    ("94 IN:x 100 0 NM; E", "C7 1:1"),
    ("94 IN:x 0 -1 NM; E", "C7 1:1"),
    ("94 IN:x 100 0 XX; E", "C7 1:1"),
    ("94 IN:x 100 0 NC; E", "C7 1:1"),
    ("94 IN:x 1099511627777 0 NM; E", "C7 1:1"),
    ("94 IN:x 1099511628000 0 NM; E", "C8 1:1"),
    ("94 IN:x 1099511628000 0; E", "C8 1:1"),
    ("94 IN:x a -1099511628000 NM 5; E", "C8 1:1"),
    ("DS 1; 94 VDD 1099511627777 0 NM; DF; E", "C8 1:7"),
];

/// Labels that are malformed.
const LABELS: &[(&str, &str)] = &[
    ("94 VDD;E", "C12 1:1"),
    ("94 IN:x 0; E", "C12 1:1"),
    ("94 IN:x 0 0; E", "C12 1:1"),
    ("94 IN:x 0 0 NC; E", "C12 1:1"),
    ("94 IN:x 0 0 NI; E", "C12 1:1"),
    ("94 IN:x 0 0 NX; E", "C12 1:1"),
    ("94 IN:x 100 0 nm; E", "C12 1:1"),
    ("94 IN:x 100 0 ABCDE; E", "C12 1:1"),
    ("94 IN:x 0 0 NM 1; E", "C12 1:1"),
    ("94 IN:x 0 0 NM\n; E", "C12 1:1"),
    ("94 IN:x a 0 NM; E", "C12 1:1"),
    ("94 IN:x 0 b NM; E", "C12 1:1"),
    ("94 IN:x - 0 NM; E", "C12 1:1"),
    ("94 IN:x --1 0 NM; E", "C12 1:1"),
    ("94 IN:x 1- 0 NM; E", "C12 1:1"),
    ("94 IN:x +0 0 NM; E", "C12 1:1"),
    ("94 IN:x 0.0 0 NM; E", "C12 1:1"),
    ("94 IN:x 0\t0 NM; E", "C12 1:1"),
    ("94 IN:x NM 0 0; E", "C12 1:1"),
    ("L NM;94 OUT:z 0 0 NM;\n 94 OUT:z 0 0;E", "C12 2:2"),
    ("DS 1; 94 VDD 0 0 NM; DF; E", "C12 1:7"),
    ("DS 1; 94 VDD 100 0 NM; DF; E", "C12 1:7"),
];

/// A box, ten times ten times ten of it, and so on, a million in all; and the box where it is too far away.
const MILLIONS: &str = "DS 1 100 1; L NM; B 8 8 4 4; DF;\n\
    DS 2; C1;C1;C1;C1;C1;C1;C1;C1;C1;C1; DF;\n\
    DS 3; C2;C2;C2;C2;C2;C2;C2;C2;C2;C2; DF;\n\
    DS 4; C3;C3;C3;C3;C3;C3;C3;C3;C3;C3; DF;\n\
    DS 5; C4;C4;C4;C4;C4;C4;C4;C4;C4;C4; DF;\n\
    DS 6; C5;C5;C5;C5;C5;C5;C5;C5;C5;C5; DF;\n\
    DS 7; C6;C6;C6;C6;C6;C6;C6;C6;C6;C6; DF;\n\
    DS 8 200 1; C 1 T 1099511627776 0; DF;\n";

/// What stands behind those definitions, and what becomes of the text.
const COUNTED: &[(&str, &str)] = &[
    ("C 7 T 0 200;C 7;C 7;C 7;C 7;C 7;C 7;C 7;C 7;E", "C13 9:41"),
    ("C 7;C 7;C 7;C 7;C 7;C 7;C 7;C 7;\nC 1;C 8;E", "C13 10:1"),
    ("C 7;C 7;C 7;C 7;C 7;C 7;C 7;C 7;\nC 8;C 1;E", "C8 10:1"),
    (
        "DS 9;C 7;C 7;C 7;C 7;C 7;C 7;C 7;C 7;C 8;DF;\nC 9;E",
        "C8 10:1",
    ),
    (
        "DS 9;C 7;C 7;C 7;C 7;C 7;C 7;C 7;C 7;C 1;DF;\n C 9;C 8;E",
        "C13 10:2",
    ),
    ("C 8 T -1099511627600 0;C 8;E", "C8 9:24"),
];

/// Drawings with boxes too far away, or just within reach.
const DRAWINGS: &[(&str, &str)] = &[
    (
        "DS 1; L NM; B 400 400 200 200; DF; C 1 T 219902325555200 0; E",
        "C8 1:36",
    ),
    (
        "DS 1; L NM; B 400 400 200 200; DF; DS 2 200 1; C 1 T 1099511627776 0; DF; C 2; E",
        "C8 1:75",
    ),
    (
        "DS 1; L NM; B 400 400 200 200; DF; DS 2 200 1; C 1 T 1099511627776 0; DF; C 2 T -400 0; E",
        "M 1099511627774 0 1099511627776 2",
    ),
    (
        "DS 1; L NM; B 400 400 200 200; DF; DS 2 200 1; C 1 T 1099511627776 0; DF; C 2 T -200 0; E",
        "C8 1:75",
    ),
    // Far away and back again, within one call.
    (
        "DS 1; L NM; B 400 400 200 200; DF; DS 2 200 1; C 1 T 1099511627776 0 T 1099511627776 0 M X T 1099511627776 0 T 1099511627776 0; DF; C 2; E",
        "M -2 0 0 2",
    ),
];

/// Each text has its refusal.
fn refuses(rt: &impl Abort, alloc: Global, texts: &[(&str, &str)]) -> Result<(), Fail> {
    for (text, wanted) in texts {
        let found = outcome(alloc, text.as_bytes())?;
        assert_eq!(rt; found.as_str(), *wanted, "{text}");
    }
    Ok(())
}

#[test]
fn refuses_syntax(rt: HostRuntime) -> Result<(), Fail> {
    refuses(&rt, rt.alloc(), SYNTAX)
}

#[test]
fn refuses_ends(rt: HostRuntime) -> Result<(), Fail> {
    refuses(&rt, rt.alloc(), ENDS)
}

#[test]
fn refuses_definitions(rt: HostRuntime) -> Result<(), Fail> {
    refuses(&rt, rt.alloc(), DEFINITIONS)
}

#[test]
fn refuses_boxes(rt: HostRuntime) -> Result<(), Fail> {
    refuses(&rt, rt.alloc(), BOXES)
}

#[test]
fn refuses_shapes(rt: HostRuntime) -> Result<(), Fail> {
    refuses(&rt, rt.alloc(), SHAPES)
}

#[test]
fn refuses_labels(rt: HostRuntime) -> Result<(), Fail> {
    refuses(&rt, rt.alloc(), LABELS)
}

#[test]
fn refuses_drawings(rt: HostRuntime) -> Result<(), Fail> {
    refuses(&rt, rt.alloc(), DRAWINGS)
}

#[test]
fn counts_boxes(rt: HostRuntime) -> Result<(), Fail> {
    for (last, wanted) in COUNTED {
        let text = format!(in rt.alloc(); "{MILLIONS}{last}")?;
        let found = outcome(rt.alloc(), text.as_bytes())?;
        assert_eq!(rt; found.as_str(), *wanted, "{last}");
    }
    Ok(())
}

/// So many times the piece behind the text, and what comes last.
fn repeated(
    alloc: Global,
    first: &str,
    piece: &str,
    times: usize,
    last: &str,
) -> Result<String, Fail> {
    let mut text = String::new(alloc);
    text.push_str(first)?;
    for _ in 0..times {
        text.push_str(piece)?;
    }
    text.push_str(last)?;
    Ok(text)
}

/// Texts by a piece that is repeated, and what becomes of them.
const REPEATED: &[(&str, &str, usize, &str, &str)] = &[
    ("", "(", 1_000_000, "", "C10 1:1000001"),
    ("(", "()", 100_000, ");E", ""),
    ("", ";", 100_000, "E", ""),
    ("", ";\n", 1000, "X", "C1 1001:1"),
    ("9", "a", 100_000, ";E", ""),
    ("L NM;B 4", "0", 100_000, " 400 200 200;E", "C8 1:6"),
    ("L NM;B ", "0", 100_000, "400 400 200 200;E", "M 0 0 2 2"),
    ("L NM;W 200", " 100 100", 4097, ";E", "C15 1:6"),
    ("L NM;W 200", " 100 100", 4097, " 5 5;E", "C7 1:6"),
    ("L NM;W 200", " 100 100", 4097, " 300 300;E", "C9 1:6"),
    ("W 200", " 100 100", 4097, ";E", "C3 1:1"),
    (
        "L NM;P 0 0 400 0 400 400",
        " 200 400 0 400",
        2047,
        ";E",
        "C15 1:6",
    ),
    (
        "L NM;P 0 0 400 0 400 400",
        " 200 400 400 400",
        2046,
        " 0 400;E",
        "M 0 0 2 2",
    ),
];

#[test]
fn reads_repeated_pieces(rt: HostRuntime) -> Result<(), Fail> {
    for (first, piece, times, last, wanted) in REPEATED {
        let text = repeated(rt.alloc(), first, piece, *times, last)?;
        let found = outcome(rt.alloc(), text.as_bytes())?;
        assert_eq!(rt; found.as_str(), *wanted, "{first}{piece}..{last}");
    }
    Ok(())
}

/// Texts of one line: one with a command of each kind, and a transistor between the supplies.
const WHOLE: [&str; 2] = [
    "DS 1 2 1;L NM;B 400 800 200 400 0 1;DF;C 1 M X R 0 1 T 2800 0;L NP;P 0 0 200 0 200 200 0 200;W 200 100 100;94 VDD 0 0 NM;(c);;E",
    "L ND; B 800 4000 400 2000; L NP; B 1600 400 400 2000; 94 GND 0 0 ND; 94 VDD 0 3800 ND; 94 IN:x 1000 1800 NP; \
        L NM; B 800 800 4400 400; 94 PHI1 4000 0 NM; B 800 800 6400 400; 94 PHI2 6000 0 NM; B 800 800 8400 400; 94 RESET 8000 0 NM; E",
];

/// Each front of the text is refused at its end.
fn fronts_are_refused(rt: &impl Abort, alloc: Global, text: &[u8]) -> Result<(), Fail> {
    for count in 0..text.len() {
        let found = outcome(alloc, &text[..count])?;
        let wanted = format!(in alloc; "C10 1:{}", count + 1)?;
        assert_eq!(rt; found.as_str(), wanted.as_str());
    }
    Ok(())
}

#[test]
fn fronts_have_no_end(rt: HostRuntime) -> Result<(), Fail> {
    for text in WHOLE {
        fronts_are_refused(&rt, rt.alloc(), text.as_bytes())?;
    }
    Ok(())
}

/// Definitions of which each calls the one before, and what stands in the lines behind them.
fn chain(alloc: Global, inner: &str, links: usize, last: &str) -> Result<String, Fail> {
    let mut text = format!(in alloc; "DS 1; L NM; {inner} DF;\n")?;
    for k in 1..links {
        let line = format!(in alloc; "DS {}; C {k}; DF;\n", k + 1)?;
        text.push_str(line.as_str())?;
    }
    text.push_str(last)?;
    Ok(text)
}

/// What stands in the first definition, how many definitions there are, what stands behind them, and what becomes of the text.
const CHAINS: &[(&str, usize, &str, &str)] = &[
    ("B 800 800 400 400;", 64, "C 64;\nE", "M 0 0 4 4"),
    ("B 800 800 400 400;", 65, "C 65;\nE", "C14 66:1"),
    ("B 800 800 400 400;", 66, "E", "C14 66:8"),
    ("", 70, "C 70;\nE", ""),
];

#[test]
fn follows_chains(rt: HostRuntime) -> Result<(), Fail> {
    for (inner, links, last, wanted) in CHAINS {
        let text = chain(rt.alloc(), inner, *links, last)?;
        let found = outcome(rt.alloc(), text.as_bytes())?;
        assert_eq!(rt; found.as_str(), *wanted, "{links}");
    }
    Ok(())
}

/// Definitions of which each calls the one before ten times, and a call in the last line.
fn tenfold(alloc: Global, links: usize) -> Result<String, Fail> {
    let mut text = format!(in alloc; "DS 1 100 1; L NM; B 8 8 4 4; DF;")?;
    for k in 1..links {
        let call = format!(in alloc; " C {k};")?;
        let first = format!(in alloc; "\nDS {};", k + 1)?;
        let line = repeated(alloc, first.as_str(), call.as_str(), 10, " DF;")?;
        text.push_str(line.as_str())?;
    }
    let end = format!(in alloc; "\nC {links};\nE")?;
    text.push_str(end.as_str())?;
    Ok(text)
}

/// Ten to the seventh, to the twentieth and to the thirtieth boxes: more than may be, than 64 bits and than 96 bits hold.
#[test]
fn counts_past_all_words(rt: HostRuntime) -> Result<(), Fail> {
    for (links, wanted) in [(8, "C13 9:1"), (21, "C13 22:1"), (31, "C13 32:1")] {
        let text = tenfold(rt.alloc(), links)?;
        let found = outcome(rt.alloc(), text.as_bytes())?;
        assert_eq!(rt; found.as_str(), wanted, "{links}");
    }
    Ok(())
}
