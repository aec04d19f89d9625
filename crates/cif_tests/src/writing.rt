//! CIF texts that chips are written as.

use cif_write::write_cif;
use geom::{Call, Chip, Kind};
use layout_words::shapes;
use rx_io::MemSink;
use std::alloc::Global;
use std::test::Fail;

/// A chip: the boxes of each of its kinds, its calls, and its labels.
struct Row {
    kinds: &'static [&'static str],
    calls: &'static [(u32, i64, i64)],
    labels: &'static str,
}

/// Chips, and the lines that they are written as.
const WRITTEN: &[(Row, &[&str])] = &[
    (
        Row {
            kinds: &["M 5 0 9 14"],
            calls: &[(0, 0, 0)],
            labels: "",
        },
        &[
            "DS 1 100 1;",
            "L NM;",
            "B 8 28 14 14;",
            "DF;",
            "C 1 T 0 0;",
            "E",
        ],
    ),
    (
        Row {
            kinds: &[],
            calls: &[],
            labels: "",
        },
        &["E"],
    ),
    // The layer is written where it changes, in each kind anew; an empty kind is written too.
    (
        Row {
            kinds: &[
                "P -3 -2 0 1; P 0 0 1 1; D 0 0 1 1; C 0 0 1 1",
                "",
                "C 2 2 4 4; I 2 2 4 4",
            ],
            calls: &[(2, 14, -28), (0, 0, 0), (2, -1, 4294967296)],
            labels: "VDD P 2 2; IN:x_1 D -1 0; OUT:z M 0 1; RESET M 3 4294967296",
        },
        &[
            "DS 1 100 1;\nL NP;\nB 6 6 -3 -1;\nB 2 2 1 1;\nL ND;\nB 2 2 1 1;\nL NC;\nB 2 2 1 1;\nDF;",
            "DS 2 100 1;\nDF;",
            "DS 3 100 1;\nL NC;\nB 4 4 6 6;\nL NI;\nB 4 4 6 6;\nDF;",
            "C 3 T 2800 -5600;\nC 1 T 0 0;\nC 3 T -200 858993459200;",
            "94 VDD 400 400 NP;\n94 IN:x_1 -200 0 ND;\n94 OUT:z 0 200 NM;\n94 RESET 600 858993459200 NM;",
            "E",
        ],
    ),
];

/// The chip of a row.
fn chip(alloc: Global, row: &Row) -> Result<Chip, Fail> {
    let mut kinds = Vec::new(alloc);
    for text in row.kinds {
        let (boxes, _) = shapes(alloc, text)?;
        kinds.push(Kind::new(boxes))?;
    }
    let mut calls = Vec::new(alloc);
    for (kind, x, y) in row.calls {
        calls.push(Call {
            kind: *kind,
            x: *x,
            y: *y,
        })?;
    }
    let (_, labels) = shapes(alloc, row.labels)?;
    Ok(Chip::new(kinds, calls, labels))
}

#[test]
fn writes_chips(rt: HostRuntime) -> Result<(), Fail> {
    for (row, lines) in WRITTEN {
        let chip = chip(rt.alloc(), row)?;
        let mut wanted = String::new(rt.alloc());
        for line in lines.iter() {
            wanted.push_str(line)?;
            wanted.push_str("\n")?;
        }
        let mut sink = MemSink::new(rt.alloc(), 600, Vec::new(rt.alloc()), 600)?;
        assert_eq!(rt; write_cif(&chip, &mut sink), Ok(()));
        assert_eq!(rt; sink.held(), wanted.as_bytes());
    }
    Ok(())
}
