//! The texts of reports.

use report_text::{ArrayFigures, Figures, demo_text, report_text};
use std::test::Fail;

/// A specification with an array.
const SMALL: Figures = Figures {
    leaves: 3,
    lines: 2,
    symbols: 2,
    outputs: 1,
    wires: 5,
    blocks: 6,
    array: Some(ArrayFigures {
        terms: 7,
        rows: 128,
        columns: 70,
        area: 1756160,
    }),
    side_bound: 56980,
    width: 12614,
    height: 12586,
    area: 158759804,
    area_bound: 27095040000,
};

const SMALL_TEXT: &[u8] = b"leaves 3\nlines 2\nsymbols 2\noutputs 1\nwires 5\nblocks 6\n\
    terms 7\npla rows 128\npla columns 70\npla area 1756160\n\
    tree side bound 56980\ntree width 12614\ntree height 12586\ntree area 158759804\n\
    tree area bound 27095040000\n";

/// One with too many symbols for an array.
const LARGE: Figures = Figures {
    leaves: 2000,
    lines: 2,
    symbols: 4,
    outputs: 2,
    wires: 8,
    blocks: 4000,
    array: None,
    side_bound: 1907080,
    width: 672658,
    height: 931350,
    area: 626480028300,
    area_bound: 46242201600000,
};

const LARGE_TEXT: &[u8] = b"demo 18446744073709551615 2000\n\
    leaves 2000\nlines 2\nsymbols 4\noutputs 2\nwires 8\nblocks 4000\npla none\n\
    tree side bound 1907080\ntree width 672658\ntree height 931350\ntree area 626480028300\n\
    tree area bound 46242201600000\n";

#[test]
fn reports_have_their_lines(rt: HostRuntime) -> Result<(), Fail> {
    let small = report_text(rt.alloc(), &SMALL)?;
    assert!(rt; small.as_slice() == SMALL_TEXT);
    let large = demo_text(rt.alloc(), u64::MAX, 2000, &LARGE)?;
    assert!(rt; large.as_slice() == LARGE_TEXT);
    Ok(())
}
