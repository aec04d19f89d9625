//! Runs of `report` and of `demo`, as data.
use crate::rows::{End, Input, NOTHING, ONE, Output, Row, SYMBOLS};
use crate::status::Code;

/// A specification of two lines.
const TWO: &[u8] = b"line x y;\nsymbol a = 1-;\nsymbol b = 01;\noutput z;\nexpr (a|b)* a !z;\n";

/// The report of one occurrence.
const ONE_REPORT: &[u8] =
    b"leaves 1\nlines 1\nsymbols 1\noutputs 1\nwires 3\nblocks 2\nterms 2\npla rows 66\npla columns 46\n\
    pla area 595056\ntree side bound 13860\ntree width 3780\ntree height 1498\ntree area 5662440\n\
    tree area bound 3251404800\n";

/// The report of the specification of two lines.
const TWO_REPORT: &[u8] =
    b"leaves 3\nlines 2\nsymbols 2\noutputs 1\nwires 5\nblocks 6\nterms 7\npla rows 128\npla columns 70\n\
    pla area 1756160\ntree side bound 56980\ntree width 12614\ntree height 12586\ntree area 158759804\n\
    tree area bound 27095040000\n";

/// The report of 1024 occurrences, too many for an array.
const MANY_REPORT: &[u8] =
    b"leaves 1024\nlines 1\nsymbols 1\noutputs 1\nwires 3\nblocks 2048\npla none\ntree side bound 1225980\n\
    tree width 390866\ntree height 274918\ntree area 107456098988\ntree area bound 3329438515200\n";

/// From 1 for two symbols: `expr (s2 | s1 !y0)? !y0;`.
const DEMO_REPORT: &[u8] =
    b"demo 1 2\nleaves 2\nlines 2\nsymbols 4\noutputs 2\nwires 8\nblocks 4\nterms 5\npla rows 107\npla columns 68\n\
    pla area 1426096\ntree side bound 21560\ntree width 8218\ntree height 9772\ntree area 80306296\n\
    tree area bound 46242201600\n";

/// From 2^31 + 1, which is 1 modulo 2^31, for two symbols.
const WRAPPED_REPORT: &[u8] =
    b"demo 2147483649 2\nleaves 2\nlines 2\nsymbols 4\noutputs 2\nwires 8\nblocks 4\nterms 5\npla rows 107\n\
    pla columns 68\npla area 1426096\ntree side bound 21560\ntree width 8218\ntree height 9772\n\
    tree area 80306296\ntree area bound 46242201600\n";

/// From 1 for 200 symbols.
const DEMO_200_REPORT: &[u8] =
    b"demo 1 200\nleaves 200\nlines 2\nsymbols 4\noutputs 2\nwires 8\nblocks 400\nterms 687\npla rows 6685\n\
    pla columns 2048\npla area 2683412480\ntree side bound 915320\ntree width 302218\ntree height 213990\n\
    tree area 64671629820\ntree area bound 4624220160000\n";

/// From 1 for 2000 symbols.
const DEMO_2000_REPORT: &[u8] =
    b"demo 1 2000\nleaves 2000\nlines 2\nsymbols 4\noutputs 2\nwires 8\nblocks 4000\npla none\n\
    tree side bound 1907080\ntree width 672658\ntree height 931350\ntree area 626480028300\n\
    tree area bound 46242201600000\n";

/// A command that draws, its input, and the least and the greatest width and height in lambda of what it draws.
pub(crate) struct DrawnSides {
    pub(crate) word: &'static [u8],
    pub(crate) input: Input,
    pub(crate) least: (i64, i64),
    pub(crate) greatest: (i64, i64),
}

/// The sides that the reports above tell, and the bound of a tree of 64 symbols.
pub(crate) const DRAWN_SIDES: &[DrawnSides] = &[
    DrawnSides {
        word: b"tree",
        input: Input::Text(ONE),
        least: (3780, 1498),
        greatest: (3780, 1498),
    },
    DrawnSides {
        word: b"tree",
        input: Input::Text(TWO),
        least: (12614, 12586),
        greatest: (12614, 12586),
    },
    DrawnSides {
        word: b"tree",
        input: Input::Repeated(SYMBOLS, b" a", 64, b" !z;\n"),
        least: (14, 14),
        greatest: (273_420, 273_420),
    },
    DrawnSides {
        word: b"pla",
        input: Input::Text(ONE),
        least: (644, 924),
        greatest: (644, 924),
    },
    DrawnSides {
        word: b"pla",
        input: Input::Text(TWO),
        least: (980, 1792),
        greatest: (980, 1792),
    },
];

/// Runs of `report` and of `demo`.
pub(crate) const REPORT_ROWS: &[Row] = &[
    Row {
        words: &[b"report"],
        input: Input::Text(ONE),
        end: End::Done,
        output: Output::Is(ONE_REPORT),
        log: b"",
    },
    Row {
        words: &[b"report"],
        input: Input::Text(TWO),
        end: End::Done,
        output: Output::Is(TWO_REPORT),
        log: b"",
    },
    Row {
        words: &[b"report"],
        input: Input::Text(b"line x; symbol a = 1; output z; expr b !z;"),
        end: End::Refused(Code::S3, 1, 38),
        output: NOTHING,
        log: b"rxc: S3 UnknownName at 1:38\n",
    },
    Row {
        words: &[b"demo", b"1", b"2"],
        input: Input::Text(b""),
        end: End::Done,
        output: Output::Is(DEMO_REPORT),
        log: b"",
    },
    Row {
        words: &[b"demo", b"1", b"2"],
        input: Input::Text(ONE),
        end: End::Done,
        output: Output::Is(DEMO_REPORT),
        log: b"",
    },
    Row {
        words: &[b"demo", b"00000000000000000001", b"0002"],
        input: Input::Text(b""),
        end: End::Done,
        output: Output::Is(DEMO_REPORT),
        log: b"",
    },
    Row {
        words: &[b"demo", b"2147483649", b"2"],
        input: Input::Text(b""),
        end: End::Done,
        output: Output::Is(WRAPPED_REPORT),
        log: b"",
    },
    Row {
        words: &[b"demo", b"18446744073709551615", b"1"],
        input: Input::Text(b""),
        end: End::Done,
        output: Output::Holds(
            b"demo 18446744073709551615 1\nleaves 1\nlines 2\nsymbols 4\n",
            b"\nblocks 2\nterms ",
            b"\n",
        ),
        log: b"",
    },
    Row {
        words: &[b"report", b"report"],
        input: Input::Text(ONE),
        end: End::Usage(2),
        output: NOTHING,
        log: b"rxc: usage, word 2\n",
    },
    Row {
        words: &[b"repor"],
        input: Input::Text(ONE),
        end: End::Usage(1),
        output: NOTHING,
        log: b"rxc: usage, word 1\n",
    },
    Row {
        words: &[b"demo"],
        input: Input::Text(ONE),
        end: End::Usage(2),
        output: NOTHING,
        log: b"rxc: usage, word 2\n",
    },
    Row {
        words: &[b"demo", b"1"],
        input: Input::Text(ONE),
        end: End::Usage(3),
        output: NOTHING,
        log: b"rxc: usage, word 3\n",
    },
    Row {
        words: &[b"demo", b"1", b"0"],
        input: Input::Text(ONE),
        end: End::Usage(3),
        output: NOTHING,
        log: b"rxc: usage, word 3\n",
    },
    Row {
        words: &[b"demo", b"1", b"0000"],
        input: Input::Text(ONE),
        end: End::Usage(3),
        output: NOTHING,
        log: b"rxc: usage, word 3\n",
    },
    Row {
        words: &[b"demo", b"1", b"4097"],
        input: Input::Text(ONE),
        end: End::Usage(3),
        output: NOTHING,
        log: b"rxc: usage, word 3\n",
    },
    Row {
        words: &[b"demo", b"1", b"00001"],
        input: Input::Text(ONE),
        end: End::Usage(3),
        output: NOTHING,
        log: b"rxc: usage, word 3\n",
    },
    Row {
        words: &[b"demo", b"1", b""],
        input: Input::Text(ONE),
        end: End::Usage(3),
        output: NOTHING,
        log: b"rxc: usage, word 3\n",
    },
    Row {
        words: &[b"demo", b"1", b"1x"],
        input: Input::Text(ONE),
        end: End::Usage(3),
        output: NOTHING,
        log: b"rxc: usage, word 3\n",
    },
    Row {
        words: &[b"demo", b"1", b"-1"],
        input: Input::Text(ONE),
        end: End::Usage(3),
        output: NOTHING,
        log: b"rxc: usage, word 3\n",
    },
    Row {
        words: &[b"demo", b"1", b"1", b"1"],
        input: Input::Text(ONE),
        end: End::Usage(4),
        output: NOTHING,
        log: b"rxc: usage, word 4\n",
    },
    Row {
        words: &[b"demo", b"", b"1"],
        input: Input::Text(ONE),
        end: End::Usage(2),
        output: NOTHING,
        log: b"rxc: usage, word 2\n",
    },
    Row {
        words: &[b"demo", b"x", b"1"],
        input: Input::Text(ONE),
        end: End::Usage(2),
        output: NOTHING,
        log: b"rxc: usage, word 2\n",
    },
    Row {
        words: &[b"demo", b"18446744073709551616", b"1"],
        input: Input::Text(ONE),
        end: End::Usage(2),
        output: NOTHING,
        log: b"rxc: usage, word 2\n",
    },
    Row {
        words: &[b"demo", b"99999999999999999999", b"1"],
        input: Input::Text(ONE),
        end: End::Usage(2),
        output: NOTHING,
        log: b"rxc: usage, word 2\n",
    },
    Row {
        words: &[b"demo", b"000000000000000000001", b"1"],
        input: Input::Text(ONE),
        end: End::Usage(2),
        output: NOTHING,
        log: b"rxc: usage, word 2\n",
    },
    Row {
        words: &[b"demo", b"+1", b"1"],
        input: Input::Text(ONE),
        end: End::Usage(2),
        output: NOTHING,
        log: b"rxc: usage, word 2\n",
    },
    Row {
        words: &[b"demo", b"net"],
        input: Input::Text(ONE),
        end: End::Usage(2),
        output: NOTHING,
        log: b"rxc: usage, word 2\n",
    },
    Row {
        words: &[b"demos", b"1", b"1"],
        input: Input::Text(ONE),
        end: End::Usage(1),
        output: NOTHING,
        log: b"rxc: usage, word 1\n",
    },
    Row {
        words: &[b"net", b"1", b"1"],
        input: Input::Text(ONE),
        end: End::Usage(2),
        output: NOTHING,
        log: b"rxc: usage, word 2\n",
    },
];

/// Runs with many symbols, which take a second where they are built, and minutes where they are tried.
pub(crate) const LARGE_REPORT_ROWS: &[Row] = &[
    Row {
        words: &[b"report"],
        input: Input::Repeated(SYMBOLS, b" a", 1024, b" !z;"),
        end: End::Done,
        output: Output::Is(MANY_REPORT),
        log: b"",
    },
    Row {
        words: &[b"report"],
        input: Input::Text(
            b"version 2;\nline x;\nsymbol a = 1;\nsymbol b = 0;\noutput z;\nscan a b !z;\n",
        ),
        end: End::Done,
        output: Output::Holds(
            b"leaves 2\n",
            b"\nterms 3\npla rows 87\npla columns 56\npla area 954912\n",
            b"\n",
        ),
        log: b"",
    },
    // The greatest array.
    Row {
        words: &[b"report"],
        input: Input::Repeated(SYMBOLS, b" a", 256, b" !z;"),
        end: End::Done,
        output: Output::Holds(
            b"leaves 256\n",
            b"\nterms 257\npla rows 5421\npla columns 2596\npla area 2758291536\n",
            b"\ntree area bound 832359628800\n",
        ),
        log: b"",
    },
    Row {
        words: &[b"demo", b"1", b"200"],
        input: Input::Text(b""),
        end: End::Done,
        output: Output::Is(DEMO_200_REPORT),
        log: b"",
    },
    Row {
        words: &[b"demo", b"1", b"2000"],
        input: Input::Text(b""),
        end: End::Done,
        output: Output::Is(DEMO_2000_REPORT),
        log: b"",
    },
];
