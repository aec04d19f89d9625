//! Runs of `pla`, as data.
use crate::rows::{End, Input, NOTHING, ONE, Output, Row, SYMBOLS};
use crate::status::Code;

/// An array's text: its kinds, its calls and its labels.
const ARRAY: Output = Output::Holds(b"DS 1 100 1;\nL ", b"\n94 IN:x ", b";\nE\n");

/// Runs of `pla`, and of words that begin like it.
pub(crate) const PLA_ROWS: &[Row] = &[
    Row {
        words: &[b"pla", b"pla"],
        input: Input::Text(ONE),
        end: End::Usage(2),
        output: NOTHING,
        log: b"rxc: usage, word 2\n",
    },
    Row {
        words: &[b"pla", b"net", b"sim"],
        input: Input::Text(ONE),
        end: End::Usage(2),
        output: NOTHING,
        log: b"rxc: usage, word 2\n",
    },
    Row {
        words: &[b"net", b"pla"],
        input: Input::Text(ONE),
        end: End::Usage(2),
        output: NOTHING,
        log: b"rxc: usage, word 2\n",
    },
    Row {
        words: &[b"plan"],
        input: Input::Text(ONE),
        end: End::Usage(1),
        output: NOTHING,
        log: b"rxc: usage, word 1\n",
    },
    Row {
        words: &[b"pla"],
        input: Input::Text(b"line x; symbol a = 1; output z; expr b !z;"),
        end: End::Refused(Code::S3, 1, 38),
        output: NOTHING,
        log: b"rxc: S3 UnknownName at 1:38\n",
    },
    Row {
        words: &[b"pla"],
        input: Input::Repeated(SYMBOLS, b" a", 257, b" !z;\n"),
        end: End::Refused(Code::S13, 4, 518),
        output: NOTHING,
        log: b"rxc: S13 TooManyLeaves at 4:518\n",
    },
    Row {
        words: &[b"pla"],
        input: Input::Text(
            b"version 2;\nline x;\nsymbol a = 1;\noutput z;\nexpr a{16,16}{17,17} !z;\n",
        ),
        end: End::Refused(Code::S13, 5, 20),
        output: NOTHING,
        log: b"rxc: S13 TooManyLeaves at 5:20\n",
    },
    Row {
        words: &[b"pla"],
        input: Input::Text(b"line x; symbol a = 1; output z; expr a !z;"),
        end: End::Done,
        output: ARRAY,
        log: b"",
    },
];
