//! Runs of `tree`, as data.
use crate::rows::{End, Input, NOTHING, ONE, Output, Row, SYMBOLS};
use crate::status::Code;

/// Runs of `tree`, and of words that begin like it.
pub(crate) const TREE_ROWS: &[Row] = &[
    Row {
        words: &[b"tree", b"tree"],
        input: Input::Text(ONE),
        end: End::Usage(2),
        output: NOTHING,
        log: b"rxc: usage, word 2\n",
    },
    Row {
        words: &[b"tree", b"pla", b"net"],
        input: Input::Text(ONE),
        end: End::Usage(2),
        output: NOTHING,
        log: b"rxc: usage, word 2\n",
    },
    Row {
        words: &[b"pla", b"tree"],
        input: Input::Text(ONE),
        end: End::Usage(2),
        output: NOTHING,
        log: b"rxc: usage, word 2\n",
    },
    Row {
        words: &[b"tre"],
        input: Input::Text(ONE),
        end: End::Usage(1),
        output: NOTHING,
        log: b"rxc: usage, word 1\n",
    },
    Row {
        words: &[b"trees"],
        input: Input::Text(ONE),
        end: End::Usage(1),
        output: NOTHING,
        log: b"rxc: usage, word 1\n",
    },
    Row {
        words: &[b"tree"],
        input: Input::Text(b""),
        end: End::Refused(Code::S6, 1, 1),
        output: NOTHING,
        log: b"rxc: S6 NoLines at 1:1\n",
    },
    Row {
        words: &[b"tree"],
        input: Input::Text(b"line x; symbol a = 1; output z; expr b !z;"),
        end: End::Refused(Code::S3, 1, 38),
        output: NOTHING,
        log: b"rxc: S3 UnknownName at 1:38\n",
    },
    Row {
        words: &[b"tree"],
        input: Input::Repeated(SYMBOLS, b" a", 4097, b" !z;\n"),
        end: End::Refused(Code::S13, 4, 8198),
        output: NOTHING,
        log: b"rxc: S13 TooManyLeaves at 4:8198\n",
    },
    Row {
        words: &[b"tree"],
        input: Input::Text(
            b"version 2;\nline x;\nsymbol a = 1;\noutput z;\nexpr a{17,17}{241,241} !z;\n",
        ),
        end: End::Refused(Code::S13, 5, 22),
        output: NOTHING,
        log: b"rxc: S13 TooManyLeaves at 5:22\n",
    },
    Row {
        words: &[b"tree"],
        input: Input::Text(ONE),
        end: End::Done,
        output: Output::Holds(b"DS 1 100 1;\nL ", b"\n94 IN:x ", b";\nE\n"),
        log: b"",
    },
    Row {
        words: &[b"tree"],
        input: Input::Repeated(SYMBOLS, b" a", 4096, b" !z;\n"),
        end: End::Done,
        output: Output::Holds(b"DS 1 100 1;\nL ", b"\n94 OUT:z ", b";\nE\n"),
        log: b"",
    },
    // The array of a specification has at most 256 symbols; its tree may have more.
    Row {
        words: &[b"tree"],
        input: Input::Repeated(SYMBOLS, b" a", 257, b" !z;\n"),
        end: End::Done,
        output: Output::Holds(b"DS 1 100 1;\nL ", b"\n94 OUT:z ", b";\nE\n"),
        log: b"",
    },
];
