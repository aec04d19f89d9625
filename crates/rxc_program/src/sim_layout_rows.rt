//! Runs of `sim` on layouts, as data.
use crate::extract_rows::{PADS, TOO_MANY, TRANSISTOR};
use crate::rows::{End, Input, NOTHING, ONE, Output, Row};
use crate::status::Code;

/// Two lines, one output, high after each word of `a` and `b` that ends with `a`.
const TWO_LINES: &[u8] =
    b"line x y;\nsymbol a = 1-;\nsymbol b = 01;\noutput z;\nexpr (a|b)* a !z;\n";

/// An output that is high after each `a` with a `b` behind it.
const SCAN: &[u8] = b"version 2;\nline x;\nsymbol a = 1;\nsymbol b = 0;\noutput z;\nscan a b !z;\n";

/// Runs of `sim` on layouts, to their end and refused.
pub(crate) const SIM_LAYOUT_ROWS: &[Row] = &[
    Row {
        words: &[b"sim"],
        input: Input::Behind(b"1\nchip\n", TRANSISTOR),
        end: End::Done,
        output: Output::Is(b"0 \n1 \n"),
        log: b"",
    },
    Row {
        words: &[b"sim"],
        input: Input::Behind(b"chip\n", TRANSISTOR),
        end: End::Done,
        output: Output::Is(b"0 \n"),
        log: b"",
    },
    Row {
        words: &[b"sim"],
        input: Input::Repeated(
            b"chip\n",
            PADS,
            1,
            b"B 1000000000000 1000000000000 500000000000 500000004000; E",
        ),
        end: End::Done,
        output: Output::Is(b"0 \n"),
        log: b"",
    },
    Row {
        words: &[b"sim"],
        input: Input::Compiled(b"pla", b"1\n0\n1\nchip\n", ONE),
        end: End::Done,
        output: Output::Is(b"0 0\n1 1\n2 0\n3 0\n"),
        log: b"",
    },
    Row {
        words: &[b"sim"],
        input: Input::Compiled(b"pla", b"10\n01\n11\n00\n10\nchip\n", TWO_LINES),
        end: End::Done,
        output: Output::Is(b"0 0\n1 1\n2 0\n3 1\n4 0\n5 0\n"),
        log: b"",
    },
    Row {
        words: &[b"sim"],
        input: Input::Compiled(b"tree", b"1\n0\n1\nchip\n", ONE),
        end: End::Done,
        output: Output::Is(b"0 0\n1 1\n2 0\n3 0\n"),
        log: b"",
    },
    Row {
        words: &[b"sim"],
        input: Input::Compiled(b"tree", b"10\n01\n11\n00\n10\nchip\n", TWO_LINES),
        end: End::Done,
        output: Output::Is(b"0 0\n1 1\n2 0\n3 1\n4 0\n5 0\n"),
        log: b"",
    },
    Row {
        words: &[b"sim"],
        input: Input::Compiled(
            b"pla",
            b"1\n1\n0\n1\n1\n0\n1\nchip\n",
            b"line d;\nsymbol one = 1;\nsymbol zero = 0;\noutput hit;\nexpr (one|zero)* one one zero one !hit;\n",
        ),
        end: End::Done,
        output: Output::Is(b"0 0\n1 0\n2 0\n3 0\n4 1\n5 0\n6 0\n7 1\n"),
        log: b"",
    },
    Row {
        words: &[b"sim"],
        input: Input::Compiled(b"pla", b"1\n0\n1\n0\nchip\n", SCAN),
        end: End::Done,
        output: Output::Is(b"0 0\n1 0\n2 1\n3 0\n4 1\n"),
        log: b"",
    },
    Row {
        words: &[b"sim"],
        input: Input::Compiled(b"tree", b"1\n0\n1\n0\nchip\n", SCAN),
        end: End::Done,
        output: Output::Is(b"0 0\n1 0\n2 1\n3 0\n4 1\n"),
        log: b"",
    },
    Row {
        words: &[b"sim"],
        input: Input::Text(b"1\n0\nchip\nL NM; L XX; E"),
        end: End::Refused(Code::C2, 4, 7),
        output: NOTHING,
        log: b"rxc: C2 LayerUnknown at 4:7\n",
    },
    Row {
        words: &[b"sim"],
        input: Input::Text(b"1\n0\nchip\nL NM;\nB 800 800 300 400;\nE"),
        end: End::Refused(Code::C7, 5, 1),
        output: NOTHING,
        log: b"rxc: C7 NotOnGrid at 5:1\n",
    },
    Row {
        words: &[b"sim"],
        input: Input::Text(b"1\nchip\nL NM; B 800 800 400 400;"),
        end: End::Refused(Code::C10, 3, 25),
        output: NOTHING,
        log: b"rxc: C10 NoEnd at 3:25\n",
    },
    Row {
        words: &[b"sim"],
        input: Input::Text(b"1\nchip\nL NM; B 800 800 400 400; E L"),
        end: End::Refused(Code::C11, 3, 28),
        output: NOTHING,
        log: b"rxc: C11 AfterEnd at 3:28\n",
    },
    Row {
        words: &[b"sim"],
        input: Input::Behind(b"chip\n", TOO_MANY),
        end: End::Refused(Code::C13, 10, 1),
        output: NOTHING,
        log: b"rxc: C13 TooManyBoxes at 10:1\n",
    },
    Row {
        words: &[b"sim"],
        input: Input::Text(
            b"1\nchip\nL ND; B 1600 1600 800 800; L NP; B 400 800 600 800; B 400 400 1000 600; E",
        ),
        end: End::Square(Code::X1, 2, 2),
        output: NOTHING,
        log: b"rxc: X1 OddChannel at square 2,2\n",
    },
    Row {
        words: &[b"sim"],
        input: Input::Behind(b"1\nchip\nL NP; 94 IN:x 0 0 NP;", TRANSISTOR),
        end: End::Square(Code::X4, 0, 0),
        output: NOTHING,
        log: b"rxc: X4 LabelOnNothing at square 0,0\n",
    },
    Row {
        words: &[b"sim"],
        input: Input::Text(b"1\nchip\nE"),
        end: End::Whole(Code::X6),
        output: NOTHING,
        log: b"rxc: X6 MissingPad\n",
    },
    Row {
        words: &[b"sim"],
        input: Input::Text(b"1x\nchip\nL XX; E"),
        end: End::Refused(Code::V1, 1, 2),
        output: NOTHING,
        log: b"rxc: V1 BadBit at 1:2\n",
    },
    Row {
        words: &[b"sim"],
        input: Input::Text(b"1\n11\nchip\nL XX; E"),
        end: End::Refused(Code::C2, 4, 1),
        output: NOTHING,
        log: b"rxc: C2 LayerUnknown at 4:1\n",
    },
    Row {
        words: &[b"sim"],
        input: Input::Text(b"1\n11\nchip\nE"),
        end: End::Whole(Code::X6),
        output: NOTHING,
        log: b"rxc: X6 MissingPad\n",
    },
    Row {
        words: &[b"sim"],
        input: Input::Behind(b"11\nchip\n", TRANSISTOR),
        end: End::Refused(Code::V2, 1, 1),
        output: NOTHING,
        log: b"rxc: V2 WrongWidth at 1:1\n",
    },
    Row {
        words: &[b"sim"],
        input: Input::Behind(b"1\n0\n01\nchip\n", TRANSISTOR),
        end: End::Refused(Code::V2, 3, 1),
        output: NOTHING,
        log: b"rxc: V2 WrongWidth at 3:1\n",
    },
    Row {
        words: &[b"sim"],
        input: Input::Text(b"chip\nrxnet 1 \n; E"),
        end: End::Whole(Code::X6),
        output: NOTHING,
        log: b"rxc: X6 MissingPad\n",
    },
    Row {
        words: &[b"sim"],
        input: Input::Text(b"chip\nrxnet 1\n; E"),
        end: End::Refused(Code::N1, 3, 1),
        output: NOTHING,
        log: b"rxc: N1 Syntax at 3:1\n",
    },
    Row {
        words: &[b"sim"],
        input: Input::Text(b"chip\nRXNET 1\n"),
        end: End::Refused(Code::C9, 2, 1),
        output: NOTHING,
        log: b"rxc: C9 ShapeNotInProfile at 2:1\n",
    },
];
