//! Runs of `extract`, as data. The numbers of the nets are free, and so a row names none.
use crate::rows::{End, Input, NOTHING, Output, Row};
use crate::status::Code;

/// Five squares of metal apart from each other, with the pads that each network has.
pub(crate) const PADS: &[u8] =
    b"L NM; B 800 800 20400 400; 94 VDD 20000 0 NM; B 800 800 22400 400; 94 GND 22000 0 NM; \
    B 800 800 24400 400; 94 PHI1 24000 0 NM; B 800 800 26400 400; 94 PHI2 26000 0 NM; \
    B 800 800 28400 400; 94 RESET 28000 0 NM; ";

/// A transistor from the supply to ground.
pub(crate) const TRANSISTOR: &[u8] =
    b"L ND; B 800 4000 400 2000; L NP; B 1600 400 400 2000; 94 GND 0 0 ND; 94 VDD 0 3800 ND; \
    94 IN:x 1000 1800 NP; L NM; B 800 800 4400 400; 94 PHI1 4000 0 NM; B 800 800 6400 400; \
    94 PHI2 6000 0 NM; B 800 800 8400 400; 94 RESET 8000 0 NM; E";

/// Seven definitions that call the one before ten times: 10,000,000 boxes.
pub(crate) const TOO_MANY: &[u8] = b"DS 1 100 1; L NM; B 8 8 4 4; DF;\n\
    DS 2; C 1; C 1; C 1; C 1; C 1; C 1; C 1; C 1; C 1; C 1; DF;\n\
    DS 3; C 2; C 2; C 2; C 2; C 2; C 2; C 2; C 2; C 2; C 2; DF;\n\
    DS 4; C 3; C 3; C 3; C 3; C 3; C 3; C 3; C 3; C 3; C 3; DF;\n\
    DS 5; C 4; C 4; C 4; C 4; C 4; C 4; C 4; C 4; C 4; C 4; DF;\n\
    DS 6; C 5; C 5; C 5; C 5; C 5; C 5; C 5; C 5; C 5; C 5; DF;\n\
    DS 7; C 6; C 6; C 6; C 6; C 6; C 6; C 6; C 6; C 6; C 6; DF;\n\
    DS 8; C 7; C 7; C 7; C 7; C 7; C 7; C 7; C 7; C 7; C 7; DF;\n\
    C 8;\n\
    E\n";

/// The pads, and one square of metal far away.
const FAR_SQUARES: Output = Output::Bare(b"rxnet 1\nnets 6\nvdd ");

/// Runs of `extract`.
pub(crate) const EXTRACT_ROWS: &[Row] = &[
    Row {
        words: &[b"extract"],
        input: Input::Behind(PADS, b"B 800 800 400 400; B 800 800 1200 1200; E"),
        end: End::Done,
        output: Output::Bare(b"rxnet 1\nnets 7\nvdd "),
        log: b"",
    },
    Row {
        words: &[b"extract"],
        input: Input::Behind(PADS, b"B 800 800 400 400; B 800 800 1200 400; E"),
        end: End::Done,
        output: Output::Bare(b"rxnet 1\nnets 6\nvdd "),
        log: b"",
    },
    Row {
        words: &[b"extract"],
        input: Input::Behind(PADS, b"B 800 800 400000400 400; E"),
        end: End::Done,
        output: FAR_SQUARES,
        log: b"",
    },
    Row {
        words: &[b"extract"],
        input: Input::Behind(
            PADS,
            b"B 1000000000000 1000000000000 500000000000 500000004000; E",
        ),
        end: End::Done,
        output: FAR_SQUARES,
        log: b"",
    },
    Row {
        words: &[b"extract"],
        input: Input::Behind(PADS, b"E nd"),
        end: End::Done,
        output: Output::Bare(b"rxnet 1\nnets 5\nvdd "),
        log: b"",
    },
    Row {
        words: &[b"extract"],
        input: Input::Text(TRANSISTOR),
        end: End::Done,
        output: Output::Holds(b"rxnet 1\nnets 6\ngnd ", b"\npass ", b"\nend\n"),
        log: b"",
    },
    Row {
        words: &[b"extract"],
        input: Input::Text(
            b"L ND; B 1600 1600 800 800; L NP; B 400 800 600 800; B 400 400 1000 600; E",
        ),
        end: End::Square(Code::X1, 2, 2),
        output: NOTHING,
        log: b"rxc: X1 OddChannel at square 2,2\n",
    },
    Row {
        words: &[b"extract"],
        input: Input::Behind(PADS, b"94 IN:x 0 0 NM; E"),
        end: End::Square(Code::X4, 0, 0),
        output: NOTHING,
        log: b"rxc: X4 LabelOnNothing at square 0,0\n",
    },
    Row {
        words: &[b"extract"],
        input: Input::Text(b"E"),
        end: End::Whole(Code::X6),
        output: NOTHING,
        log: b"rxc: X6 MissingPad\n",
    },
    Row {
        words: &[b"extract"],
        input: Input::Text(b"L NM; B 800 800 400 400;"),
        end: End::Refused(Code::C10, 1, 25),
        output: NOTHING,
        log: b"rxc: C10 NoEnd at 1:25\n",
    },
    Row {
        words: &[b"extract"],
        input: Input::Text(b"L NM; B 800 800 400 400; E L"),
        end: End::Refused(Code::C11, 1, 28),
        output: NOTHING,
        log: b"rxc: C11 AfterEnd at 1:28\n",
    },
    Row {
        words: &[b"extract"],
        input: Input::Text(b"L XX; E"),
        end: End::Refused(Code::C2, 1, 1),
        output: NOTHING,
        log: b"rxc: C2 LayerUnknown at 1:1\n",
    },
    Row {
        words: &[b"extract"],
        input: Input::Text(b"B 800 800 400 400; E"),
        end: End::Refused(Code::C3, 1, 1),
        output: NOTHING,
        log: b"rxc: C3 NoLayer at 1:1\n",
    },
    Row {
        words: &[b"extract"],
        input: Input::Text(b"L NM; B 800 800 300 400; E"),
        end: End::Refused(Code::C7, 1, 7),
        output: NOTHING,
        log: b"rxc: C7 NotOnGrid at 1:7\n",
    },
    Row {
        words: &[b"extract"],
        input: Input::Text(TOO_MANY),
        end: End::Refused(Code::C13, 9, 1),
        output: NOTHING,
        log: b"rxc: C13 TooManyBoxes at 9:1\n",
    },
    Row {
        words: &[b"extract"],
        input: Input::Behind(b"L XX;\n", TRANSISTOR),
        end: End::Refused(Code::C2, 1, 1),
        output: NOTHING,
        log: b"rxc: C2 LayerUnknown at 1:1\n",
    },
    Row {
        words: &[b"extract", b"extract"],
        input: Input::Text(TRANSISTOR),
        end: End::Usage(2),
        output: NOTHING,
        log: b"rxc: usage, word 2\n",
    },
    Row {
        words: &[b"extracts"],
        input: Input::Text(TRANSISTOR),
        end: End::Usage(1),
        output: NOTHING,
        log: b"rxc: usage, word 1\n",
    },
];
