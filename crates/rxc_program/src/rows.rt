//! Runs of the program, as data: a further run is a further row.
use crate::extract_rows::TRANSISTOR;
use crate::sim_rows::INVERTER;
use crate::status::{Code, Status};
use rx_text::Place;

/// The words and the input of a run, how it ends, and what the output and the log take.
#[derive(Clone, Copy)]
pub(crate) struct Row {
    pub(crate) words: &'static [&'static [u8]],
    pub(crate) input: Input,
    pub(crate) end: End,
    pub(crate) output: Output,
    pub(crate) log: &'static [u8],
}

/// An input.
#[derive(Clone, Copy)]
pub(crate) enum Input {
    /// These bytes.
    Text(&'static [u8]),
    /// A trace, and a chip behind it.
    Behind(&'static [u8], &'static [u8]),
    /// A front, a piece so many times, and a rest.
    Repeated(&'static [u8], &'static [u8], u32, &'static [u8]),
    /// A trace, and what the word writes for the specification.
    Compiled(&'static [u8], &'static [u8], &'static [u8]),
}

/// How a run ends.
#[derive(Clone, Copy)]
pub(crate) enum End {
    Done,
    /// The code, the line and the column.
    Refused(Code, u32, u32),
    /// The code and the square.
    Square(Code, i64, i64),
    /// The code, of the input as a whole.
    Whole(Code),
    TooLong,
    /// The number of the word.
    Usage(u32),
}

/// What the output is.
#[derive(Clone, Copy)]
pub(crate) enum Output {
    /// These bytes.
    Is(&'static [u8]),
    /// A front, a part somewhere, and an end.
    Holds(&'static [u8], &'static [u8], &'static [u8]),
    /// The text of a network without devices, with this front.
    Bare(&'static [u8]),
}

/// The status of the end.
pub(crate) fn status_of(end: &End) -> Status {
    match end {
        End::Done => Status::Done,
        End::Refused(code, line, column) => Status::Refused {
            code: *code,
            place: Place::Text {
                line: *line,
                column: *column,
            },
        },
        End::Square(code, x, y) => Status::Refused {
            code: *code,
            place: Place::Square { x: *x, y: *y },
        },
        End::Whole(code) => Status::Refused {
            code: *code,
            place: Place::Whole,
        },
        End::TooLong => Status::Refused {
            code: Code::I1,
            place: Place::Whole,
        },
        End::Usage(word) => Status::Usage { word: *word },
    }
}

/// No output.
pub(crate) const NOTHING: Output = Output::Is(b"");

/// A network's text.
const NETWORK: Output = Output::Holds(b"rxnet 1\nnets ", b"\nvdd 0\ngnd 1\n", b"\nend\n");

/// The specification of one occurrence, and its network after the drawings of a leaf and of the frame: loads, the gates of the
/// frame and of the leaf with its mark, and the registers of both.
pub(crate) const ONE: &[u8] = b"line x;\nsymbol a = 1;\noutput z;\nexpr a !z;\n";

const ONE_NETWORK: &[u8] =
    b"rxnet 1\nnets 22\nvdd 0\ngnd 1\nphi1 2\nphi2 3\nreset 4\nin x 5\nout z 17\nload 6\nload 7\nload 9\nload 11\nload 12\nload 13\nload 14\nload 15\nload 16\nload 17\nload 19\nload 21\npass 5 6 1\npass 6 7 1\npass 8 9 1\npass 16 17 1\npass 18 19 1\npass 10 11 1\npass 9 12 1\npass 12 13 1\npass 7 14 1\npass 12 15 1\npass 14 15 1\npass 4 15 1\npass 20 21 1\npass 11 16 1\npass 2 4 18\npass 3 19 8\npass 2 15 20\npass 3 21 10\nend\n";

/// The pads of a specification with one line `x` and one output `z`.
const ONE_PADS: &[u8] = b"\nvdd 0\ngnd 1\nphi1 2\nphi2 3\nreset 4\nin x 5\nout z ";

/// A specification up to its symbols in sequence.
pub(crate) const SYMBOLS: &[u8] = b"line x;\nsymbol a = 1;\noutput z;\nexpr";

/// Runs of `net`, and of words that are no command.
pub(crate) const ROWS: &[Row] = &[
    Row {
        words: &[b"net"],
        input: Input::Text(ONE),
        end: End::Done,
        output: Output::Is(ONE_NETWORK),
        log: b"",
    },
    Row {
        words: &[],
        input: Input::Text(ONE),
        end: End::Usage(1),
        output: NOTHING,
        log: b"rxc: usage, word 1\n",
    },
    Row {
        words: &[b"nte"],
        input: Input::Text(ONE),
        end: End::Usage(1),
        output: NOTHING,
        log: b"rxc: usage, word 1\n",
    },
    Row {
        words: &[b""],
        input: Input::Text(ONE),
        end: End::Usage(1),
        output: NOTHING,
        log: b"rxc: usage, word 1\n",
    },
    Row {
        words: &[b"net", b"net"],
        input: Input::Text(ONE),
        end: End::Usage(2),
        output: NOTHING,
        log: b"rxc: usage, word 2\n",
    },
    Row {
        words: &[b"si"],
        input: Input::Text(ONE),
        end: End::Usage(1),
        output: NOTHING,
        log: b"rxc: usage, word 1\n",
    },
    Row {
        words: &[b"sim", b"net"],
        input: Input::Text(ONE),
        end: End::Usage(2),
        output: NOTHING,
        log: b"rxc: usage, word 2\n",
    },
    Row {
        words: &[b"net", b"sim", b"sim"],
        input: Input::Text(ONE),
        end: End::Usage(2),
        output: NOTHING,
        log: b"rxc: usage, word 2\n",
    },
    Row {
        words: &[b"nte", b"net", b"x"],
        input: Input::Text(ONE),
        end: End::Usage(1),
        output: NOTHING,
        log: b"rxc: usage, word 1\n",
    },
    Row {
        words: &[b"net"],
        input: Input::Text(b""),
        end: End::Refused(Code::S6, 1, 1),
        output: NOTHING,
        log: b"rxc: S6 NoLines at 1:1\n",
    },
    Row {
        words: &[b"net"],
        input: Input::Text(b"line x;\nsymbol a = 1;\noutput z;\nexpr b !z;\n"),
        end: End::Refused(Code::S3, 4, 6),
        output: NOTHING,
        log: b"rxc: S3 UnknownName at 4:6\n",
    },
    Row {
        words: &[b"net"],
        input: Input::Text(b"line x x;\nsymbol a = 1;\noutput z;\nexpr a !z;\n"),
        end: End::Refused(Code::S4, 1, 8),
        output: NOTHING,
        log: b"rxc: S4 DoubleName at 1:8\n",
    },
    Row {
        words: &[b"net"],
        input: Input::Text(
            b"line x y;\nsymbol a = 1;\nsymbol b = 01;\noutput z;\nexpr (a|b)* a !z;\n",
        ),
        end: End::Refused(Code::S5, 2, 12),
        output: NOTHING,
        log: b"rxc: S5 PatternLength at 2:12\n",
    },
    Row {
        words: &[b"net"],
        input: Input::Text(b"line x;\nsymbol a = 1;\noutput z;\nexpr A !z;\n"),
        end: End::Refused(Code::S1, 4, 6),
        output: NOTHING,
        log: b"rxc: S1 BadByte at 4:6\n",
    },
    Row {
        words: &[b"net"],
        input: Input::Text(b"line x; line y; output z;"),
        end: End::Refused(Code::S7, 1, 17),
        output: NOTHING,
        log: b"rxc: S7 NoSymbols at 1:17\n",
    },
    Row {
        words: &[b"net"],
        input: Input::Text(b"line x; symbol a = 1; output z; expr A !z;"),
        end: End::Refused(Code::S1, 1, 38),
        output: NOTHING,
        log: b"rxc: S1 BadByte at 1:38\n",
    },
    Row {
        words: &[b"net"],
        input: Input::Text(b"line x; symbol a = 1; output z; expr a | ;"),
        end: End::Refused(Code::S2, 1, 42),
        output: NOTHING,
        log: b"rxc: S2 BadToken at 1:42\n",
    },
    Row {
        words: &[b"net"],
        input: Input::Text(b"line x; symbol a = 1; output z; expr b !z;"),
        end: End::Refused(Code::S3, 1, 38),
        output: NOTHING,
        log: b"rxc: S3 UnknownName at 1:38\n",
    },
    Row {
        words: &[b"net"],
        input: Input::Text(b"line x x; symbol a = 1; output z; expr a !z;"),
        end: End::Refused(Code::S4, 1, 8),
        output: NOTHING,
        log: b"rxc: S4 DoubleName at 1:8\n",
    },
    Row {
        words: &[b"net"],
        input: Input::Text(b"line x; symbol a = 10; output z; expr a !z;"),
        end: End::Refused(Code::S5, 1, 20),
        output: NOTHING,
        log: b"rxc: S5 PatternLength at 1:20\n",
    },
    Row {
        words: &[b"net"],
        input: Input::Text(b"symbol a = 1; output z; expr a !z;"),
        end: End::Refused(Code::S6, 1, 1),
        output: NOTHING,
        log: b"rxc: S6 NoLines at 1:1\n",
    },
    Row {
        words: &[b"net"],
        input: Input::Text(b"line x; output z; expr a !z;"),
        end: End::Refused(Code::S7, 1, 9),
        output: NOTHING,
        log: b"rxc: S7 NoSymbols at 1:9\n",
    },
    Row {
        words: &[b"net"],
        input: Input::Text(b"line x; symbol a = 1; expr a;"),
        end: End::Refused(Code::S8, 1, 23),
        output: NOTHING,
        log: b"rxc: S8 NoOutputs at 1:23\n",
    },
    Row {
        words: &[b"net"],
        input: Input::Text(b"line x; symbol a = 1; output z;"),
        end: End::Refused(Code::S9, 1, 32),
        output: NOTHING,
        log: b"rxc: S9 NoExpression at 1:32\n",
    },
    Row {
        words: &[b"net"],
        input: Input::Text(
            b"line a b c d e f g h i j k l m n o p q; symbol s = 1; output z; expr s;",
        ),
        end: End::Refused(Code::S10, 1, 38),
        output: NOTHING,
        log: b"rxc: S10 TooManyLines at 1:38\n",
    },
    Row {
        words: &[b"net"],
        input: Input::Text(
            b"line x; symbol s = 1; output a b c d e f g h i j k l m n o p q; expr s;",
        ),
        end: End::Refused(Code::S12, 1, 62),
        output: NOTHING,
        log: b"rxc: S12 TooManyOutputs at 1:62\n",
    },
    Row {
        words: &[b"net"],
        input: Input::Text(
            b"version 2;\nline x;\nsymbol a = 1;\noutput z;\nexpr a{64,64}{65,65} !z;\n",
        ),
        end: End::Refused(Code::S13, 5, 20),
        output: NOTHING,
        log: b"rxc: S13 TooManyLeaves at 5:20\n",
    },
    Row {
        words: &[b"net"],
        input: Input::Text(b"version 2;\nline x;\nsymbol a = 1;\noutput z;\nexpr a{3,2} !z;\n"),
        end: End::Refused(Code::S15, 5, 10),
        output: NOTHING,
        log: b"rxc: S15 BadBounds at 5:10\n",
    },
    Row {
        words: &[b"net"],
        input: Input::Text(b"line x;\nsymbol a = 1;\noutput z;\nexpr [a] !z;\n"),
        end: End::Refused(Code::S1, 4, 6),
        output: NOTHING,
        log: b"rxc: S1 BadByte at 4:6\n",
    },
    Row {
        words: &[b"net"],
        input: Input::Text(b"version 2;\nline x;\nsymbol a = 1;\noutput z;\nexpr [a] !z;\n"),
        end: End::Done,
        output: NETWORK,
        log: b"",
    },
    Row {
        words: &[b"net"],
        input: Input::Text(b"line x;\nsymbol a = 1;\noutput z;\nscan a !z;\n"),
        end: End::Refused(Code::S2, 4, 1),
        output: NOTHING,
        log: b"rxc: S2 BadToken at 4:1\n",
    },
    Row {
        words: &[b"net"],
        input: Input::Repeated(SYMBOLS, b" a", 4096, b" !z;\n"),
        end: End::Done,
        output: NETWORK,
        log: b"",
    },
    Row {
        words: &[b"net"],
        input: Input::Repeated(SYMBOLS, b" a", 4097, b" !z;\n"),
        end: End::Refused(Code::S13, 4, 8198),
        output: NOTHING,
        log: b"rxc: S13 TooManyLeaves at 4:8198\n",
    },
    Row {
        words: &[b"net"],
        input: Input::Text(
            b"# High after each word that ends with 1 1 0 1.\nline d;\nsymbol one = 1;\nsymbol zero = 0;\noutput hit;\nexpr (one | zero)* one one zero one !hit;\n",
        ),
        end: End::Done,
        output: Output::Holds(b"rxnet 1\n", b"\nreset 4\nin d 5\nout hit ", b"\nend\n"),
        log: b"",
    },
    Row {
        words: &[b"net"],
        input: Input::Text(
            b"line req ack;\nsymbol idle = 00;\nsymbol ask = 10;\nsymbol grant = 11;\nsymbol lone_ack = 01;\nsymbol any = --;\noutput done stray;\nexpr any* ask grant !done;\nexpr any* idle lone_ack !stray;\n",
        ),
        end: End::Done,
        output: Output::Holds(
            b"rxnet 1\n",
            b"\nreset 4\nin req 5\nin ack 6\nout done ",
            b"\nend\n",
        ),
        log: b"",
    },
    Row {
        words: &[b"net"],
        input: Input::Text(
            b"# Three ones in a row from the start.\nline d;\nsymbol one = 1;\noutput run;\nexpr one one one !run;\n",
        ),
        end: End::Done,
        output: Output::Holds(b"rxnet 1\n", b"\nreset 4\nin d 5\nout run ", b"\nend\n"),
        log: b"",
    },
    Row {
        words: &[b"net"],
        input: Input::Text(
            b"line x y;\nsymbol a = 1-;\nsymbol b = 01;\noutput z;\nexpr (a|b)* a !z;\n",
        ),
        end: End::Done,
        output: Output::Holds(
            b"rxnet 1\n",
            b"\nreset 4\nin x 5\nin y 6\nout z ",
            b"\nend\n",
        ),
        log: b"",
    },
    Row {
        words: &[b"net"],
        input: Input::Text(b"line x;\nsymbol a = 1;\noutput z;\nexpr (a? !z)*;\n"),
        end: End::Done,
        output: Output::Holds(b"rxnet 1\n", ONE_PADS, b"\nend\n"),
        log: b"",
    },
    Row {
        words: &[b"net"],
        input: Input::Text(
            b"line x;\nsymbol a = 1;\nsymbol b = 0;\noutput z;\nexpr ((a*)* | b?)+ !z;\n",
        ),
        end: End::Done,
        output: Output::Holds(b"rxnet 1\n", ONE_PADS, b"\nend\n"),
        log: b"",
    },
    Row {
        words: &[b"net"],
        input: Input::Text(
            b"line x;\nsymbol a = 1;\nsymbol b = 0;\noutput y z;\nexpr (a !y) b !z;\n",
        ),
        end: End::Done,
        output: Output::Holds(b"rxnet 1\n", b"\nreset 4\nin x 5\nout y ", b"\nend\n"),
        log: b"",
    },
    Row {
        words: &[b"net"],
        input: Input::Text(
            b"line x y;\nsymbol a = 1-;\nsymbol b = -1;\noutput z v;\nexpr a b !z;\nexpr b a !v;\n",
        ),
        end: End::Done,
        output: Output::Holds(
            b"rxnet 1\n",
            b"\nreset 4\nin x 5\nin y 6\nout z ",
            b"\nend\n",
        ),
        log: b"",
    },
    Row {
        words: &[b"net"],
        input: Input::Text(b"line x;\nsymbol a = 1;\noutput z;\nexpr a;\n"),
        end: End::Done,
        output: Output::Holds(b"rxnet 1\n", ONE_PADS, b"\nend\n"),
        log: b"",
    },
    Row {
        words: &[b"net"],
        input: Input::Text(
            b"line x; # a line\nsymbol a = 1;#\noutput z;\n# the mark\nexpr a !z; # no line feed",
        ),
        end: End::Done,
        output: Output::Is(ONE_NETWORK),
        log: b"",
    },
    Row {
        words: &[b"net"],
        input: Input::Repeated(
            b" ",
            b"                                                                ",
            1_048_576,
            b"",
        ),
        end: End::TooLong,
        output: NOTHING,
        log: b"rxc: I1 TooLong\n",
    },
];

/// Words and inputs of which no front is accepted, up to so many bytes before the end.
pub(crate) const FRONTS: &[(&[u8], Input, usize)] = &[
    (b"net", Input::Text(ONE), 2),
    (b"pla", Input::Text(ONE), 2),
    (b"tree", Input::Text(ONE), 2),
    (b"report", Input::Text(ONE), 2),
    (b"sim", Input::Behind(b"1\nchip\n", INVERTER), 0),
    (b"sim", Input::Behind(b"1\nchip\n", TRANSISTOR), 0),
];

/// A run in which each call of the source and of the sink fails in turn: its word and input, how many reads it makes, how many
/// bytes the sink takes at most in a call, and how many writes there are then.
#[derive(Clone, Copy)]
pub(crate) struct Failing {
    pub(crate) word: &'static [u8],
    pub(crate) input: Input,
    pub(crate) reads: u32,
    pub(crate) most: usize,
    pub(crate) writes: u32,
}

/// The runs with failures: the second read finds the end, and there is no third; each line of `sim` is a piece of four bytes.
pub(crate) const FAILING: &[Failing] = &[
    Failing {
        word: b"report",
        input: Input::Text(ONE),
        reads: 2,
        most: 64,
        writes: 4,
    },
    Failing {
        word: b"net",
        input: Input::Text(ONE),
        reads: 2,
        most: 1,
        writes: 386,
    },
    Failing {
        word: b"net",
        input: Input::Text(ONE),
        reads: 2,
        most: 2,
        writes: 193,
    },
    Failing {
        word: b"net",
        input: Input::Text(ONE),
        reads: 2,
        most: 16,
        writes: 25,
    },
    Failing {
        word: b"net",
        input: Input::Text(ONE),
        reads: 2,
        most: usize::MAX,
        writes: 1,
    },
    Failing {
        word: b"sim",
        input: Input::Behind(b"1\nchip\n", TRANSISTOR),
        reads: 2,
        most: 3,
        writes: 2,
    },
    Failing {
        word: b"sim",
        input: Input::Compiled(b"net", b"1\n0\n1\nchip\n", ONE),
        reads: 2,
        most: 1,
        writes: 16,
    },
    Failing {
        word: b"sim",
        input: Input::Compiled(b"net", b"1\n0\n1\nchip\n", ONE),
        reads: 2,
        most: 2,
        writes: 8,
    },
    Failing {
        word: b"sim",
        input: Input::Compiled(b"net", b"1\n0\n1\nchip\n", ONE),
        reads: 2,
        most: 4,
        writes: 4,
    },
];
