// How a run of the program ends.

ghost use Rattle.std.specs.Prelude.{◌≡◌};
ghost use Rattle.rxc_program.specs.Codes.{net_code, spec_code, trace_code};
ghost use Rattle.rxc_program.specs.LayoutCodes.{cif_code, extract_code};
ghost use Rattle.rxc_program.specs.StatusText.{exit_number};

use geom::CifCode;
use net_text::NetCode;
use nmos_model::ExtractCode;
use rx_syntax::SpecCode;
use rx_text::Place;
use switch_sim::TraceCode;

/// Why an input is refused.
#[derive(Clone, Copy, Debug, PartialEq, Eq)]
pub enum Code {
    /// BadByte: a byte begins no token, blank or comment.
    S1,
    /// BadToken: no specification goes on with this token, or ends here.
    S2,
    /// UnknownName: a name in an expression is no symbol, or after `!` no output.
    S3,
    /// DoubleName: a name was declared before.
    S4,
    /// PatternLength: a pattern has not as many places as there are lines.
    S5,
    /// NoLines: a later section or the end comes where the first `line` is due.
    S6,
    /// NoSymbols: a later section or the end comes where the first `symbol` is due.
    S7,
    /// NoOutputs: a later section or the end comes where the first `output` is due.
    S8,
    /// NoExpression: the end comes where the first `expr`, or in version 2 the first `expr` or `scan`, is due.
    S9,
    /// TooManyLines: more than 16 lines.
    S10,
    /// TooManySymbols: more than 32 symbols.
    S11,
    /// TooManyOutputs: more than 16 outputs.
    S12,
    /// TooManyLeaves: more symbols in all expressions than the command allows.
    S13,
    /// TooDeep: more than 200 parentheses and brackets are open at once.
    S14,
    /// BadBounds: a number in braces is above 255, or the second is 0 or less than the first.
    S15,
    /// Syntax: no network text goes on with this byte, or ends here.
    N1,
    /// NetOutOfRange: a net is not below the number of nets.
    N2,
    /// DoublePad: a pad repeats the name or the net of an earlier pad.
    N3,
    /// MissingPad: a supply, a clock or the reset has no pad.
    N4,
    /// TooManyNets: a network has more than 16,777,216 nets.
    N5,
    /// AfterEnd: a byte stands behind the line `end` of a network text.
    N6,
    /// Syntax: no CIF text goes on with this byte, or a number of a scale is 0.
    C1,
    /// LayerUnknown: a short name is that of no layer.
    C2,
    /// NoLayer: a shape is drawn where no layer is set.
    C3,
    /// SymbolUnknown: a symbol is called that no closed definition before defines.
    C4,
    /// SymbolAgain: a symbol is defined again.
    C5,
    /// NestedDefinition: a definition opens inside another, `DF` stands outside definitions, or `E` inside one.
    C6,
    /// NotOnGrid: an edge, a point or a translation is off the grid of lambda.
    C7,
    /// OutOfRange: a number, an edge or a translation is too far from 0.
    C8,
    /// ShapeNotInProfile: a shape, a direction or a command is outside the profile.
    C9,
    /// NoEnd: a CIF text ends before `E`.
    C10,
    /// AfterEnd: a byte that is no blank stands behind `E`.
    C11,
    /// BadLabel: a label is malformed, or stands in a definition.
    C12,
    /// TooManyBoxes: more than 8,000,000 boxes are drawn.
    C13,
    /// TooDeep: a call makes a chain of more than 64 calls.
    C14,
    /// TooManyPoints: a polygon or a wire has more than 4,096 points.
    C15,
    /// OddChannel: a channel region is no full rectangle, or lies partly under implant.
    X1,
    /// OddTerminals: conducting diffusion does not lie along two opposite sides of a channel region, and nowhere along the others.
    X2,
    /// OddLoad: a depletion device is no load.
    X3,
    /// LabelOnNothing: a label's square does not conduct in the label's layer.
    X4,
    /// LabelsDisagree: a label's name stands on another net before, or its net bears another name before.
    X5,
    /// MissingPad: no label has the name VDD, GND, PHI1, PHI2 or RESET.
    X6,
    /// BadBit: a line of a trace is empty or has a byte that is neither `0` nor `1`, and is not `chip`.
    V1,
    /// WrongWidth: a vector has not as many bits as the network has input pads.
    V2,
    /// TooManyVectors: more than 10,000 lines stand before the line `chip` or the end.
    V3,
    /// NoChip: the input ends before a line `chip` that a line feed ends.
    V4,
    /// TooLong: the input has more than 67,108,864 bytes.
    I1,
}

impl Code {
    /// The code of a fault in a specification.
    pub(crate) fn of_spec(code: SpecCode) -> Code
        ensures { result ≡ spec_code code }
    {
        match code {
            SpecCode::S1 => Code::S1,
            SpecCode::S2 => Code::S2,
            SpecCode::S3 => Code::S3,
            SpecCode::S4 => Code::S4,
            SpecCode::S5 => Code::S5,
            SpecCode::S6 => Code::S6,
            SpecCode::S7 => Code::S7,
            SpecCode::S8 => Code::S8,
            SpecCode::S9 => Code::S9,
            SpecCode::S10 => Code::S10,
            SpecCode::S11 => Code::S11,
            SpecCode::S12 => Code::S12,
            SpecCode::S13 => Code::S13,
            SpecCode::S14 => Code::S14,
            SpecCode::S15 => Code::S15,
        }
    }

    /// The code of a fault in a network text.
    pub(crate) fn of_net(code: NetCode) -> Code
        ensures { result ≡ net_code code }
    {
        match code {
            NetCode::N1 => Code::N1,
            NetCode::N2 => Code::N2,
            NetCode::N3 => Code::N3,
            NetCode::N4 => Code::N4,
            NetCode::N5 => Code::N5,
            NetCode::N6 => Code::N6,
        }
    }

    /// The code of a fault in a CIF text, or in what it draws.
    pub(crate) fn of_cif(code: CifCode) -> Code
        ensures { result ≡ cif_code code }
    {
        match code {
            CifCode::C1 => Code::C1,
            CifCode::C2 => Code::C2,
            CifCode::C3 => Code::C3,
            CifCode::C4 => Code::C4,
            CifCode::C5 => Code::C5,
            CifCode::C6 => Code::C6,
            CifCode::C7 => Code::C7,
            CifCode::C8 => Code::C8,
            CifCode::C9 => Code::C9,
            CifCode::C10 => Code::C10,
            CifCode::C11 => Code::C11,
            CifCode::C12 => Code::C12,
            CifCode::C13 => Code::C13,
            CifCode::C14 => Code::C14,
            CifCode::C15 => Code::C15,
        }
    }

    /// The code of squares and labels that stand for no network.
    pub(crate) fn of_extract(code: ExtractCode) -> Code
        ensures { result ≡ extract_code code }
    {
        match code {
            ExtractCode::X1 => Code::X1,
            ExtractCode::X2 => Code::X2,
            ExtractCode::X3 => Code::X3,
            ExtractCode::X4 => Code::X4,
            ExtractCode::X5 => Code::X5,
            ExtractCode::X6 => Code::X6,
        }
    }

    /// The code of a fault in a trace.
    pub(crate) fn of_trace(code: TraceCode) -> Code
        ensures { result ≡ trace_code code }
    {
        match code {
            TraceCode::V1 => Code::V1,
            TraceCode::V2 => Code::V2,
            TraceCode::V3 => Code::V3,
            TraceCode::V4 => Code::V4,
        }
    }
}

/// How a run ends.
#[derive(Clone, Copy, Debug, PartialEq, Eq)]
pub enum Status {
    /// The input was read to its end, by all commands but `demo`, and the output was written whole.
    Done,
    /// The input breaks the named condition at the named place; nothing was written.
    Refused { code: Code, place: Place },
    /// The words are no command; `word` is the number of the first, from 1, at which no command goes on.
    Usage { word: u32 },
    /// The source failed; nothing was written.
    ReadFault,
    /// The sink failed; a front of the output was written.
    WriteFault,
    /// No memory was to be had; a front of the output of `sim` was written, and nothing by the other commands.
    NoMemory,
}

impl Status {
    /// The exit number of the program: 0 to 5 in the order of the variants, where Refused is 1.
    pub fn exit(&self) -> u8
        ensures { result ≡ exit_number self.now }
    {
        match self {
            Status::Done => 0,
            Status::Refused { .. } => 1,
            Status::Usage { .. } => 2,
            Status::ReadFault => 3,
            Status::WriteFault => 4,
            Status::NoMemory => 5,
        }
    }
}
