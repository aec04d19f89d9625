// What may come next behind the tokens that were read.

ghost use Rattle.std.specs.Prelude.{◌≡◌, ◌≤◌};
ghost use Rattle.rx_syntax.specs.Machine.{step, missing, end_code, token_step};

use crate::kind::Kind;
use crate::spec_code::SpecCode;

/// The most parentheses that may be open at once.
const MOST_OPEN: u32 = 200;

/// What is due next.
#[derive(Clone, Copy, Debug, PartialEq, Eq)]
pub enum Due {
    /// The first `line`.
    FirstLine,
    /// The first name of a line statement.
    LineName,
    /// A further name of a line statement, or its end.
    MoreNames,
    /// A further `line`, or the first `symbol`.
    NextLine,
    /// The name of a symbol.
    SymbolName,
    /// The equals sign behind the name of a symbol.
    SymbolEquals,
    /// The pattern of a symbol.
    SymbolPattern,
    /// The end of a symbol statement.
    SymbolEnd,
    /// A further `symbol`, or the first `output`.
    NextSymbol,
    /// The first name of an output statement.
    OutputName,
    /// A further name of an output statement, or its end.
    MoreOutputs,
    /// A further `output`, or the first `expr` or `scan`.
    NextOutput,
    /// A part of an expression.
    Part,
    /// What may come behind a part of an expression.
    Rest,
    /// The name of an output behind `!`.
    MarkName,
    /// The first name of a class.
    ClassName,
    /// A further name of a class, or its end.
    ClassNames,
    /// The least number of a counted repeat.
    Least,
    /// The comma between the numbers of a counted repeat.
    Between,
    /// The most number of a counted repeat.
    Most,
    /// The end of the numbers of a counted repeat.
    BoundsEnd,
    /// A further `expr` or `scan`, or the end.
    NextExpr,
}

/// What is due next, and how many parentheses are open.
#[derive(Clone, Copy, Debug, PartialEq, Eq)]
pub struct State {
    pub due: Due,
    pub depth: u32,
}

impl State {
    /// What is due behind a token of this kind, where it may come.
    fn step(self, kind: Kind) -> Option<State>
        requires { self.depth ≤ 200 }
        ensures { result ≡ step self.due kind self.depth }
    {
        let depth = self.depth;
        let (due, depth) = match (self.due, kind) {
            (Due::FirstLine | Due::NextLine, Kind::Line) => (Due::LineName, 0),
            (Due::LineName | Due::MoreNames, Kind::Name) => (Due::MoreNames, 0),
            (Due::MoreNames, Kind::Semicolon) => (Due::NextLine, 0),
            (Due::NextLine | Due::NextSymbol, Kind::Symbol) => (Due::SymbolName, 0),
            (Due::SymbolName, Kind::Name) => (Due::SymbolEquals, 0),
            (Due::SymbolEquals, Kind::Equals) => (Due::SymbolPattern, 0),
            (Due::SymbolPattern, Kind::Bits | Kind::Pattern) => (Due::SymbolEnd, 0),
            (Due::SymbolEnd, Kind::Semicolon) => (Due::NextSymbol, 0),
            (Due::NextSymbol | Due::NextOutput, Kind::Output) => (Due::OutputName, 0),
            (Due::OutputName | Due::MoreOutputs, Kind::Name) => (Due::MoreOutputs, 0),
            (Due::MoreOutputs, Kind::Semicolon) => (Due::NextOutput, 0),
            (Due::NextOutput | Due::NextExpr, Kind::Expr | Kind::Scan) => (Due::Part, 0),
            (Due::Part | Due::Rest | Due::MarkName, Kind::Name) => (Due::Rest, depth),
            (Due::Part | Due::Rest, Kind::Open) => (Due::Part, depth + 1),
            (Due::Rest, Kind::Close) if depth > 0 => (Due::Rest, depth - 1),
            (Due::Rest, Kind::Bar) => (Due::Part, depth),
            (Due::Rest, Kind::Star | Kind::Plus | Kind::Question) => (Due::Rest, depth),
            (Due::Part | Due::Rest, Kind::OpenBracket) => (Due::ClassName, depth + 1),
            (Due::ClassName | Due::ClassNames, Kind::Name) => (Due::ClassNames, depth),
            (Due::ClassNames, Kind::CloseBracket) => (Due::Rest, depth.saturating_sub(1)),
            (Due::Rest, Kind::OpenBrace) => (Due::Least, depth),
            (Due::Least, Kind::Bits | Kind::Number) => (Due::Between, depth),
            (Due::Between, Kind::Comma) => (Due::Most, depth),
            (Due::Most, Kind::Bits | Kind::Number) => (Due::BoundsEnd, depth),
            (Due::BoundsEnd, Kind::CloseBrace) => (Due::Rest, depth),
            (Due::Rest, Kind::Mark) => (Due::MarkName, depth),
            (Due::Rest, Kind::Semicolon) if depth == 0 => (Due::NextExpr, 0),
            _ => return None,
        };
        Some(State { due, depth })
    }

    /// What is due behind a token of this kind, or the code that stands at it.
    pub(crate) fn after_token(self, kind: Kind) -> Result<State, SpecCode>
        requires { self.depth ≤ 200 }
        ensures { result ≡ token_step self.due kind self.depth }
    {
        if kind == Kind::Bad {
            return Err(SpecCode::S1);
        }
        if let Some(code) = missing(self.due, kind) {
            return Err(code);
        }
        match self.step(kind) {
            None => Err(SpecCode::S2),
            Some(state) if state.depth <= MOST_OPEN => Ok(state),
            Some(_) => Err(SpecCode::S14),
        }
    }
}

// The code where a later section's keyword comes too early.
fn missing(due: Due, kind: Kind) -> Option<SpecCode>
    ensures { result ≡ missing due kind }
{
    match (due, kind) {
        (Due::FirstLine, Kind::Symbol | Kind::Output | Kind::Expr | Kind::Scan) => {
            Some(SpecCode::S6)
        }
        (Due::NextLine, Kind::Output | Kind::Expr | Kind::Scan) => Some(SpecCode::S7),
        (Due::NextSymbol, Kind::Expr | Kind::Scan) => Some(SpecCode::S8),
        _ => None,
    }
}

/// The code where the text ends, if it may not end there.
pub(crate) fn end_code(due: Due) -> Option<SpecCode>
    ensures { result ≡ end_code due }
{
    match due {
        Due::FirstLine => Some(SpecCode::S6),
        Due::NextLine => Some(SpecCode::S7),
        Due::NextSymbol => Some(SpecCode::S8),
        Due::NextOutput => Some(SpecCode::S9),
        Due::NextExpr => None,
        _ => Some(SpecCode::S2),
    }
}
