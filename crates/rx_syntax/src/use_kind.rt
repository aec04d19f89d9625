// How the tokens of a specification use names, patterns and numbers.

ghost use Rattle.std.specs.Prelude.{◌≡◌};
ghost use Rattle.rx_syntax.specs.NameReading.{piece_use, IsOfKind};

use crate::kind::Kind;
use crate::machine::Due;

/// How a token is used.
#[derive(Clone, Copy, Debug, PartialEq, Eq)]
pub enum UseKind {
    /// It declares a line.
    Line,
    /// It declares a symbol.
    Symbol,
    /// It is the pattern of the symbol before it.
    Pattern,
    /// It declares an output.
    Output,
    /// It is a symbol in an expression, with which a part begins.
    Leaf,
    /// It is a further symbol of a class.
    FurtherLeaf,
    /// It is the output of a mark.
    Mark,
    /// It opens a parenthesis.
    Open,
    /// It closes a parenthesis.
    Close,
    /// It is the least number of a counted repeat.
    Least,
    /// It is the most number of a counted repeat.
    Most,
    /// It ends a counted repeat, which adds copies.
    Copies,
}

/// How a piece of a text is used, where this was due before it.
pub(crate) fn use_of(due: Due, kind: Option<Kind>) -> Option<UseKind>
    ensures uses { result ≡ piece_use due kind }
    ensures kind { IsOfKind result kind }
{
    match (due, kind?) {
        (Due::LineName | Due::MoreNames, Kind::Name) => Some(UseKind::Line),
        (Due::SymbolName, Kind::Name) => Some(UseKind::Symbol),
        (Due::SymbolPattern, Kind::Bits | Kind::Pattern) => Some(UseKind::Pattern),
        (Due::OutputName | Due::MoreOutputs, Kind::Name) => Some(UseKind::Output),
        (Due::Part | Due::Rest | Due::ClassName, Kind::Name) => Some(UseKind::Leaf),
        (Due::ClassNames, Kind::Name) => Some(UseKind::FurtherLeaf),
        (Due::MarkName, Kind::Name) => Some(UseKind::Mark),
        (Due::Part | Due::Rest, Kind::Open) => Some(UseKind::Open),
        (Due::Rest, Kind::Close) => Some(UseKind::Close),
        (Due::Least, Kind::Bits | Kind::Number) => Some(UseKind::Least),
        (Due::Most, Kind::Bits | Kind::Number) => Some(UseKind::Most),
        (Due::BoundsEnd, Kind::CloseBrace) => Some(UseKind::Copies),
        _ => None,
    }
}
