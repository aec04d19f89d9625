// What may come next behind the bytes of a sentence.

ghost use Rattle.std.specs.Prelude.{◌≡◌, ◌<◌, ◌-◌, ◌^◌};
ghost use Rattle.cif_syntax.specs.Machine.{step, first, definition, comment, closed, text, layer, named, number, begin, digit, digits, behind, gap, moves, mirror, depth_of};

use crate::kind::Kind;
use crate::slot::Slot;

/// What is due next.
#[derive(Clone, Copy, Debug, PartialEq, Eq)]
pub enum Due {
    /// The first byte.
    First,
    /// `S`, `F` or `D` behind `D`.
    Definition,
    /// Anything within so many open parentheses.
    Comment(usize),
    /// Blanks and a semicolon.
    Closed,
    /// Anything up to a semicolon.
    Text,
    /// A name of a layer, or more of it behind so many bytes.
    Layer,
    OneByte,
    TwoBytes,
    ThreeBytes,
    FourBytes,
    /// This number.
    Number(Slot),
    /// Its digits, behind a sign.
    Sign(Slot),
    /// More of its digits, which are all 0 so far or not.
    Digits(Slot, bool),
    /// What may come behind it and blanks.
    Gap(Slot),
    /// A transformation, or the semicolon.
    Moves,
    /// `X` or `Y`.
    Mirror,
    /// Nothing: the sentence is whole.
    Whole,
}

impl Due {
    /// What is due behind a byte of this kind, where it may come.
    pub fn step(self, kind: Kind) -> Option<Due>
        requires { depth_of self < 2 ^ 64 - 1 }
        ensures { result ≡ step self kind }
    {
        match self {
            Due::First => first(kind),
            Due::Definition => definition(kind),
            Due::Comment(depth) => Some(comment(depth, kind)),
            Due::Closed | Due::FourBytes => closed(kind),
            Due::Text => Some(text(kind)),
            Due::Layer => layer(kind),
            Due::OneByte => named(kind, Due::TwoBytes),
            Due::TwoBytes => named(kind, Due::ThreeBytes),
            Due::ThreeBytes => named(kind, Due::FourBytes),
            Due::Number(slot) => number(slot, kind),
            Due::Sign(slot) => digit(slot, kind, true),
            Due::Digits(slot, zero) => digits(slot, zero, kind),
            Due::Gap(slot) => gap(slot, kind),
            Due::Moves => moves(kind),
            Due::Mirror => mirror(kind),
            Due::Whole => None,
        }
    }
}

/// Behind nothing.
fn first(kind: Kind) -> Option<Due>
    ensures { result ≡ first kind }
{
    match kind {
        Kind::Semicolon | Kind::E | Kind::R => Some(Due::Whole),
        Kind::Open => Some(Due::Comment(1)),
        Kind::Zero | Kind::Digit => Some(Due::Text),
        Kind::D => Some(Due::Definition),
        Kind::C => Some(Due::Number(Slot::Called)),
        Kind::L => Some(Due::Layer),
        Kind::B => Some(Due::Number(Slot::Length)),
        Kind::P => Some(Due::Number(Slot::PointX)),
        Kind::W => Some(Due::Number(Slot::Wire)),
        _ => None,
    }
}

/// Behind `D`.
fn definition(kind: Kind) -> Option<Due>
    ensures { result ≡ definition kind }
{
    match kind {
        Kind::D => Some(Due::Whole),
        Kind::F => Some(Due::Closed),
        Kind::S => Some(Due::Number(Slot::Symbol)),
        _ => None,
    }
}

/// Within so many parentheses.
fn comment(depth: usize, kind: Kind) -> Due
    requires { depth < 2 ^ 64 - 1 }
    ensures { result ≡ comment depth kind }
{
    match kind {
        Kind::Open => Due::Comment(depth + 1),
        Kind::Close if depth <= 1 => Due::Closed,
        Kind::Close => Due::Comment(depth - 1),
        _ => Due::Comment(depth),
    }
}

/// Where only blanks and a semicolon may come.
fn closed(kind: Kind) -> Option<Due>
    ensures { result ≡ closed kind }
{
    match kind {
        Kind::Blank => Some(Due::Closed),
        Kind::Semicolon => Some(Due::Whole),
        _ => None,
    }
}

/// Within the text of a user extension.
fn text(kind: Kind) -> Due
    ensures { result ≡ text kind }
{
    match kind {
        Kind::Semicolon => Due::Whole,
        _ => Due::Text,
    }
}

/// Behind `L`.
fn layer(kind: Kind) -> Option<Due>
    ensures { result ≡ layer kind }
{
    if kind == Kind::Blank {
        Some(Due::Layer)
    } else if kind.is_of_name() {
        Some(Due::OneByte)
    } else {
        None
    }
}

/// Within a name that may go on.
fn named(kind: Kind, more: Due) -> Option<Due>
    ensures { result ≡ named more kind }
{
    if kind.is_of_name() {
        Some(more)
    } else {
        closed(kind)
    }
}

/// Before a number.
fn number(slot: Slot, kind: Kind) -> Option<Due>
    ensures { result ≡ number slot kind }
{
    if kind == Kind::Blank {
        Some(Due::Number(slot))
    } else {
        begin(slot, kind)
    }
}

/// At the first byte of a number.
fn begin(slot: Slot, kind: Kind) -> Option<Due>
    ensures { result ≡ begin slot kind }
{
    if kind == Kind::Minus && slot.is_signed() {
        Some(Due::Sign(slot))
    } else {
        digit(slot, kind, true)
    }
}

/// At a digit, behind digits that are all 0 or not.
fn digit(slot: Slot, kind: Kind, zero: bool) -> Option<Due>
    ensures { result ≡ digit slot zero kind }
{
    match kind {
        Kind::Zero => Some(Due::Digits(slot, zero)),
        Kind::Digit => Some(Due::Digits(slot, false)),
        _ => None,
    }
}

/// Behind digits.
fn digits(slot: Slot, zero: bool, kind: Kind) -> Option<Due>
    ensures { result ≡ digits slot zero kind }
{
    match kind {
        Kind::Zero | Kind::Digit => digit(slot, kind, zero),
        _ if zero && slot.is_scale() => None,
        Kind::Blank => Some(Due::Gap(slot)),
        _ => behind(slot, kind),
    }
}

/// Behind a number, at a byte that is no digit and no blank.
fn behind(slot: Slot, kind: Kind) -> Option<Due>
    ensures { result ≡ behind slot kind }
{
    match kind {
        Kind::Semicolon if slot.may_end() => Some(Due::Whole),
        Kind::T | Kind::R if slot.may_move() => Some(Due::Number(Slot::FirstMove)),
        Kind::M if slot.may_move() => Some(Due::Mirror),
        _ => None,
    }
}

/// Behind a number and blanks.
fn gap(slot: Slot, kind: Kind) -> Option<Due>
    ensures { result ≡ gap slot kind }
{
    match kind {
        Kind::Blank => Some(Due::Gap(slot)),
        Kind::Zero | Kind::Digit | Kind::Minus => match slot.next() {
            Some(next) => begin(next, kind),
            None => None,
        },
        _ => behind(slot, kind),
    }
}

/// Behind a transformation that ends in a letter.
fn moves(kind: Kind) -> Option<Due>
    ensures { result ≡ moves kind }
{
    if kind == Kind::Blank {
        Some(Due::Moves)
    } else {
        behind(Slot::SecondMove, kind)
    }
}

/// Behind `M`.
fn mirror(kind: Kind) -> Option<Due>
    ensures { result ≡ mirror kind }
{
    match kind {
        Kind::Blank => Some(Due::Mirror),
        Kind::X | Kind::Y => Some(Due::Moves),
        _ => None,
    }
}
