// The numbers of commands, and what may follow each.

ghost use Rattle.std.specs.Prelude.{◌≡◌};
ghost use Rattle.cif_syntax.specs.Slots.{next_slot, is_signed, may_end, may_move, is_scale};

/// Which number of a command it is.
#[derive(Clone, Copy, Debug, PartialEq, Eq)]
pub enum Slot {
    /// The number of the symbol that a definition opens.
    Symbol,
    /// The two numbers of its scale.
    Times,
    Per,
    /// The number of the symbol that is called.
    Called,
    /// The two numbers of a translation or a rotation.
    FirstMove,
    SecondMove,
    /// Those of a box.
    Length,
    Width,
    CentreX,
    CentreY,
    DirectionX,
    DirectionY,
    /// The width of a wire.
    Wire,
    /// Those of a point of a polygon or a wire.
    PointX,
    PointY,
}

impl Slot {
    /// The number that may follow.
    pub fn next(self) -> Option<Slot>
        ensures { result ≡ next_slot self }
    {
        match self {
            Slot::Symbol => Some(Slot::Times),
            Slot::Times => Some(Slot::Per),
            Slot::FirstMove => Some(Slot::SecondMove),
            Slot::Length => Some(Slot::Width),
            Slot::Width => Some(Slot::CentreX),
            Slot::CentreX => Some(Slot::CentreY),
            Slot::CentreY => Some(Slot::DirectionX),
            Slot::DirectionX => Some(Slot::DirectionY),
            Slot::Wire | Slot::PointY => Some(Slot::PointX),
            Slot::PointX => Some(Slot::PointY),
            Slot::Per | Slot::Called | Slot::SecondMove | Slot::DirectionY => None,
        }
    }

    /// A sign may stand before it.
    pub fn is_signed(self) -> bool
        ensures { result ≡ is_signed self }
    {
        match self {
            Slot::FirstMove
            | Slot::SecondMove
            | Slot::CentreX
            | Slot::CentreY
            | Slot::DirectionX
            | Slot::DirectionY
            | Slot::PointX
            | Slot::PointY => true,
            _ => false,
        }
    }

    /// The command may end behind it.
    pub fn may_end(self) -> bool
        ensures { result ≡ may_end self }
    {
        match self {
            Slot::Symbol
            | Slot::Per
            | Slot::Called
            | Slot::SecondMove
            | Slot::CentreY
            | Slot::DirectionY
            | Slot::PointY => true,
            _ => false,
        }
    }

    /// A transformation may follow.
    pub fn may_move(self) -> bool
        ensures { result ≡ may_move self }
    {
        match self {
            Slot::Called | Slot::SecondMove => true,
            _ => false,
        }
    }

    /// It may not be 0.
    pub fn is_scale(self) -> bool
        ensures { result ≡ is_scale self }
    {
        match self {
            Slot::Times | Slot::Per => true,
            _ => false,
        }
    }
}
