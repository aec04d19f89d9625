// What bytes are in CIF texts.

ghost use Rattle.std.specs.Prelude.{◌≡◌};
ghost use Rattle.geom.specs.CifCommands.{is_cif_blank};
ghost use Rattle.rx_text.specs.NumberInText.{is_digit};
ghost use Rattle.cif_syntax.specs.Kinds.{kind_of, sign_of, is_name_kind};

/// What a byte is.
#[derive(Clone, Copy, Debug, PartialEq, Eq)]
pub enum Kind {
    Blank,
    Zero,
    /// A digit from 1 to 9.
    Digit,
    Minus,
    Open,
    Close,
    Semicolon,
    B,
    C,
    D,
    E,
    F,
    L,
    M,
    P,
    R,
    S,
    T,
    W,
    X,
    Y,
    /// Any other capital letter.
    Capital,
}

/// What the byte is.
pub fn kind_of(byte: u8) -> Kind
    ensures { result ≡ kind_of byte }
{
    if byte.is_ascii_digit() {
        if byte == b'0' {
            Kind::Zero
        } else {
            Kind::Digit
        }
    } else if is_blank(byte) {
        Kind::Blank
    } else {
        sign_of(byte)
    }
}

/// Every byte but digits, capital letters, `-`, `(`, `)` and `;`.
pub fn is_blank(byte: u8) -> bool
    ensures { result ≡ is_cif_blank byte }
{
    !(byte.is_ascii_digit()
        || byte.is_ascii_uppercase()
        || byte == b'-'
        || byte == b'('
        || byte == b')'
        || byte == b';')
}

/// What a byte is that is no digit and no blank.
fn sign_of(byte: u8) -> Kind
    ensures { result ≡ sign_of byte }
{
    match byte {
        b'-' => Kind::Minus,
        b'(' => Kind::Open,
        b')' => Kind::Close,
        b';' => Kind::Semicolon,
        b'B' => Kind::B,
        b'C' => Kind::C,
        b'D' => Kind::D,
        b'E' => Kind::E,
        b'F' => Kind::F,
        b'L' => Kind::L,
        b'M' => Kind::M,
        b'P' => Kind::P,
        b'R' => Kind::R,
        b'S' => Kind::S,
        b'T' => Kind::T,
        b'W' => Kind::W,
        b'X' => Kind::X,
        b'Y' => Kind::Y,
        _ => Kind::Capital,
    }
}

impl Kind {
    /// A byte of a name: a capital letter or a digit.
    pub fn is_of_name(self) -> bool
        ensures { result ≡ is_name_kind self }
    {
        match self {
            Kind::Blank | Kind::Minus | Kind::Open | Kind::Close | Kind::Semicolon => false,
            _ => true,
        }
    }
}
