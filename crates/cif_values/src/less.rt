// The order of written numbers, however long they are.

ghost use Rattle.std.specs.Prelude.{◌≡◌, ℕ, ◌+◌, ◌*◌, ◌-◌, ◌≤◌, ◌<◌, ◌<ℤ◌, true, List, ◌∷◌, length};
ghost use Rattle.std.specs.Bool.{Decides};
ghost use Rattle.geom.specs.CifCommands.{CifPart, is_number_part};
ghost use Rattle.cif_values.specs.Parts.{PartsAt, number_in};
ghost use Rattle.cif_values.specs.Runs.{behind_digits};
ghost use Rattle.cif_values.specs.Orders.{IsOrder, AreDigits, IsDigitRun, SignedDigits, digit_of};

use crate::runs::is_digit;
use std::cmp::Ordering;

/// The number that stands at the first place is less than the one at the other. Takes a time in proportion to their digits.
pub fn is_less(text: &[u8], at: usize, other: usize) -> bool
    requires place { at ≤ length text.now }
    requires other { other ≤ length text.now }
    ensures { (stop stop' : ℕ) (part part' : CifPart) (parts parts' : List CifPart) → is_number_part part ≡ true → is_number_part part' ≡ true
        → PartsAt text.now at stop (part ∷ parts) → PartsAt text.now other stop' (part' ∷ parts')
        → Decides result (number_in part <ℤ number_in part') }
{
    let (left, one) = signed_digits(text, at);
    let (right, two) = signed_digits(text, other);
    match (left, right) {
        (false, false) => order_of(text, one, two).is_lt(),
        (true, true) => order_of(text, two, one).is_lt(),
        (true, false) => is_some(text, one) || is_some(text, two),
        (false, true) => false,
    }
}

/// Digits from one place up to another.
#[derive(Clone, Copy, Debug, PartialEq, Eq)]
struct Digits {
    from: usize,
    to: usize,
}

/// Whether a `-` stands here, and the digits that stand here or behind it.
fn signed_digits(text: &[u8], at: usize) -> (bool, Digits)
    requires { at ≤ length text.now }
    ensures run { IsDigitRun text.now result.1 }
    ensures number { (stop : ℕ) (part : CifPart) (parts : List CifPart) → is_number_part part ≡ true → PartsAt text.now at stop (part ∷ parts)
        → SignedDigits text.now result.1 result.0 (number_in part) }
{
    if at < text.len() && text[at] == b'-' {
        (true, digits_from(text, at + 1))
    } else {
        (false, digits_from(text, at))
    }
}

/// The digits that stand here.
fn digits_from(text: &[u8], from: usize) -> Digits
    requires { from ≤ length text.now }
    ensures run { IsDigitRun text.now result }
    ensures from { result.from ≡ from }
    ensures to { result.to ≡ behind_digits text.now from }
{
    let mut to = from;
    while to < text.len() && is_digit(text[to]) {
        to += 1;
    }
    Digits { from, to }
}

/// The digits are not all 0.
fn is_some(text: &[u8], digits: Digits) -> bool
    requires { IsDigitRun text.now digits }
    ensures { (n : ℕ) → AreDigits text.now digits n → Decides result (0 < n) }
{
    let none = Digits {
        from: digits.to,
        to: digits.to,
    };
    order_of(text, none, digits).is_lt()
}

/// The order of the numbers that digits write, of which either may be fewer.
fn order_of(text: &[u8], left: Digits, right: Digits) -> Ordering
    requires left { IsDigitRun text.now left }
    requires right { IsDigitRun text.now right }
    ensures { (m n : ℕ) → AreDigits text.now left m → AreDigits text.now right n → IsOrder result m n }
{
    let count = left.count().max(right.count());
    let mut order = Ordering::Equal;
    for i in 0..count {
        order = order_with(
            order,
            left.digit(text, i, count),
            right.digit(text, i, count),
        );
    }
    order
}

/// The order of two numbers with one digit more each.
fn order_with(order: Ordering, left: u8, right: u8) -> Ordering
    requires left { left < 10 }
    requires right { right < 10 }
    ensures { (m n : ℕ) → IsOrder order m n → IsOrder result (m * 10 + left) (n * 10 + right) }
{
    match order {
        Ordering::Equal => left.cmp(&right),
        Ordering::Less => Ordering::Less,
        Ordering::Greater => Ordering::Greater,
    }
}

impl Digits {
    /// How many there are.
    fn count(self) -> usize
        requires { self.from ≤ self.to }
        ensures { result ≡ self.to - self.from }
    {
        self.to - self.from
    }

    /// The digit at this place of so many, where 0 stands before them.
    fn digit(self, text: &[u8], i: usize, count: usize) -> u8
        requires run { IsDigitRun text.now self }
        requires inside { i < count }
        requires few { self.to - self.from ≤ count }
        ensures digit { result ≡ digit_of text.now self i count }
        ensures small { result < 10 }
    {
        let before = count - self.count();
        if i < before {
            0
        } else {
            text[self.from + (i - before)] - b'0'
        }
    }
}
