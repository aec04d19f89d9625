// Decimal text of numbers, in a small value.

ghost use Rattle.std.specs.Prelude.{◌≡◌, ℕ, pos};
ghost use Rattle.std.specs.Fmt.{decimal, signed_decimal};

use itoa::Buffer;
use std::marker::Model;

/// The most bytes that a number of 128 bits takes.
const MOST_BYTES: usize = 40;

/// The decimal text of a number: its digits without leading zeros, and `-` before them where it is negative.
#[derive(Drop)]
pub struct NumberText {
    bytes: [u8; MOST_BYTES],
    count: usize,
}

impl Model for NumberText {
    ghost use Rattle.std.specs.Prelude.{List, ℕ, ◌≤◌, take};

    ghost Value = { List ℕ };

    ghost view = { λ n. take n.count n.bytes };

    ghost invariant = { λ n. n.count ≤ 40 };
}

impl NumberText {
    /// The text of this number.
    pub fn of(value: i128) -> NumberText
        ensures signed { result ≡ signed_decimal value }
        ensures unsigned { (n : ℕ) → value ≡ pos n → result ≡ decimal n }
    {
        let mut buffer = Buffer::new();
        let text = buffer.format(value).as_bytes();
        let mut bytes = [0; MOST_BYTES];
        bytes[..text.len()].copy_from_slice(text);
        NumberText {
            bytes,
            count: text.len(),
        }
    }

    /// The bytes of the text.
    pub fn as_bytes(&self) -> &[u8]
        ensures { result.now ≡ self.now }
    {
        &self.bytes[..self.count]
    }
}
