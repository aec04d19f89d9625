// The numbers of counted repeats.

ghost use Rattle.std.specs.Prelude.{◌≡◌, nat_le, true, None, Some, if◌then◌else◌};
ghost use Rattle.std.specs.List.{list_all};
ghost use Rattle.std.specs.Str.Parse.{digits_value};
ghost use Rattle.rx_text.specs.NumberInText.{is_digit};

use rx_text::{NumberFault, read_number};

/// The greatest number of a counted repeat.
const MOST_COPIES: u64 = 255;

/// The number that digits write, where it is at most 255. No digits write 0.
pub(crate) fn bound_of(digits: &[u8]) -> Option<u8>
    requires { list_all is_digit digits.now ≡ true }
    ensures { result ≡ (if nat_le (digits_value 10 digits.now) 255 then Some (digits_value 10 digits.now) else None) }
{
    match read_number(digits, 0, MOST_COPIES) {
        Ok((number, _)) => Some(number as u8),
        Err(NumberFault::BadNumber) => Some(0),
        Err(NumberFault::NumberTooLarge) => None,
    }
}
