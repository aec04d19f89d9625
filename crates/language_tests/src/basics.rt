//! Names, numbers and places whose text is known from outside.

use rx_text::{Name, NumberFault, NumberText, Place, place_at, read_number};

const NAMES: &[(&str, bool)] = &[
    ("", false),
    ("a", true),
    ("A", false),
    ("1a", false),
    ("_a", false),
    ("a_1", true),
    ("a-1", false),
    ("aB", false),
    ("expr", true),
    ("abcdefghijklmnopqrstuvwxyz01234", true),
    ("abcdefghijklmnopqrstuvwxyz012345", false),
];

const DECIMALS: &[(i128, &str)] = &[
    (0, "0"),
    (-1, "-1"),
    (10, "10"),
    (9223372036854775808, "9223372036854775808"),
    (i128::MAX, "170141183460469231731687303715884105727"),
    (i128::MIN, "-170141183460469231731687303715884105728"),
];

/// The lines and columns of the bytes of `ab\n\n\r\tc\n`, and of its end.
const PLACES: &[(u32, u32)] = &[
    (1, 1),
    (1, 2),
    (1, 3),
    (2, 1),
    (3, 1),
    (3, 2),
    (3, 3),
    (3, 4),
    (4, 1),
];

/// A text, the place at which a number is read, the most that it may be, and what is read.
const NUMBERS: &[(&str, usize, u64, Result<(u64, usize), NumberFault>)] = &[
    ("041;", 0, 41, Ok((41, 3))),
    ("041;", 0, 40, Err(NumberFault::NumberTooLarge)),
    ("041;", 3, 41, Err(NumberFault::BadNumber)),
    ("041;", 4, 41, Err(NumberFault::BadNumber)),
    ("041;", 5, 41, Err(NumberFault::BadNumber)),
    ("041;", 2, 41, Ok((1, 3))),
    ("0", 0, 0, Ok((0, 1))),
    ("18446744073709551615x", 0, u64::MAX, Ok((u64::MAX, 20))),
    (
        "18446744073709551616",
        0,
        u64::MAX,
        Err(NumberFault::NumberTooLarge),
    ),
];

#[test]
fn tells_names_from_other_texts(rt: HostRuntime) {
    for (text, is_name) in NAMES {
        let name = Name::new(text.as_bytes());
        assert_eq!(rt; name.is_some(), *is_name, "{text}");
        if let Some(name) = name {
            assert_eq!(rt; name.as_bytes(), text.as_bytes());
        }
    }
}

#[test]
fn writes_numbers_in_decimal(rt: HostRuntime) {
    for (value, text) in DECIMALS {
        assert_eq!(rt; NumberText::of(*value).as_bytes(), text.as_bytes());
    }
}

#[test]
fn finds_lines_and_columns(rt: HostRuntime) {
    for (at, (line, column)) in PLACES.iter().enumerate() {
        assert!(rt; at <= 8);
        let place = Place::Text {
            line: *line,
            column: *column,
        };
        assert_eq!(rt; place_at(b"ab\n\n\r\tc\n", at), place, "{at}");
    }
}

#[test]
fn reads_numbers_up_to_a_most(rt: HostRuntime) {
    for (text, at, most, wanted) in NUMBERS {
        assert_eq!(rt;
            read_number(text.as_bytes(), *at, *most),
            *wanted,
            "{text} at {at}"
        );
    }
}
