//! Specifications that are made from numbers, as they are printed.

use crate::rows::read;
use demo_spec::demo_spec;
use rx_syntax::print_spec;
use std::alloc::Global;
use std::test::Fail;

/// What each specification declares that is made from a number.
const DECLARED: &str =
    "line x0 x1;\nsymbol s0 = 00;\nsymbol s1 = 01;\nsymbol s2 = 10;\nsymbol s3 = 1-;\noutput y0 y1;\n";

/// The number, how many symbols, and the expression, which a generator made that was written apart from this one.
const DEMOS: &[(u64, u32, &str)] = &[
    (1, 2, "(s2 | s1 !y0)? !y0"),
    (1, 1, "s2 !y0"),
    (0, 6, "(((s0 !y1 (s0 s3)?) !y0 s2)+ (s0 s3+)) !y1 !y0"),
    (
        2147483648,
        6,
        "(((s0 !y1 (s0 s3)?) !y0 s2)+ (s0 s3+)) !y1 !y0",
    ),
    (18446744073709551615, 5, "((s1+ s2)* (s3* s1+ | s3?)+) !y0"),
    (
        42,
        9,
        "(s1+ (s1 | (s1 | ((s1+ | (s2 | s1*)) !y1 | s0)+)+ (s3 | s3+) !y0)*) !y0",
    ),
    (
        1,
        12,
        "((((s2 | s1 !y0)? (s3 !y1 (s1 | s0+) s3))* (s0+ s2 !y0)) !y1 | s0 | (s1 !y0 | s2+ s0 !y0)+) !y0",
    ),
];

/// The printed text of the specification that is made from the number.
fn made(alloc: Global, start: u64, leaves: u32) -> Result<Vec<u8>, Fail> {
    if leaves == 0 || leaves > 4096 {
        return Err("too much".into());
    }
    let spec = demo_spec(alloc, start, leaves)?;
    Ok(print_spec(alloc, &spec)?)
}

#[test]
fn makes_specifications_from_numbers(rt: HostRuntime) -> Result<(), Fail> {
    for (start, leaves, expression) in DEMOS {
        let wanted = format!(in rt.alloc(); "{DECLARED}expr {expression};\n")?;
        let text = made(rt.alloc(), *start, *leaves)?;
        assert!(rt; text.as_slice() == wanted.as_bytes(), "{start} {leaves}");
        assert!(rt;
            read(rt.alloc(), wanted.as_str(), 4096)?.is_ok(),
            "{wanted}"
        );
    }
    Ok(())
}
