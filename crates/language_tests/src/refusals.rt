//! Texts that are no specifications: the code of each refusal, its line and column, and the text.

use crate::rows::{expanded, read};
use rx_syntax::{ReadSpecFault, SpecFault};
use rx_text::Place;
use std::alloc::Global;
use std::test::Fail;

/// Where expressions may have 4096 symbols.
const REFUSED: &[&str] = &[
    "S1@1:1 $line x;",
    "S1@2:2 line x;\r\n\t%",
    "S1@1:1 \u{feff}line x;",
    "S1@4:6 line x;\nsymbol a = 1;\noutput z;\nexpr A !z;\n",
    "S1@4:12 line x;\nsymbol a = 1;\noutput z;\nexpr (a | a\0)* a;",
    "S1@6:1 line x;\nsymbol a = 1;\noutput z;\nexpr a;\n# \u{ff}\n&",
    "S1@4:2 line x; # a\nline y;\n\n \x0b",
    "S1@1:1 $",
    "S1@1:12 line x y x $",
    "S1@1:6 line X;",
    "S1@1:6 line _x;",
    "S1@1:34 line x;symbol a=1;output z;expr a\0;",
    "S1@1:35 line x;symbol a=1;output z;expr a;\x0c",
    "S1@4:206 line x;\nsymbol a = 1;\noutput z;\nexpr <200*(>$",
    "S2@1:1 x",
    "S2@2:1 line\r\n;",
    "S2@1:8 line x line;",
    "S2@2:10 line x;\nsymbol a 1;",
    "S2@3:2 line x;\nsymbol a = # 1;\n\tb;",
    "S2@2:14 line x;\nsymbol a = 1 1;",
    "S2@3:1 line x;\nsymbol a = 1;\nline y;",
    "S2@4:8 line x;\nsymbol a = 1;\noutput z;\nexpr a b34567890123456789012345678901234;",
    "S2@4:6 line x;\nsymbol a = 1;\noutput z;\nexpr ;",
    "S2@4:10 line x;\nsymbol a = 1;\noutput z;\nexpr a | | a;",
    "S2@4:8 line x;\nsymbol a = 1;\noutput z;\nexpr (a;",
    "S2@4:7 line x;\nsymbol a = 1;\noutput z;\nexpr a)",
    "S2@4:9 line x;\nsymbol a = 1;\noutput z;\nexpr a !;",
    "S2@4:10 line x;\nsymbol a = 1;\noutput z;\nexpr a !z",
    "S2@5:1 line x;\nsymbol a = 1;\noutput z;\nexpr a # ;\n",
    "S2@6:1 line x;\nsymbol a = 1;\noutput z;\nexpr a;\r\nexpr a;\r\noutput u;",
    "S2@4:13 line x;\nsymbol a = 1;\noutput z;\nexpr a !z !u",
    "S2@5:7 line a b c d e;\r\nline f g h i j k l m n o p q r s;\nsymbol t = 1;\noutput z;\nexpr u",
    "S2@1:5 line",
    "S2@1:6 line ;",
    "S2@1:7 line x",
    "S2@1:8 line x symbol a=1;",
    "S2@1:6 line line;",
    "S2@1:8 line x 1;",
    "S2@1:6 line a2345678901234567890123456789012;",
    "S2@1:15 line x;symbol a2345678901234567890123456789012=1;",
    "S2@1:16 line x;symbol a;",
    "S2@1:17 line x;symbol a==1;",
    "S2@1:17 line x;symbol a=b;",
    "S2@1:19 line x;symbol a=1 0;",
    "S2@1:19 line x;symbol a=1;line y;",
    "S2@1:28 line x;symbol a=1;output z;symbol b=0;",
    "S2@1:33 line x;symbol a=1;output z;expr ;",
    "S2@1:33 line x;symbol a=1;output z;expr *a;",
    "S2@1:35 line x;symbol a=1;output z;expr a||a;",
    "S2@1:34 line x;symbol a=1;output z;expr ();",
    "S2@1:35 line x;symbol a=1;output z;expr (a;",
    "S2@1:34 line x;symbol a=1;output z;expr a);",
    "S2@1:35 line x;symbol a=1;output z;expr a!;",
    "S2@1:33 line x;symbol a=1;output z;expr !z;",
    "S2@1:34 line x;symbol a=1;output z;expr a=a;",
    "S2@1:38 line x;symbol a=1;output z;expr a # ;",
    "S2@1:35 line x;symbol a=1;output z;expr a;output u;",
    "S2@4:207 line x;\nsymbol a = 1;\noutput z;\nexpr <200*(>a;",
    "S2@4:608 line x;\nsymbol a = 1;\noutput z;\nexpr <200*(>a<200*)> <200*(>",
    "S3@4:6 line x;\nsymbol a = 1;\noutput z;\nexpr b !z;",
    "S3@4:10 line x;\nsymbol a = 1;\noutput z;\nexpr a a x a !z;",
    "S3@6:3 line x;\nsymbol a = 1;\noutput z;\nexpr a;\r\nexpr (a\r\n| z)* !z;",
    "S3@4:9 line x;\nsymbol a = 1;\noutput z;\nexpr a !a a;",
    "S3@5:2 line x;\nsymbol a = 1;\noutput z;\nexpr a !z !# z\n\tu;",
    "S3@1:50 line x y;symbol a=1-;symbol b=0-;output z u;expr c b!z;expr b!u;",
    "S3@1:52 line x y;symbol a=1-;symbol b=0-;output z u;expr a c!z;expr b!u;",
    "S3@1:61 line x y;symbol a=1-;symbol b=0-;output z u;expr a b!z;expr c!u;",
    "S3@1:54 line x y;symbol a=1-;symbol b=0-;output z u;expr a b!c;expr b!u;",
    "S3@1:63 line x y;symbol a=1-;symbol b=0-;output z u;expr a b!z;expr b!c;",
    "S3@1:50 line x y;symbol a=1-;symbol b=0-;output z u;expr x b!z;expr b!u;",
    "S3@1:50 line x y;symbol a=1-;symbol b=0-;output z u;expr z b!z;expr b!u;",
    "S3@1:54 line x y;symbol a=1-;symbol b=0-;output z u;expr a b!a;expr b!u;",
    "S3@1:54 line x y;symbol a=1-;symbol b=0-;output z u;expr a b!y;expr b!u;",
    "S3@3:16 line x;\r\nsymbol a=1;#c\r\noutput z;\texpr b;",
    "S3@3:2 line x;#\u{ff};\nsymbol a=1;output z;expr((a|#b\n(c)));",
    "S3@1:62 line a23456789012345678901234567890;symbol a=1;output z;expr unknown;",
    "S3@35:6 line x;\n<32*symbol a@ = -;\n>output z;\nexpr b;\n",
    "S4@1:8 line x x;\nsymbol a = 1;\noutput z;\nexpr a !z;",
    "S4@2:14 line x;\nline y; line x;\nsymbol a = 1;\noutput z;\nexpr b;",
    "S4@2:8 line x;\nsymbol x = 11;\noutput z;\nexpr a;",
    "S4@3:8 line x;\nsymbol a = 1;\nsymbol\ta = 0;\noutput z;\nexpr a;",
    "S4@4:2 line x;\nsymbol a = 1;\noutput z\n a;\nexpr a;",
    "S4@4:8 line x;\nsymbol a = 1;\noutput z;\noutput x;\nexpr b;",
    "S4@1:38 line a b c d e f g h i j k l m n o p a;\nsymbol s = 1;\noutput z;\nexpr s;",
    "S4@1:8 line x x;symbol a=1-;symbol b=0-;output z u;expr a b!z;",
    "S4@1:17 line x y;symbol x=1-;symbol b=0-;output z u;expr x b!z;",
    "S4@1:29 line x y;symbol a=1-;symbol a=0-;output z u;expr a b!z;",
    "S4@1:41 line x y;symbol a=1-;symbol b=0-;output a u;expr a b!z;",
    "S4@1:43 line x y;symbol a=1-;symbol b=0-;output z y;expr a b!z;",
    "S4@1:50 line x y;symbol a=1-;symbol b=0-;output z;output z;expr a b!z;",
    "S4@1:38 line a b c d e f g h i j k l m n o p a;symbol r=1;output s;expr r;",
    "S4@1:58 line x;symbol a=1;output b c d e f g h i j k l m n o p q x;expr a;",
    "S4@2:8 # x\r\nline x\tx;symbol a=1;output z;expr a;",
    "S4@1:8 line x x;symbol x=1;output x;expr x!x;",
    "S5@2:12 line x y;\nsymbol a = 1;\nsymbol b = 01;\noutput z;\nexpr (a|b)* a !z;\n",
    "S5@3:12 line x y;\nsymbol a = 1-;\nsymbol b = 010;\noutput z z;\nexpr a;",
    "S5@3:1 line x;\nsymbol a = # 1\r\n--;\noutput z;\nexpr b;",
    "S5@1:19 line x y;symbol a=1;symbol b=0;output z;expr c;",
    "S5@1:19 line x y;symbol a=1-0;symbol b=0-;output z;expr a;",
    "S5@1:31 line x y;symbol a=1-;symbol b=0;output z z;expr a;",
    "S5@1:24 line x;line y;symbol a=1;output z;expr a;",
    "S5@1:17 line x;symbol a=10-;output z;expr (a)!z?*;",
    "S6@1:1 ",
    "S6@2:1 \t# line x;\r\n",
    "S6@3:2 \n\n symbol a = 1;",
    "S6@1:1 output z;",
    "S6@2:1 # a\nexpr a;",
    "S6@2:1  # a comment\r\n",
    "S6@1:1 symbol a = 1;",
    "S6@2:1 #\noutput z;",
    "S6@1:2 \texpr a;",
    "S7@1:17 line x; line y; output z;",
    "S7@2:6 line x;\r\n# end",
    "S7@3:2 line x;\nline y;\n\texpr a;",
    "S7@1:8 line x;",
    "S7@2:1 line x; \n",
    "S7@1:8 line x;expr a;",
    "S8@3:1 line x;\nsymbol a = 1;\nexpr a;",
    "S8@2:14 line x;\nsymbol a = 1;",
    "S8@3:1 line x;\nsymbol a = 1;\r\n",
    "S8@4:3 line x;\nsymbol a = 1;\nsymbol b = 0; # c\n  expr a;",
    "S8@1:19 line x;symbol a=1;",
    "S8@1:31 line x;symbol a=1; symbol b=0;expr a;",
    "S8@2:1 line x;symbol a=1;#expr\n",
    "S9@3:10 line x;\nsymbol a = 1;\noutput z;",
    "S9@4:1 line x;\nsymbol a = 1;\noutput z;\n",
    "S9@4:17 line x;\nsymbol a = 1;\noutput z;\noutput u;\t# expr",
    "S9@1:28 line x;symbol a=1;output z;",
    "S9@1:39 line x;symbol a=1;output z; output u;\t",
    "S10@1:38 line a b c d e f g h i j k l m n o p q;\nsymbol s = 1;\noutput z;\nexpr s;",
    "S10@4:1 line a b c d e f g h;\nline i j k l m n o p;\nline\r\nq;\nsymbol s = 1;\noutput z;\nexpr t;",
    "S10@2:28 line a b c d e;\r\nline f g h i j k l m n o p q r s;\nsymbol t = 1;\noutput z;\nexpr u;",
    "S10@1:38 line a b c d e f g h i j k l m n o p q;symbol r=1;output s;expr r;",
    "S10@1:43 line a b c d e f g h i j k l m n o p;line q;symbol r=1;output s;expr r;",
    "S11@1:421 line x;<33*symbol a@=1;>output z;expr a0;",
    "S11@1:421 line x;<99*symbol a@=1;>output z;expr a0;",
    "S11@34:8 line x;\n<33*symbol a@ = -;\n>output z;\nexpr b;\n",
    "S11@34:8 line x;\n<60*symbol a@ = -;\t# more\r\n>output z;\nexpr b;\n",
    "S11@2:510 line x;\n<34*symbol a@ = -; >output z;\nexpr b;\n",
    "S12@3:40 line x;\nsymbol s = 1;\noutput a b c d e f g h i j k l m n o p q;\nexpr s;",
    "S12@4:36 line x;\nsymbol s = 1;\noutput a b; # two\noutput c d e f g h i j k l m n o p q r;\nexpr t;",
    "S12@5:2 line x;\nsymbol s = 1;\noutput a b c d e f g h;\noutput i j k l m n o p # q\n\tq;\nexpr t;",
    "S12@1:58 line x;symbol a=1;output b c d e f g h i j k l m n o p q r;expr a;",
    "S13@4:8198 line x;\nsymbol a = 1;\noutput z;\nexpr<4097* a> !z;\n",
    "S13@1:16419 line x;symbol a00=1;output z;expr<4097* a00>;",
    "S14@4:206 line x;\nsymbol a = 1;\noutput z;\nexpr <201*(>$",
    "S14@4:206 line x;\nsymbol a = 1;\noutput z;\nexpr <1000*(>",
    "S14@4:608 line x;\nsymbol a = 1;\noutput z;\nexpr <200*(>a<200*)> <201*(>a",
    "S14@5:206 line x;\nsymbol a = 1;\noutput z;\nexpr <200*(>a<200*)>;\r\n\texpr<201*(>",
    "S14@1:233 line x;symbol a=1;output z;expr <201*(>a<201*)>;",
    "S14@1:233 line x;symbol a=1;output z;expr <100000*(>a<100000*)>;",
];

/// Where no digit but `0` and `1` begins a token.
const REFUSED_DIGITS: &[&str] = &[
    "S1@2:13 line x;\nsymbol a = 12;\noutput z;\nexpr a;",
    "S1@1:18 line x;symbol a=12;output z;expr a;",
];

/// Where they may have so many.
const LIMITED: &[(u32, &str)] = &[
    (
        1,
        "S13@1:52 line x y;symbol a=1-;symbol b=0-;output z u;expr a b!z;expr b!u;",
    ),
    (
        1,
        "S13@1:52 line x y;symbol a=1-;symbol b=0-;output z u;expr a b!c;expr b!u;",
    ),
    (
        2,
        "S3@1:61 line x y;symbol a=1-;symbol b=0-;output z u;expr a b!z;expr c!u;",
    ),
    (
        2,
        "S3@1:54 line x y;symbol a=1-;symbol b=0-;output z u;expr a b!c;expr b!u;",
    ),
    (
        2,
        "S13@1:61 line x y;symbol a=1-;symbol b=0-;output z u;expr a b!z;expr b!u;",
    ),
    (
        1,
        "S13@4:8 line x;\nsymbol a = 1;\noutput z;\nexpr a a !z;\n",
    ),
    (1, "read line x;\nsymbol a = 1;\noutput z;\nexpr a !z;\n"),
    (
        256,
        "S13@4:518 line x;\nsymbol a = 1;\noutput z;\nexpr<257* a> !z;\n",
    ),
    (
        256,
        "read line x;\nsymbol a = 1;\noutput z;\nexpr<256* a> !z;\n",
    ),
    (
        256,
        "S13@1:1059 line x;symbol a00=1;output z;expr<257* a00>;",
    ),
    (
        4096,
        "read line x;\nsymbol a = 1;\noutput z;\nexpr<4096* a> !z;\n",
    ),
    (
        4096,
        "read line x;<32*symbol a@=1;>output z;expr<4096* a0>;",
    ),
];

/// A specification, of which no front is one before its last expression.
const GOOD: &str =
    "line x y; line w;\nsymbol a = 1-0; symbol b = --1;\noutput z; output u;\nexpr (a | b a)* !z b+ ?!u;";

/// What becomes of the text: its refusal, or `read`.
fn outcome(alloc: Global, text: &str, most_leaves: u32) -> Result<String, Fail> {
    match read(alloc, text, most_leaves)? {
        Ok(_) => Ok("read".to_string(alloc)?),
        Err(
            ReadSpecFault::Fault(
                SpecFault {
                    code,
                    place: Place::Text { line, column },
                },
            ),
        ) => Ok(format!(in alloc; "{code:?}@{line}:{column}")?),
        Err(_) => Err("no memory".into()),
    }
}

/// The outcome that a row begins with, and that of the text behind it.
pub(crate) fn outcomes(
    alloc: Global,
    row: &'static str,
    most_leaves: u32,
) -> Result<(&'static str, String), Fail> {
    let (wanted, text) = row.split_once(' ').ok_or("no text")?;
    let text = expanded(alloc, text)?;
    Ok((wanted, outcome(alloc, text.as_str(), most_leaves)?))
}

/// The outcome one line lower.
fn lower(alloc: Global, outcome: &str) -> Result<String, Fail> {
    let (code, place) = outcome.split_once('@').ok_or("no place")?;
    let (line, column) = place.split_once(':').ok_or("no column")?;
    let line = u64::from(line.parse::<u32>()?) + 1;
    Ok(format!(in alloc; "{code}@{line}:{column}")?)
}

/// The outcome that the row says one line lower, and that of its text under version 2.
fn outcomes_below(alloc: Global, row: &'static str) -> Result<(String, String), Fail> {
    let (wanted, text) = row.split_once(' ').ok_or("no text")?;
    let text = format!(in alloc; "version 2;\n{}", expanded(alloc, text)?.as_str())?;
    Ok((lower(alloc, wanted)?, outcome(alloc, text.as_str(), 4096)?))
}

#[test]
fn refuses_with_codes_and_places(rt: HostRuntime) -> Result<(), Fail> {
    for rows in [REFUSED, REFUSED_DIGITS] {
        for row in rows {
            let (wanted, found) = outcomes(rt.alloc(), row, 4096)?;
            assert_eq!(rt; found.as_str(), wanted, "{row}");
        }
    }
    Ok(())
}

#[test]
fn refuses_the_same_in_version_2(rt: HostRuntime) -> Result<(), Fail> {
    for row in REFUSED {
        let (wanted, found) = outcomes_below(rt.alloc(), row)?;
        assert_eq!(rt; found.as_str(), wanted.as_str(), "{row}");
    }
    Ok(())
}

#[test]
fn counts_the_symbols_of_expressions(rt: HostRuntime) -> Result<(), Fail> {
    for (most_leaves, row) in LIMITED {
        let (wanted, found) = outcomes(rt.alloc(), row, *most_leaves)?;
        assert_eq!(rt; found.as_str(), wanted, "{row}");
    }
    Ok(())
}

#[test]
fn refuses_each_front(rt: HostRuntime) -> Result<(), Fail> {
    for length in 0..GOOD.len() {
        let front = GOOD.get(..length).ok_or("no front")?;
        let found = outcome(rt.alloc(), front, 4096)?;
        assert!(rt; found.as_str() != "read", "{front}");
    }
    Ok(())
}
