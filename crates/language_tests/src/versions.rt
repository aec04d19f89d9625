//! Texts of both versions of the language: what becomes of each, and the text.

use crate::refusals::outcomes;
use std::test::Fail;

/// Where expressions may have 4096 symbols.
const TEXTS: &[&str] = &[
    // Counted repeats.
    "read version 2;\nline x;\nsymbol a = 1;\noutput z;\nexpr a{2,3} !z;",
    "read version 2;\nline x;\nsymbol a = 1;\noutput z;\nexpr a{0,1};",
    "read version 2;\nline x;\nsymbol a = 1;\noutput z;\nexpr a{255,255};",
    "read version 2;\nline x;\nsymbol a = 1;\noutput z;\nexpr a{000,0000000000000000000000000255};",
    "read version 2;\nline x;\nsymbol a = 1;\noutput z;\nexpr ((a{255,255}){16,16});",
    "S13@5:25 version 2;\nline x;\nsymbol a = 1;\noutput z;\nexpr ((a{255,255}){17,17});",
    "S13@5:20 version 2;\nline x;\nsymbol a = 1;\noutput z;\nexpr a{64,64}{65,65} !z;",
    "read version 2;\nline x;\nsymbol a = 1;\noutput z;\nexpr a{64,64}{64,64} !z;",
    "S13@5:25 version 2;\nline x;\nsymbol a = 1;\noutput z;\nexpr a{64,64}{64,64} !z a;",
    "S15@5:10 version 2;\nline x;\nsymbol a = 1;\noutput z;\nexpr a{3,2};",
    "S15@5:10 version 2;\nline x;\nsymbol a = 1;\noutput z;\nexpr a{0,0};",
    "S15@5:8 version 2;\nline x;\nsymbol a = 1;\noutput z;\nexpr a{256,300};",
    "S15@5:10 version 2;\nline x;\nsymbol a = 1;\noutput z;\nexpr a{1,256};",
    "S15@5:8 version 2;\nline x;\nsymbol a = 1;\noutput z;\nexpr a{<400*9>,1};",
    "S15@5:10 version 2;\nline x;\nsymbol a = 1;\noutput z;\nexpr a{1,<400*9>};",
    "S15@5:10 version 2;\nline x;\nsymbol a = 1;\noutput z;\nexpr a{3,2} b;",
    "S3@5:6 version 2;\nline x;\nsymbol a = 1;\noutput z;\nexpr b{3,2};",
    "S2@5:14 version 2;\nline x;\nsymbol a = 1;\noutput z;\nexpr a{3,2} |;",
    "S2@5:6 version 2;\nline x;\nsymbol a = 1;\noutput z;\nexpr {1,2};",
    "S2@5:8 version 2;\nline x;\nsymbol a = 1;\noutput z;\nexpr a{,2};",
    "S2@5:9 version 2;\nline x;\nsymbol a = 1;\noutput z;\nexpr a{1};",
    "S2@5:10 version 2;\nline x;\nsymbol a = 1;\noutput z;\nexpr a{1,};",
    "S2@5:10 version 2;\nline x;\nsymbol a = 1;\noutput z;\nexpr a{1 2};",
    "S2@5:11 version 2;\nline x;\nsymbol a = 1;\noutput z;\nexpr a{1,2;",
    "S2@5:8 version 2;\nline x;\nsymbol a = 1;\noutput z;\nexpr a{1-,2};",
    "S2@5:7 version 2;\nline x;\nsymbol a = 1;\noutput z;\nexpr a}",
    "S2@5:7 version 2;\nline x;\nsymbol a = 1;\noutput z;\nexpr a,",
    // Classes.
    "read version 2;\nline x;\nsymbol a = 1;\noutput z;\nexpr [a] !z;",
    "read version 2;\nline x;\nsymbol a = 1;\noutput z;\nexpr a[a a]{2,2}[a]*;",
    "S2@5:7 version 2;\nline x;\nsymbol a = 1;\noutput z;\nexpr [];",
    "S2@5:8 version 2;\nline x;\nsymbol a = 1;\noutput z;\nexpr [a;",
    "S2@5:8 version 2;\nline x;\nsymbol a = 1;\noutput z;\nexpr [a|a];",
    "S2@5:7 version 2;\nline x;\nsymbol a = 1;\noutput z;\nexpr [(a)];",
    "S2@5:7 version 2;\nline x;\nsymbol a = 1;\noutput z;\nexpr [[a]];",
    "S2@5:7 version 2;\nline x;\nsymbol a = 1;\noutput z;\nexpr a];",
    "S3@5:9 version 2;\nline x;\nsymbol a = 1;\noutput z;\nexpr [a b];",
    "read version 2;\nline x;\nsymbol a = 1;\noutput z;\nexpr <199*(>[a]<199*)>;",
    "S14@5:206 version 2;\nline x;\nsymbol a = 1;\noutput z;\nexpr <200*(>[a]<200*)>;",
    // Scans.
    "read version 2;\nline x;\nsymbol a = 1;\noutput z;\nscan a;",
    "read version 2;\nline x;\nsymbol a = 1;\noutput z;\nscan a; expr a; scan a;",
    "S6@2:1 version 2;\nscan a;",
    "S7@3:1 version 2;\nline x;\nscan a;",
    "S8@4:1 version 2;\nline x;\nsymbol a = 1;\nscan a;",
    "S9@4:10 version 2;\nline x;\nsymbol a = 1;\noutput z;",
    "S2@2:6 version 2;\nline scan;",
    // Runs.
    "S2@3:12 version 2;\nline x;\nsymbol a = 2;",
    "S2@3:12 version 2;\nline x;\nsymbol a = 3-;",
    "S5@3:12 version 2;\nline x;\nsymbol a = 10;\noutput z;\nexpr a;",
    "read version 2;\nline x y;\nsymbol a = 1-;\noutput z;\nexpr a;",
    "S2@5:6 version 2;\nline x;\nsymbol a = 1;\noutput z;\nexpr 1;",
    // Which version a text is of.
    "read # first\nversion # the name\n2\t;line version;symbol a=1;output z;expr a;",
    "S6@1:11 version 2;",
    "S2@1:12 version 2; version 2;",
    "S2@1:1 version 02;",
    "S2@1:1 version 22;",
    "S2@1:1 version 2-;",
    "S2@1:1 version2;",
    "S2@1:1 version 2",
    "S2@1:1 version 2 line x;",
    "read line version;symbol scan=1;output z;expr scan!z;",
    "S1@4:6 line x;\nsymbol a = 1;\noutput z;\nexpr [a] !z;",
    "S1@4:7 line x;\nsymbol a = 1;\noutput z;\nexpr a{1,2};",
    "S1@2:12 line x;\nsymbol a = 2;",
    "S2@4:1 line x;\nsymbol a = 1;\noutput z;\nscan a !z;",
    "S1@4:7 line x;\nsymbol a = 1;\noutput z;\nexpr a,a;",
];

/// Where they may have so many, copies among them.
const COPIES: &[(u32, &str)] = &[
    (
        4,
        "read version 2;\nline x;\nsymbol a = 1;\noutput z;\nexpr (a a){1,2};",
    ),
    (
        3,
        "S13@5:15 version 2;\nline x;\nsymbol a = 1;\noutput z;\nexpr (a a){1,2};",
    ),
    (
        3,
        "read version 2;\nline x;\nsymbol a = 1;\noutput z;\nexpr a a{1,2};",
    ),
    (
        2,
        "S13@5:13 version 2;\nline x;\nsymbol a = 1;\noutput z;\nexpr a a{1,2};",
    ),
    (
        2,
        "read version 2;\nline x;\nsymbol a = 1;\noutput z;\nexpr a*+?!z{0,2};",
    ),
    (
        1,
        "S13@5:16 version 2;\nline x;\nsymbol a = 1;\noutput z;\nexpr a*+?!z{0,2};",
    ),
    (
        4,
        "read version 2;\nline x;\nsymbol a = 1;\noutput z;\nexpr [a a]{2,2};",
    ),
    (
        3,
        "S13@5:15 version 2;\nline x;\nsymbol a = 1;\noutput z;\nexpr [a a]{2,2};",
    ),
    (
        8,
        "read version 2;\nline x;\nsymbol a = 1;\noutput z;\nexpr a{2,2}{2,2}{2,2};",
    ),
    (
        7,
        "S13@5:21 version 2;\nline x;\nsymbol a = 1;\noutput z;\nexpr a{2,2}{2,2}{2,2};",
    ),
    (
        7,
        "read version 2;\nline x;\nsymbol a = 1;\noutput z;\nexpr a (a | (a a){2,2}) a{1,1};",
    ),
    (
        12,
        "read version 2;\nline x;\nsymbol a = 1;\noutput z;\nexpr a ((a | a a)){3,3} a; scan a;",
    ),
    (
        11,
        "S13@5:33 version 2;\nline x;\nsymbol a = 1;\noutput z;\nexpr a ((a | a a)){3,3} a; scan a;",
    ),
    (
        1,
        "S13@6:6 version 2;\nline x;\nsymbol a = 1;\noutput z;\nexpr a;\nscan a;",
    ),
];

#[test]
fn tells_texts_of_both_versions(rt: HostRuntime) -> Result<(), Fail> {
    for row in TEXTS {
        let (wanted, found) = outcomes(rt.alloc(), row, 4096)?;
        assert_eq!(rt; found.as_str(), wanted, "{row}");
    }
    Ok(())
}

#[test]
fn counts_copies_of_symbols(rt: HostRuntime) -> Result<(), Fail> {
    for (most_leaves, row) in COPIES {
        let (wanted, found) = outcomes(rt.alloc(), row, *most_leaves)?;
        assert_eq!(rt; found.as_str(), wanted, "{row}");
    }
    Ok(())
}
