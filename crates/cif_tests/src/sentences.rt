//! CIF texts, and the first code of the syntax in each.

use cif_syntax::{Sentence, SyntaxFault, next_sentence};
use geom::CifCode;
use geom::CifCode::{C1, C9, C10};

/// Texts, and the code and the number of the byte at which it stands; none where sentences lead to the end.
const TEXTS: &[(&str, Option<(CifCode, usize)>)] = &[
    ("E", None),
    ("E nd L", None),
    ("E;", None),
    ("", Some((C10, 0))),
    (" \n ", Some((C10, 3))),
    (";;; (a (nested) comment); E", None),
    ("(a; b) ;E", None),
    ("(()", Some((C10, 3))),
    ("(a) b c);", Some((C1, 7))),
    ("LNM;B800 800 400 400;E", None),
    ("b 800 says more;B800+800,400.400;L NM;E", None),
    ("L NM; B 800 800 400 400;", Some((C10, 24))),
    ("L;", Some((C1, 1))),
    ("L ABCDE;", Some((C1, 6))),
    ("L N M;", Some((C1, 4))),
    ("L XX; E", None),
    ("D S 1;", Some((C1, 1))),
    ("DX;", Some((C1, 1))),
    ("D", Some((C10, 1))),
    ("DD 5;", Some((C9, 0))),
    (" DD", Some((C9, 1))),
    ("R", Some((C9, 0))),
    ("DS 1 0;", Some((C1, 5))),
    ("DS 1 00", Some((C1, 5))),
    ("DS 1 0 0;", Some((C1, 5))),
    ("DS 1 2 0;", Some((C1, 7))),
    ("DS 1 2;", Some((C1, 6))),
    ("DS 1 05 1; DF; E", None),
    ("DS 0; DF; E", None),
    ("DS -1;", Some((C1, 3))),
    ("C1MXR0 1T2800 -5;C 1;E", None),
    ("C 1 5;", Some((C1, 4))),
    ("C 1 M Z;", Some((C1, 6))),
    ("C 1 T 5;", Some((C1, 7))),
    ("B 1 2 3 4 5;", Some((C1, 11))),
    ("B 1 2 3-4;", Some((C1, 7))),
    ("B 1 2 3 --4;", Some((C1, 9))),
    ("B 1 2 3 4 5 6;E", None),
    ("P;", Some((C1, 1))),
    ("P 1;", Some((C1, 3))),
    ("P 1 2 3 4;W 5 -6 7;E", None),
    ("W 1;", Some((C1, 3))),
    ("W 1 2;", Some((C1, 5))),
    ("94 VDD 0 0 NM (; E", None),
    ("-;", Some((C1, 0))),
    ("X;", Some((C1, 0))),
];

/// The first code of the syntax, of texts of at most a hundred sentences.
fn first_fault(text: &[u8]) -> Option<(CifCode, usize)> {
    let mut from = 0;
    for _ in 0..100 {
        match next_sentence(text, from) {
            Ok(Sentence::Command { end, .. }) => from = end,
            Ok(Sentence::End { .. }) => return None,
            Err(SyntaxFault { code, at }) => return Some((code, at)),
        }
    }
    None
}

#[test]
fn follows_sentences(rt: HostRuntime) {
    for (text, wanted) in TEXTS {
        assert_eq!(rt; first_fault(text.as_bytes()), *wanted, "{text}");
    }
}
