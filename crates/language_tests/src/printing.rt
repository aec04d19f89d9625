//! Texts that are specifications, as they are printed: their names, patterns and expressions.

use crate::rows::{expanded, read};
use rx_syntax::print_spec;
use std::alloc::Global;
use std::test::Fail;

/// The whole printed text.
const WHOLE: &[(&str, &str)] = &[
    (
        "line x; # the lines\r\nline\ty;\nsymbol a = 1-;symbol b = 01;\noutput z;\nexpr (a|b)* a !z;",
        "line x y;\nsymbol a = 1-;\nsymbol b = 01;\noutput z;\nexpr (a | b)* a !z;\n",
    ),
    (
        "line x y;symbol a=1-;symbol b=0-;output z u;expr a b!z;expr b!u;",
        "line x y;\nsymbol a = 1-;\nsymbol b = 0-;\noutput z u;\nexpr a b !z;\nexpr b !u;\n",
    ),
    (
        "line x y; line w;\nsymbol a = 1-0; symbol b = --1;\noutput z; output u;\nexpr (a | b a)* !z b+ ?!u; expr a;\n",
        "line x y w;\nsymbol a = 1-0;\nsymbol b = --1;\noutput z u;\nexpr (a | b a)* !z b+? !u;\nexpr a;\n",
    ),
    (
        "line x;line y;#\nsymbol a=1-;symbol b=01;output z;expr((a|(b)))*(a)!z;expr a(b a)|(a|(b));",
        "line x y;\nsymbol a = 1-;\nsymbol b = 01;\noutput z;\nexpr (a | b)* a !z;\nexpr a (b a) | (a | b);\n",
    ),
    (
        "#\u{ff}\0\r\n line\tx\r\n;symbol a=1;output z;expr a;# end",
        "line x;\nsymbol a = 1;\noutput z;\nexpr a;\n",
    ),
    (
        "version 2;\nline x;\nsymbol a = 1;\noutput z;\nexpr a{2,3} !z;\n",
        "version 2;\nline x;\nsymbol a = 1;\noutput z;\nexpr a{2,3} !z;\n",
    ),
    (
        "version 2;line x;symbol a=1;output z;expr(a a){0,002}{03,3}*;",
        "version 2;\nline x;\nsymbol a = 1;\noutput z;\nexpr (a a){0,2}{3,3}*;\n",
    ),
    // The statements `expr` come first, and the version is written where a text needs it.
    (
        "version 2;line x;symbol a=1;symbol b=0;output z;scan a b!z;expr[a b]*;scan a;",
        "version 2;\nline x;\nsymbol a = 1;\nsymbol b = 0;\noutput z;\nexpr (a | b)*;\nscan a b !z;\nscan a;\n",
    ),
    (
        "version 2;line x;symbol a=1;symbol b=0;output z;expr[a b a]b;",
        "line x;\nsymbol a = 1;\nsymbol b = 0;\noutput z;\nexpr (a | b | a) b;\n",
    ),
];

/// What stands behind `line x; symbol a = 1; symbol b = 0; output y z;`, and how that is printed.
const EXPRESSIONS: &[(&str, &str)] = &[
    ("expr a;", "expr a;\n"),
    ("expr((((a))));", "expr a;\n"),
    ("expr a;expr b;expr a;", "expr a;\nexpr b;\nexpr a;\n"),
    ("expr<4096* a>;", "expr<4096* a>;\n"),
    ("expr <200*(>a<200*)>;", "expr a;\n"),
    // Unions and sequences are grouped to the left, where no parentheses stand.
    ("expr a b a|b a|a;", "expr a b a | b a | a;\n"),
    ("expr (a b)a|(b a|a);", "expr a b a | (b a | a);\n"),
    ("expr a (b a)|(a|(b|a));", "expr a (b a) | (a | (b | a));\n"),
    // Signs bind tightest.
    ("expr a*+?!z!y*;", "expr a*+? !z !y*;\n"),
    ("expr a a|a***!z!z;", "expr a a | a*** !z !z;\n"),
    ("expr a b*;expr(a b)*;", "expr a b*;\nexpr (a b)*;\n"),
    (
        "expr a|b !z;expr(a|b)!z;",
        "expr a | b !z;\nexpr (a | b) !z;\n",
    ),
];

/// The text, expanded, is read and printed.
fn printed(alloc: Global, text: &str) -> Result<Vec<u8>, Fail> {
    let text = expanded(alloc, text)?;
    let spec = read(alloc, text.as_str(), 4096)??;
    Ok(print_spec(alloc, &spec)?)
}

#[test]
fn prints_what_was_read(rt: HostRuntime) -> Result<(), Fail> {
    for (text, wanted) in WHOLE {
        assert!(rt;
            printed(rt.alloc(), text)?.as_slice() == wanted.as_bytes(),
            "{text}"
        );
    }
    Ok(())
}

#[test]
fn prints_parentheses_where_they_are_needed(rt: HostRuntime) -> Result<(), Fail> {
    let head = "line x;\nsymbol a = 1;\nsymbol b = 0;\noutput y z;\n";
    for (text, wanted) in EXPRESSIONS {
        let text = format!(in rt.alloc(); "{head}{text}")?;
        let wanted = expanded(
            rt.alloc(),
            format!(in rt.alloc(); "{head}{wanted}")?.as_str(),
        )?;
        assert!(rt;
            printed(rt.alloc(), text.as_str())?.as_slice() == wanted.as_bytes(),
            "{text}"
        );
    }
    Ok(())
}
