//! Specifications, words, and the outputs after each front of a word: by the meaning of the expressions, by the values of the
//! gates, and by the levels of the transistors.

use crate::texts::{specification, trace};
use cell_network::cells;
use nor_net::{NorNet, step, to_switch};
use rx_io::MemSink;
use rx_lang::{Spec, Vector, accepts, shows};
use rx_text::Role;
use star_normal::normalize;
use std::alloc::Global;
use std::test::Fail;
use switch_sim::{Asked, run_trace};

/// A specification, the vectors of a word, and the outputs after each of its fronts.
const SHOWN: &[(&str, &str, &str)] = &[
    (
        "line x; symbol a = 1; output z; expr a !z;",
        "1 0 1",
        "0 1 0 0",
    ),
    ("line x; symbol a = 1; output z; expr a;", "1 1", "0 0 0"),
    (
        "line x; symbol a = 1; output z; expr (a? !z)*;",
        "1 0",
        "1 1 0",
    ),
    (
        "line x; symbol a = 1; output z; expr (a? !z)*;",
        "1 1 1",
        "1 1 1 1",
    ),
    ("line x; symbol a = 1; output z; expr (a? !z)*;", "0", "1 0"),
    (
        "line x y; symbol a = 1-; symbol b = 01; output z; expr (a|b)* a !z;",
        "10 01 11 00 10",
        "0 1 0 1 0 0",
    ),
    (
        "line x; symbol a = 1; symbol b = 0; output z; expr ((a*)* | b?)+ !z;",
        "0 1 0",
        "1 1 1 1",
    ),
    (
        "line x; symbol a = 1; symbol b = 0; output y z; expr (a !y) b !z;",
        "1 0",
        "00 10 01",
    ),
    (
        "line x y; symbol a = 1-; symbol b = -1; output z v; expr a b !z; expr b a !v;",
        "11 11",
        "00 00 11",
    ),
    (
        "line d; symbol one = 1; symbol zero = 0; output hit; expr (one | zero)* one one zero one !hit;",
        "1 1 0 1 1 0 1",
        "0 0 0 0 1 0 0 1",
    ),
    (
        "line d; symbol one = 1; output run; expr one one one !run;",
        "1 1 1 1",
        "0 0 0 1 0",
    ),
    // Counted repeats.
    (
        "version 2; line x; symbol a = 1; output z; expr a{2,3} !z;",
        "1 1 1 1",
        "0 0 1 1 0",
    ),
    (
        "version 2; line x; symbol a = 1; output z; expr (a !z){0,2} a{2,2};",
        "1 1 1",
        "0 1 1 0",
    ),
    (
        "version 2; line x; symbol a = 1; symbol b = 0; output z; expr ([a b]{2,2}){0,1} !z;",
        "1 0 1",
        "1 0 1 0",
    ),
    // Words that begin at any clock.
    (
        "version 2; line x; symbol a = 1; symbol b = 0; output z; scan a b !z;",
        "1 0 1 0",
        "0 0 1 0 1",
    ),
    (
        "version 2; line x; symbol a = 1; symbol b = 0; output z; scan a? !z;",
        "0",
        "1 1",
    ),
    (
        "version 2; line x; symbol a = 1; symbol b = 0; output y z; scan a? !z; expr b !y;",
        "0 0",
        "01 11 01",
    ),
];

/// An expression over `line x; symbol a = 1; symbol b = 0; output z;`, the vectors of a word, and whether each front is spelled.
const SPELLED: &[(&str, &str, &str)] = &[
    ("(a? !z)*", "1 1 1", "1111"),
    ("(a? !z)*", "1 0", "110"),
    ("(a? !z)*", "0", "10"),
    ("a b a | a b", "1 0 1 0", "00110"),
    ("(a | b)+ a", "0 1 1 0", "00110"),
];

/// The vector whose first line is the first bit.
fn vector(bits: &str) -> Vector {
    let mut read = 0;
    for (line, bit) in bits.bytes().enumerate() {
        if bit == b'1' && line < 16 {
            read |= 1 << line;
        }
    }
    Vector { bits: read }
}

fn word(alloc: Global, vectors: &str) -> Result<Vec<Vector>, Fail> {
    let mut word = Vec::new(alloc);
    for bits in vectors.split(' ') {
        word.push(vector(bits))?;
    }
    Ok(word)
}

fn bit(is_high: bool) -> char {
    if is_high { '1' } else { '0' }
}

/// The outputs after each front, by the meaning of the expressions.
fn by_meaning(alloc: Global, spec: &Spec, word: &[Vector]) -> Result<String, Fail> {
    let mut shown = String::new(alloc);
    for length in 0..=word.len().min(100) {
        if length > 0 {
            shown.push(' ')?;
        }
        for output in 0..spec.outputs().len() {
            shown.push(bit(shows(spec, output as u8, &word[..length])))?;
        }
    }
    Ok(shown)
}

/// The values one clock later.
fn stepped(
    alloc: Global,
    net: &NorNet,
    state: &[bool],
    reset: bool,
    vector: Vector,
) -> Result<Vec<bool>, Fail> {
    if state.len() != net.nets() as usize {
        return Err("not a value for each net".into());
    }
    let mut next = Vec::from_slice(alloc, state)?;
    step(net, state, vector, reset, &mut next);
    Ok(next)
}

fn push_outputs(shown: &mut String, net: &NorNet, values: &[bool]) -> Result<(), Fail> {
    for pad in net.pads() {
        if pad.name.role == Role::Output {
            let value = values.get(pad.net.0 as usize).ok_or("no such net")?;
            shown.push(bit(*value))?;
        }
    }
    Ok(())
}

/// The outputs after the reset and after each vector, by the values of the gates.
fn by_gates(alloc: Global, net: &NorNet, word: &[Vector]) -> Result<String, Fail> {
    let mut shown = String::new(alloc);
    let low = vec![in alloc; false; net.nets() as usize]?;
    let mut values = stepped(alloc, net, &low, true, Vector { bits: 0 })?;
    push_outputs(&mut shown, net, &values)?;
    for vector in word {
        values = stepped(alloc, net, &values, false, *vector)?;
        shown.push(' ')?;
        push_outputs(&mut shown, net, &values)?;
    }
    Ok(shown)
}

/// The lines that the transistors show.
fn by_transistors(alloc: Global, net: &NorNet, vectors: &str) -> Result<Vec<u8>, Fail> {
    let network = to_switch(alloc, net)?;
    let mut text = String::new(alloc);
    for bits in vectors.split(' ') {
        text.push_str(bits)?;
        text.push('\n')?;
    }
    text.push_str("chip\n")?;
    let (trace, _) = trace(alloc, text.as_str())??;
    let mut sink = MemSink::new(alloc, 1000, Vec::new(alloc), 1000)?;
    let asked = Asked {
        toggles: false,
        waves: false,
    };
    run_trace(
        alloc,
        &network,
        &trace,
        asked,
        &mut Vec::new(alloc),
        &mut sink,
    )?;
    Ok(sink.held().to_vec(alloc)?)
}

/// The lines of these outputs, after each clock.
fn lines_of(alloc: Global, shown: &str) -> Result<String, Fail> {
    let mut lines = String::new(alloc);
    for (clock, outputs) in shown.split(' ').enumerate() {
        lines.push_str(format!(in alloc; "{clock} {outputs}\n")?.as_str())?;
    }
    Ok(lines)
}

/// The cells of the specification.
fn net_of(alloc: Global, spec: &Spec) -> Result<NorNet, Fail> {
    let tree = normalize(alloc, spec)?;
    Ok(cells(alloc, &tree, spec)?)
}

/// The outputs by the meaning of the expressions and by the values of the gates, and the lines of the transistors.
fn shown(alloc: Global, text: &str, vectors: &str) -> Result<(String, String, Vec<u8>), Fail> {
    let spec = specification(alloc, text)?;
    let word = word(alloc, vectors)?;
    let net = net_of(alloc, &spec)?;
    let by_meaning = by_meaning(alloc, &spec, &word)?;
    let by_gates = by_gates(alloc, &net, &word)?;
    Ok((by_meaning, by_gates, by_transistors(alloc, &net, vectors)?))
}

#[test]
fn shows_the_languages(rt: HostRuntime) -> Result<(), Fail> {
    for (text, vectors, wanted) in SHOWN {
        let (by_meaning, by_gates, lines) = shown(rt.alloc(), text, vectors)?;
        assert_eq!(rt; by_meaning.as_str(), *wanted, "{text}");
        assert_eq!(rt; by_gates.as_str(), *wanted, "{text}");
        let wanted = lines_of(rt.alloc(), wanted)?;
        assert_eq!(rt; lines.as_slice(), wanted.as_bytes(), "{text}");
    }
    Ok(())
}

/// Whether the expression spells each front.
fn spelled(alloc: Global, expression: &str, vectors: &str) -> Result<String, Fail> {
    let head = "line x; symbol a = 1; symbol b = 0; output z; expr";
    let text = format!(in alloc; "{head} {expression};")?;
    let spec = specification(alloc, text.as_str())?;
    let word = word(alloc, vectors)?;
    let mut spelled = String::new(alloc);
    for root in spec.exprs() {
        for length in 0..=word.len().min(100) {
            spelled.push(bit(accepts(&spec, *root, &word[..length])))?;
        }
    }
    Ok(spelled)
}

#[test]
fn spells_words(rt: HostRuntime) -> Result<(), Fail> {
    for (expression, vectors, wanted) in SPELLED {
        let found = spelled(rt.alloc(), expression, vectors)?;
        assert_eq!(rt; found.as_str(), *wanted, "{expression}");
    }
    Ok(())
}
