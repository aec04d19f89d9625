//! The parts of single nodes, written out.

use crate::texts::specification;
use cell_network::node_part;
use nor_net::Part;
use star_normal::normalize;
use std::alloc::Global;
use std::test::Fail;

/// A node of the normal form of `(a? !z)*`, in which the leaf is node 0 and the frame node 1, and its part: the number of nets;
/// each gate as its output and its inputs; the nets with loads; each transfer; the last port.
///
/// Wires 0 to 8 of both are the symbol, the shared wire, IN, OUT, reset, PHI1, PHI2, VDD, GND. Then the leaf has the
/// complement of IN', IN', the complement of the symbol, what is stored, and the register; the frame has the line, its
/// complement, the output, and the start register.
const PARTS: &[(u32, &str)] = &[
    (
        0,
        "16: 3=15 9=2,3 10=9 11=0 12=9,11,4 14=13 1=3,10 loads 3 9 10 11 12 14 Phi1:12>13 Phi2:14>15 supplies 7 8 5 6",
    ),
    (
        1,
        "15: 10=9 0=10 2=14 11=1 13=12 loads 10 0 2 11 13 1 Phi1:4>12 Phi2:13>14 supplies 7 8 5 6",
    ),
];

/// A separator and a number.
fn push(text: &mut String, alloc: Global, separator: &str, net: u32) -> Result<(), Fail> {
    text.push_str(separator)?;
    text.push_str(format!(in alloc; "{net}")?.as_str())?;
    Ok(())
}

fn push_gates(text: &mut String, alloc: Global, part: &Part) -> Result<(), Fail> {
    for gate in part.gates() {
        push(text, alloc, " ", gate.out())?;
        let mut separator = "=";
        for input in gate.inputs() {
            push(text, alloc, separator, *input)?;
            separator = ",";
        }
    }
    Ok(())
}

/// The part as a text.
fn drawn(alloc: Global, part: &Part) -> Result<String, Fail> {
    let mut text = format!(in alloc; "{}:", part.nets())?;
    push_gates(&mut text, alloc, part)?;
    text.push_str(" loads")?;
    for net in part.loads() {
        push(&mut text, alloc, " ", *net)?;
    }
    for transfer in part.transfers() {
        let clock = format!(in alloc; " {:?}:", transfer.clock)?;
        push(&mut text, alloc, clock.as_str(), transfer.from)?;
        push(&mut text, alloc, ">", transfer.to)?;
    }
    let supplies = part.supplies();
    push(&mut text, alloc, " supplies ", supplies.vdd)?;
    push(&mut text, alloc, " ", supplies.gnd)?;
    push(&mut text, alloc, " ", supplies.phi1)?;
    push(&mut text, alloc, " ", supplies.phi2)?;
    Ok(text)
}

#[test]
fn makes_the_parts_of_nodes(rt: HostRuntime) -> Result<(), Fail> {
    let alloc = rt.alloc();
    let spec = specification(alloc, "line x; symbol a = 1; output z; expr (a? !z)*;")?;
    let tree = normalize(alloc, &spec)?;
    assert_eq!(rt; tree.nodes().len(), 1);
    for (node, wanted) in PARTS {
        assert!(rt; *node <= 1);
        let part = node_part(alloc, &tree, *node, &spec)?;
        assert_eq!(rt; drawn(alloc, &part)?.as_str(), *wanted);
    }
    Ok(())
}
