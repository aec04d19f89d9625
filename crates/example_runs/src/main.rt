//! Runs the specifications of `examples/`, whose names come on standard input, one a line. Each is compiled, its network is
//! written and read back, and runs through its trace. A line for each tells whether the network shows what its file `.levels`
//! says, which was written from the meaning of the example and not by the program.
#![tactic(auto)]

use cell_network::cells;
use net_text::{read_net, write_net};
use nor_net::to_switch;
use rx_io::MemSink;
use rx_syntax::read_spec;
use star_normal::normalize;
use std::alloc::Global;
use std::{fs, io};
use switch_net::Network;
use switch_sim::{Asked, read_trace, run_trace};

/// The most bytes of a file that is read, and of a text that is written.
const MOST_BYTES: usize = 1 << 24;

/// The bytes of the example's file with this ending, if it can be read and is small.
fn file(rt: &HostRuntime, name: &str, ending: &str) -> Option<Vec<u8>> {
    let path = format!(in rt.alloc(); "{name}.{ending}").ok()?;
    let bytes = fs::read(rt, path.as_str()).ok()?;
    (bytes.len() < MOST_BYTES).then_some(bytes)
}

/// The network of the specification.
fn compiled(alloc: Global, text: &[u8]) -> Option<Network> {
    if text.len() >= MOST_BYTES {
        return None;
    }
    let spec = read_spec(alloc, text, 4096).ok()?;
    let tree = normalize(alloc, &spec).ok()?;
    let net = cells(alloc, &tree, &spec).ok()?;
    to_switch(alloc, &net).ok()
}

/// The network once it was written as a text and read back.
fn read_back(alloc: Global, network: &Network) -> Option<Network> {
    let mut sink = MemSink::new(alloc, MOST_BYTES, Vec::new(alloc), MOST_BYTES).ok()?;
    write_net(network, &mut sink).ok()?;
    if sink.held().len() >= MOST_BYTES {
        return None;
    }
    read_net(alloc, sink.held()).ok()
}

/// The lines that the network of the specification shows on the trace.
fn shown(alloc: Global, spec: &[u8], trace: &[u8]) -> Option<Vec<u8>> {
    let network = read_back(alloc, &compiled(alloc, spec)?)?;
    if trace.len() >= MOST_BYTES {
        return None;
    }
    let (trace, _) = read_trace(alloc, trace).ok()?;
    let mut sink = MemSink::new(alloc, MOST_BYTES, Vec::new(alloc), MOST_BYTES).ok()?;
    let asked = Asked {
        toggles: false,
        waves: false,
    };
    run_trace(
        alloc,
        &network,
        &trace,
        asked,
        &mut Vec::new(alloc),
        &mut sink,
    )
    .ok()?;
    sink.held().to_vec(alloc).ok()
}

/// Whether the example's network shows its levels.
fn shows_its_levels(rt: &HostRuntime, name: &str) -> Option<bool> {
    let shown = shown(
        rt.alloc(),
        &file(rt, name, "rx")?,
        &file(rt, name, "trace")?,
    )?;
    Some(shown.as_slice() == file(rt, name, "levels")?.as_slice())
}

fn main(rt: HostRuntime) -> io::Result<()> {
    for name in rt.lines(rt.alloc()) {
        let name = name?;
        match shows_its_levels(&rt, name.as_str()) {
            Some(true) => println!(rt; "{name}: shows its levels")?,
            Some(false) => println!(rt; "{name}: shows other levels")?,
            None => println!(rt; "{name}: no run")?,
        }
    }
    Ok(())
}
