//! Traces, and what networks show in them.

use crate::texts::{network, trace};
use rx_io::MemSink;
use rx_text::Place;
use std::alloc::Global;
use std::test::Fail;
use switch_net::{Level, Net, Network};
use switch_sim::{Asked, ReadTraceFault, RunFault, Sim, TraceFault, run_trace};

/// VDD, GND, PHI1, PHI2 and RESET on the nets from 0 to 4, the inputs `x` and `y` on 5 and 6, the output `z` on 7; nets 8 and 9
/// have no pad.
const PADS: &str =
    "rxnet 1\nnets 10\nvdd 0\ngnd 1\nphi1 2\nphi2 3\nreset 4\nin x 5\nin y 6\nout z 7\n";

/// Devices, the vectors of `x` and `y`, and the lines of `z`.
const RUNS: &[(&str, &str, &str)] = &[
    // An inverter of x.
    ("pass 5 7 1\nload 7\n", "10\n00\n", "0 1\n1 0\n2 1\n"),
    // z keeps its charge, which is that of ground after a vector with x high.
    ("pass 5 7 1\n", "10\n00\n", "0 x\n1 0\n2 0\n"),
    // Ground wins over VDD and over a load.
    ("pass 5 7 1\npass 6 7 0\n", "11\n01\n", "0 x\n1 0\n2 1\n"),
    // A pass device between the two inputs changes neither.
    (
        "pass 0 5 6\npass 5 7 0\npass 6 7 1\n",
        "10\n01\n",
        "0 x\n1 1\n2 0\n",
    ),
    // A device whose two ends are one net.
    ("pass 0 7 7\nload 7\n", "10\n", "0 1\n1 1\n"),
    // A ring of three inverters is never known.
    (
        "pass 7 8 1\npass 8 9 1\npass 9 7 1\nload 8\nload 9\nload 7\n",
        "10\n",
        "0 x\n1 x\n",
    ),
    // A gate that is low for good: nothing leads to z, of whose charge nothing is known.
    ("pass 1 5 7\n", "10\n", "0 x\n1 x\n"),
    // The reset joins z to x, which is low, and z keeps the charge.
    ("pass 4 5 7\n", "10\n", "0 0\n1 0\n"),
    // The reset leaves z high and a second net low; x joins them, and their charges disagree.
    (
        "pass 4 7 0\npass 4 8 1\npass 5 7 8\n",
        "00\n10\n00\n",
        "0 1\n1 1\n2 x\n3 x\n",
    ),
    // A net behind a gate that is not known: it may be pulled down from its load.
    ("pass 8 7 1\nload 7\n", "10\n", "0 x\n1 x\n"),
    // Such a gate changes nothing where both sides are low.
    ("pass 5 7 1\npass 8 7 1\n", "10\n", "0 x\n1 0\n"),
];

/// Vectors for the inverter, the call that fails, how much the sink takes at a time, what the run comes to and what is written.
const STOPS: &[(&str, u32, usize, Result<(), RunFault>, &str)] = &[
    (
        "10\n1\n000\n",
        9,
        9,
        Err(RunFault::WrongWidth { vector: 1 }),
        "",
    ),
    ("10\n00\n", 9, 1, Err(RunFault::WriteFault), "0 1\n1 0\n"),
    ("10\n00\n", 2, 9, Err(RunFault::WriteFault), "0 1\n"),
    ("10\n00\n", 13, 1, Ok(()), "0 1\n1 0\n2 1\n"),
];

/// How many lines `1` stand in front, what stands behind them, and how many vectors a trace has with the place behind it, or
/// its refusal.
const TRACES: &[(u32, &str, &str)] = &[
    (0, "chip\n", "0 to 5"),
    (0, "1\n0\nchip\nrxnet 1\n", "2 to 9"),
    (0, "12\nchip\n", "V1@1:2"),
    (0, "\nchip\n", "V1@1:1"),
    (0, "1\n1x\nchip\n", "V1@2:2"),
    (0, "1\nchip2\n", "V1@2:1"),
    (0, "1\r\nchip\n", "V1@1:2"),
    (0, "chi", "V1@1:1"),
    (0, "12", "V1@1:2"),
    (0, "1", "V4@1:2"),
    (0, "1\n", "V4@2:1"),
    (0, "chip", "V4@1:5"),
    (0, "", "V4@1:1"),
    (10_000, "chip\n", "10000 to 20005"),
    (10_000, "chip", "V4@10001:5"),
    (10_000, "", "V4@10001:1"),
    (10_000, "1\n", "V3@10001:1"),
    (10_000, "12", "V3@10001:1"),
    (10_000, "21\n", "V1@10001:1"),
    (10_000, "\n", "V1@10001:1"),
];

/// The network with these devices.
fn with_devices(alloc: Global, devices: &str) -> Result<Network, Fail> {
    let text = format!(in alloc; "{PADS}{devices}end\n")?;
    Ok(network(alloc, text.as_str())??)
}

/// What a run writes into a sink, and how it ends.
fn run(
    alloc: Global,
    devices: &str,
    vectors: &str,
    sink: &mut MemSink,
) -> Result<Result<(), RunFault>, Fail> {
    let network = with_devices(alloc, devices)?;
    let text = format!(in alloc; "{vectors}chip\n")?;
    let (trace, _) = trace(alloc, text.as_str())??;
    let asked = Asked {
        toggles: true,
        waves: true,
    };
    Ok(run_trace(alloc, &network, &trace, asked, &mut Vec::new(alloc), sink))
}

#[test]
fn runs_small_networks(rt: HostRuntime) -> Result<(), Fail> {
    for (devices, vectors, lines) in RUNS {
        let mut sink = MemSink::new(rt.alloc(), 1000, Vec::new(rt.alloc()), 1000)?;
        assert_eq!(rt; run(rt.alloc(), devices, vectors, &mut sink)?, Ok(()));
        assert!(rt; sink.held() == lines.as_bytes(), "{devices}");
    }
    Ok(())
}

#[test]
fn stops_at_a_wrong_width_and_a_failed_write(rt: HostRuntime) -> Result<(), Fail> {
    for (vectors, failing, most, wanted, held) in STOPS {
        let failing = Vec::from_slice(rt.alloc(), &[*failing])?;
        let mut sink = MemSink::new(rt.alloc(), 100, failing, (*most).max(1))?;
        let ended = run(rt.alloc(), "pass 5 7 1\nload 7\n", vectors, &mut sink)?;
        assert_eq!(rt; ended, *wanted);
        assert_eq!(rt; sink.held(), held.as_bytes());
    }
    Ok(())
}

#[test]
fn settles_once(rt: HostRuntime) -> Result<(), Fail> {
    let network = with_devices(rt.alloc(), "pass 5 7 1\nload 7\n")?;
    assert_eq!(rt; network.nets(), 10);
    assert_eq!(rt; network.pads().len(), 8);
    let mut sim = Sim::new(rt.alloc(), &network)?;
    assert_eq!(rt; sim.value(Net(7)), Level::Unknown);
    sim.phase(&[false, false, false, false, false, true, false, true]);
    assert_eq!(rt; sim.value(Net(7)), Level::Low);
    assert_eq!(rt; sim.value(Net(0)), Level::High);
    sim.phase(&[false, false, false, false, false, false, false, false]);
    assert_eq!(rt; sim.value(Net(7)), Level::High);
    Ok(())
}

/// How many vectors the trace of the text has, and the place behind it, or its refusal.
fn outcome(alloc: Global, text: &str) -> Result<String, Fail> {
    match trace(alloc, text)? {
        Ok((trace, at)) => Ok(format!(in alloc; "{} to {at}", trace.len())?),
        Err(
            ReadTraceFault::Fault(
                TraceFault {
                    code,
                    place: Place::Text { line, column },
                },
            ),
        ) => Ok(format!(in alloc; "{code:?}@{line}:{column}")?),
        Err(_) => Err("no memory".into()),
    }
}

#[test]
fn reads_traces(rt: HostRuntime) -> Result<(), Fail> {
    for (count, end, wanted) in TRACES {
        let mut text = String::new(rt.alloc());
        for _ in 0..*count {
            text.push_str("1\n")?;
        }
        text.push_str(end)?;
        assert_eq!(rt;
            outcome(rt.alloc(), text.as_str())?.as_str(),
            *wanted,
            "{end}"
        );
    }
    Ok(())
}
