//! Network texts: those that are read and written again, and those that are refused, each with its code, line and column.

use crate::texts::network;
use net_text::{NetFault, ReadNetFault, write_net};
use rx_io::MemSink;
use rx_text::Place;
use std::alloc::Global;
use std::test::Fail;

/// The lines of an inverter from `x` to `z` before its devices.
const PADS: &str = "rxnet 1\nnets 7\nvdd 0\ngnd 1\nphi1 2\nphi2 3\nreset 4\nin x 5\nout z 6\n";

/// What stands at the front of texts that are refused, and behind it in each of them.
const REFUSED: &[(&str, &[&str])] = &[
    (
        "",
        &[
            "N1@1:1 ",
            "N1@1:7 rxnet 2\n",
            "N1@2:6 rxnet 1\nnets \n",
            "N5@2:6 rxnet 1\nnets 16777217",
            "N5@2:6 rxnet 1\nnets 167772160x",
            "N1@2:7 rxnet 1\nnets 016777217\n",
            "N4@3:1 rxnet 1\nnets 16777216\nend\n",
            "N2@3:5 rxnet 1\nnets 0\nvdd 0\n",
            "N3@4:1 rxnet 1\nnets 2\nvdd 0\nvdd 1\nend\n",
            "N6@6:1 rxnet 1\nnets 2\nvdd 0\nvdd 1\nend\n ",
            "N4@11:1 rxnet 1\nnets 7\nvdd 0\ngnd 1\nphi1 2\nphi2 3\nin x 5\nout z 6\npass 5 6 1\nload 6\nend\n",
        ],
    ),
    (
        "rxnet 1\nnets 7\nvdd 0\ngnd 1\nphi1 2\nphi2 3\nreset 4\n",
        &[
            // Pads that repeat others, and ends.
            "N3@10:1 in x 5\nout z 6\nout z 5\npass 5 6 1\nload 6\nend\n",
            "N3@8:1 in x 4\nend\n",
            "N3@8:1 vdd 5\nend\n",
            "N2@9:7 in x 5\nout z 7\nout z 5\nend\n",
            "N1@8:1 ",
            "N1@8:4 end",
            "N1@8:4 end\r\n",
            "N6@9:1 end\n\n",
            "N6@9:1 end\nend\n",
            // Faults within lines.
            "N1@8:4 phi3 5\n",
            "N1@8:1  in x 5\n",
            "N1@8:4 in 5\n",
            "N1@8:5 in x\n",
            "N1@9:4 in abcdefghijklmnopqrstuvwxyz01234 5\nend",
            "N1@8:35 in abcdefghijklmnopqrstuvwxyz012345 5\n",
            "N1@8:7 in x 05\n",
            "N1@8:7 in x 5 \n",
            "N1@8:9 pass 5 6\n",
            "N1@9:1 load 6\nin x 5\n",
            "N1@9:2 load 6\nphi1 5\n",
            // Nets that are not below seven.
            "N2@8:6 in x 7",
            "N2@8:6 in x 10x\n",
            "N2@8:6 in x 99999999999999999999999999\n",
            "N2@8:6 pass 7 8 9\n",
            "N2@8:8 pass 5 8 9\n",
            "N2@8:10 pass 5 6 9\n",
            "N2@8:6 load 7\nend",
        ],
    ),
    (
        "rxnet 1\nnets 10\nvdd 0\ngnd 1\nphi1 2\nphi2 3\nreset 4\n",
        &[
            "N3@12:1 in a 5\nin b 6\nout a 7\nout b 8\nvdd 9\nend\n",
            "N3@12:1 in a 5\nin b 6\nout a 7\nout b 8\nin c 0\nend\n",
            "N3@11:1 in a 5\nin b 6\nout a 7\nin a 8\nout b 9\nend\n",
            "N3@9:1 in a 5\nin b 5\nout b 6\nout b 7\nin c 0\nend\n",
            "N3@8:1 vdd 0\nvdd 0\nend\n",
        ],
    ),
];

/// Whole texts, each that of a network.
const READ: &[&str] = &[
    "rxnet 1\nnets 7\nvdd 0\ngnd 1\nphi1 2\nphi2 3\nreset 4\nin x 5\nout z 6\npass 5 6 1\nload 6\nend\n",
    "rxnet 1\nnets 9\nvdd 0\ngnd 1\nphi1 2\nphi2 3\nreset 4\nin a 5\nin b 6\nout a 7\nout b 8\nend\n",
    "rxnet 1\nnets 5\nreset 4\nphi2 0\nphi1 1\ngnd 2\nvdd 3\nend\n",
];

/// How many devices stand behind the pads; the sink's room, how much it takes at a time, and the call that fails, from 1;
/// whether the text is written, and the least and the most that the sink holds then.
const WRITES: &[(u32, usize, usize, u32, bool, usize, usize)] = &[
    (1, 100, 100, 0, true, 79, 79),
    (1, 79, 100, 0, true, 79, 79),
    (1, 100, 1, 0, true, 79, 79),
    (1, 100, 16, 0, true, 79, 79),
    (1, 100, 100, 1, false, 0, 0),
    (1, 100, 1, 40, false, 39, 39),
    (1, 100, 16, 3, false, 32, 32),
    (1, 50, 16, 0, false, 50, 50),
    // Three calls take the text of a thousand devices.
    (1000, 11068, 5000, 4, true, 11068, 11068),
    (1000, 11068, 5000, 3, false, 8000, 10000),
    (1000, 11068, 5000, 2, false, 4000, 5000),
];

/// The refusal of the text.
fn refusal(alloc: Global, text: &str) -> Result<String, Fail> {
    match network(alloc, text)? {
        Err(
            ReadNetFault::Fault(
                NetFault {
                    code,
                    place: Place::Text { line, column },
                },
            ),
        ) => Ok(format!(in alloc; "{code:?}@{line}:{column}")?),
        _ => Err("not refused".into()),
    }
}

#[test]
fn refuses_with_codes_and_places(rt: HostRuntime) -> Result<(), Fail> {
    for (front, rows) in REFUSED {
        for row in rows.iter() {
            let (wanted, behind) = row.split_once(' ').ok_or("no text")?;
            let text = format!(in rt.alloc(); "{front}{behind}")?;
            assert_eq!(rt;
                refusal(rt.alloc(), text.as_str())?.as_str(),
                wanted,
                "{text}"
            );
        }
    }
    Ok(())
}

#[test]
fn writes_what_was_read(rt: HostRuntime) -> Result<(), Fail> {
    for text in READ {
        let network = network(rt.alloc(), text)??;
        let mut sink = MemSink::new(rt.alloc(), 200, Vec::new(rt.alloc()), 200)?;
        assert_eq!(rt; write_net(&network, &mut sink), Ok(()));
        assert_eq!(rt; sink.held(), text.as_bytes());
    }
    Ok(())
}

/// The text of the inverter with so many times its transistor.
fn with_devices(alloc: Global, count: u32) -> Result<String, Fail> {
    let mut text = PADS.to_string(alloc)?;
    for _ in 0..count {
        text.push_str("pass 5 6 1\n")?;
    }
    text.push_str("end\n")?;
    Ok(text)
}

#[test]
fn writes_all_or_a_front(rt: HostRuntime) -> Result<(), Fail> {
    for (devices, room, most, failing, is_written, least, greatest) in WRITES {
        let text = with_devices(rt.alloc(), *devices)?;
        let network = network(rt.alloc(), text.as_str())??;
        let failing = Vec::from_slice(rt.alloc(), &[*failing])?;
        let mut sink = MemSink::new(rt.alloc(), *room, failing, (*most).max(1))?;
        assert_eq!(rt; write_net(&network, &mut sink).is_ok(), *is_written);
        let held = sink.held();
        assert!(rt;
            *least <= held.len() && held.len() <= *greatest,
            "{devices} to {room} by {most}"
        );
        assert!(rt; text.as_bytes().starts_with(held));
    }
    Ok(())
}
