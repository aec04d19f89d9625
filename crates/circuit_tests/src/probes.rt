//! What probes answer to samples, and the texts that they write.

use rx_text::Role;
use sim_probe::{Probe, Toggles, Verdict, Waves};
use std::test::Fail;
use switch_net::Level;

/// Samples of a clock, a pad and a level each; the clock at which toggles stop, the number of the sample that ends them, and the
/// two texts.
const TEXTS: &[(&[(u32, u32, Level)], Option<u32>, Option<usize>, &str, &str)] = &[
    // Nothing is seen.
    (&[], None, None, "", "$enddefinitions $end\n"),
    // An input and an output.
    (
        &[
            (0, 5, Level::Low),
            (0, 6, Level::Low),
            (1, 5, Level::High),
            (1, 6, Level::High),
            (2, 5, Level::Low),
            (2, 6, Level::Low),
            (3, 5, Level::High),
            (3, 6, Level::Low),
        ],
        Some(2),
        Some(4),
        "toggles 5 3\ntoggles 6 2\n",
        "$var wire 1 p5 p5 $end\n$var wire 1 p6 p6 $end\n$enddefinitions $end\n#0\n0p5\n0p6\n#1\n1p5\n1p6\n#2\n0p5\n0p6\n#3\n1p5\n#4\n",
    ),
    // Clocks without a change have no time, the last one aside.
    (
        &[
            (0, 14, Level::Unknown),
            (1, 14, Level::Unknown),
            (2, 14, Level::High),
            (3, 14, Level::High),
        ],
        None,
        None,
        "toggles 14 1\n",
        "$var wire 1 p14 p14 $end\n$enddefinitions $end\n#0\nxp14\n#2\n1p14\n#4\n",
    ),
    // Pads stand in ascending order, whatever the samples' is; a clock may come again.
    (
        &[
            (0, 7, Level::Unknown),
            (0, 3, Level::High),
            (1, 7, Level::Unknown),
            (0, 7, Level::Low),
            (0, 3, Level::High),
        ],
        Some(1),
        Some(2),
        "toggles 3 0\ntoggles 7 1\n",
        "$var wire 1 p3 p3 $end\n$var wire 1 p7 p7 $end\n$enddefinitions $end\n#0\nxp7\n1p3\n#0\n0p7\n#1\n",
    ),
    // The greatest numbers.
    (
        &[(4_294_967_295, 4_294_967_295, Level::Low)],
        Some(4_294_967_295),
        Some(0),
        "toggles 4294967295 0\n",
        "$var wire 1 p4294967295 p4294967295 $end\n$enddefinitions $end\n#4294967295\n0p4294967295\n#4294967296\n",
    ),
];

/// The number of the first of the samples that ends the probe.
fn first_enough(
    probe: &mut impl Probe,
    samples: &[(u32, u32, Level)],
) -> Result<Option<usize>, Fail> {
    let mut first = None;
    for (number, (at, pad, value)) in samples.iter().enumerate() {
        if probe.see(*at, *pad, *value)? == Verdict::Enough && first.is_none() {
            first = Some(number);
        }
    }
    Ok(first)
}

#[test]
fn probes_write_their_texts(rt: HostRuntime) -> Result<(), Fail> {
    for (samples, stop, ends, toggled, waved) in TEXTS {
        let mut toggles = Toggles::new(rt.alloc(), *stop);
        assert_eq!(rt; first_enough(&mut toggles, samples)?, *ends);
        assert_eq!(rt; toggles.text(rt.alloc())?.as_slice(), toggled.as_bytes());
        let mut waves = Waves::new(rt.alloc());
        assert_eq!(rt; first_enough(&mut waves, samples)?, None);
        assert_eq!(rt; waves.text(rt.alloc())?.as_slice(), waved.as_bytes());
    }
    Ok(())
}

#[test]
fn probes_want_pads(rt: HostRuntime) -> Result<(), Fail> {
    let toggles = Toggles::new(rt.alloc(), None);
    let waves = Waves::new(rt.alloc());
    assert_eq!(rt; (toggles.kind(), waves.kind()), (1, 2));
    for role in [Role::Vdd, Role::Gnd, Role::Phi1, Role::Phi2, Role::Reset] {
        assert_eq!(rt;
            (toggles.wants(0, role), waves.wants(0, role)),
            (false, false)
        );
    }
    assert_eq!(rt;
        (toggles.wants(5, Role::Input), waves.wants(5, Role::Input)),
        (false, true)
    );
    assert_eq!(rt;
        (toggles.wants(6, Role::Output), waves.wants(6, Role::Output)),
        (true, true)
    );
    Ok(())
}
