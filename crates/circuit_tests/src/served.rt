//! Runs that serve probes: what is written, and which probes are left.

ghost use Rattle.std.specs.Prelude.{◌≡◌};
ghost use Rattle.std.specs.Fmt.{decimal};

use crate::texts::{network, trace};
use rx_io::MemSink;
use rx_text::{NoMemory, NumberText, Role};
use sim_probe::{Probe, Sample, Toggles, Verdict, Waves};
use std::alloc::Global;
use std::test::Fail;
use switch_net::Level;
use switch_sim::{Asked, RunFault, run_trace};

/// An inverter of `x`; its pads have the numbers from 0 to 6.
const INVERTER: &str =
    "rxnet 1\nnets 7\nvdd 0\ngnd 1\nphi1 2\nphi2 3\nreset 4\nin x 5\nout z 6\npass 5 6 1\nload 6\nend\n";

/// A probe of a caller's own.
#[derive(Clone, Copy)]
struct Plan {
    kind: u32,
    /// It wants the pads from this one on.
    first: u32,
    /// How many samples are enough.
    enough: usize,
    /// It finds no memory for a sample behind so many.
    room: usize,
    /// The first byte of its text, which says then how many samples it was told.
    mark: u8,
}

/// The probe of a plan, with the samples that it was told.
#[derive(Drop)]
struct Planned {
    plan: Plan,
    samples: Vec<Sample>,
}

impl Planned {
    fn new(alloc: Global, plan: Plan) -> Planned {
        Planned {
            plan,
            samples: Vec::new(alloc),
        }
    }
}

impl Probe for Planned {
    ghost use Rattle.std.specs.Prelude.{◌==◌, ◌++◌, ◌∷◌, [], nat_le, length};
    ghost use Rattle.std.specs.Fmt.{decimal};

    ghost seen = { λ p. p.samples.items };

    ghost manner = { λ p. record {
      kind = p.plan.kind;
      wants = λ pad role. nat_le p.plan.first pad;
      said = λ samples. p.plan.mark ∷ (decimal (length samples) ++ 10 ∷ []);
      ends = λ samples. length samples == p.plan.enough;
    } };

    fn kind(&self) -> u32 {
        self.plan.kind
    }

    fn wants(&self, pad: u32, _role: Role) -> bool {
        self.plan.first <= pad
    }

    fn see(&mut self, at: u32, pad: u32, value: Level) -> Result<Verdict, NoMemory> {
        if self.samples.len() >= self.plan.room {
            return Err(NoMemory);
        }
        self.samples.push(Sample { at, pad, value })?;
        Ok(if self.samples.len() == self.plan.enough {
            Verdict::Enough
        } else {
            Verdict::More
        })
    }

    fn text(&self, alloc: Global) -> Result<Vec<u8>, NoMemory> {
        let mut text = Vec::new(alloc);
        text.push(self.plan.mark)?;
        text.extend_from_slice(count_text(self.samples.len()).as_bytes())?;
        text.push(b'\n')?;
        Ok(text)
    }
}

/// The digits of a count.
fn count_text(count: usize) -> NumberText
    ensures { result ≡ decimal count }
{
    NumberText::of(count as i128)
}

/// A probe of a row.
#[derive(Clone, Copy)]
enum Kind {
    /// Toggles that stop at this clock, or never.
    Toggles(Option<u32>),
    Waves,
    /// Of kind 0 with this mark, wants the input and the output, and has enough or no memory behind so many samples.
    Plain(u8, usize, usize),
    Own(Plan),
}

/// Probes of kind 1 are asked for, and those of kind 2.
const NONE: (bool, bool) = (false, false);

const TOGGLES: (bool, bool) = (true, false);

const WAVES: (bool, bool) = (false, true);

const BOTH: (bool, bool) = (true, true);

/// Probes, what is asked for, the call of the sink that fails, how the run of the inverter on 1, 0, 1 ends, what is written, and the
/// texts of the probes that are left.
const RUNS: &[(
    &[Kind],
    (bool, bool),
    u32,
    Result<(), RunFault>,
    &str,
    &[&str],
)] = &[
    // Toggles that stop are written before the next line, and are gone.
    (
        &[Kind::Toggles(Some(2)), Kind::Toggles(None)],
        TOGGLES,
        0,
        Ok(()),
        "0 1\n1 0\n2 1\ntoggles 6 2\n3 0\ntoggles 6 3\n",
        &["toggles 6 3\n"],
    ),
    // They are told nothing where nobody asks for them.
    (
        &[Kind::Toggles(None), Kind::Waves],
        NONE,
        0,
        Ok(()),
        "0 1\n1 0\n2 1\n3 0\n",
        &["", "$enddefinitions $end\n"],
    ),
    (
        &[Kind::Waves, Kind::Toggles(Some(0))],
        WAVES,
        0,
        Ok(()),
        "0 1\n1 0\n2 1\n3 0\n$var wire 1 p5 p5 $end\n$var wire 1 p6 p6 $end\n$enddefinitions $end\n#0\n0p5\n1p6\n#1\n1p5\n0p6\n#2\n0p5\n1p6\n#3\n1p5\n0p6\n#4\n",
        &[
            "$var wire 1 p5 p5 $end\n$var wire 1 p6 p6 $end\n$enddefinitions $end\n#0\n0p5\n1p6\n#1\n1p5\n0p6\n#2\n0p5\n1p6\n#3\n1p5\n0p6\n#4\n",
            "",
        ],
    ),
    (
        &[
            Kind::Toggles(Some(3)),
            Kind::Plain(b'a', 8, 8),
            Kind::Toggles(Some(3)),
        ],
        BOTH,
        0,
        Ok(()),
        "0 1\n1 0\n2 1\n3 0\ntoggles 6 3\na8\ntoggles 6 3\n",
        &[],
    ),
    // No memory for the second sample.
    (
        &[Kind::Plain(b'a', 9, 1)],
        NONE,
        0,
        Err(RunFault::NoMemory),
        "0 1\n",
        &["a1\n"],
    ),
    // One that wants nothing, one of a kind that nobody asks for, and one that ends at its first sample.
    (
        &[
            Kind::Own(Plan {
                kind: 0,
                first: 7,
                enough: 1,
                room: 9,
                mark: b'a',
            }),
            Kind::Own(Plan {
                kind: 3,
                first: 0,
                enough: 1,
                room: 9,
                mark: b'b',
            }),
            Kind::Plain(b'c', 1, 9),
        ],
        BOTH,
        0,
        Ok(()),
        "0 1\nc1\n1 0\n2 1\n3 0\na0\n",
        &["a0\n", "b0\n"],
    ),
    // One that wants all pads ends within a clock.
    (
        &[Kind::Own(Plan {
            kind: 0,
            first: 0,
            enough: 10,
            room: 99,
            mark: b'a',
        })],
        NONE,
        0,
        Ok(()),
        "0 1\n1 0\na10\n2 1\n3 0\n",
        &[],
    ),
    // Two end at one clock; the others keep their order.
    (
        &[
            Kind::Plain(b'a', 9, 9),
            Kind::Plain(b'b', 3, 9),
            Kind::Plain(b'c', 9, 9),
            Kind::Plain(b'd', 4, 9),
            Kind::Plain(b'e', 9, 9),
        ],
        NONE,
        0,
        Ok(()),
        "0 1\n1 0\nb3\nd4\n2 1\n3 0\na8\nc8\ne8\n",
        &["a8\n", "c8\n", "e8\n"],
    ),
    // A text is not written: its probe is gone, and those behind it were not told of the clock.
    (
        &[
            Kind::Plain(b'a', 1, 9),
            Kind::Plain(b'b', 2, 9),
            Kind::Plain(b'c', 9, 9),
        ],
        NONE,
        3,
        Err(RunFault::WriteFault),
        "0 1\na1\n",
        &["c0\n"],
    ),
    // A line is not written.
    (
        &[Kind::Plain(b'a', 9, 9)],
        NONE,
        2,
        Err(RunFault::WriteFault),
        "0 1\n",
        &["a2\n"],
    ),
    // A text at the end is not written.
    (
        &[Kind::Plain(b'a', 9, 9), Kind::Plain(b'b', 9, 9)],
        NONE,
        6,
        Err(RunFault::WriteFault),
        "0 1\n1 0\n2 1\n3 0\na8\n",
        &["a8\n", "b8\n"],
    ),
    // No memory behind one that stays and one that is gone.
    (
        &[
            Kind::Plain(b'a', 9, 9),
            Kind::Plain(b'b', 4, 9),
            Kind::Plain(b'c', 9, 3),
            Kind::Plain(b'd', 9, 9),
        ],
        NONE,
        0,
        Err(RunFault::NoMemory),
        "0 1\n1 0\nb4\n",
        &["a4\n", "c3\n", "d2\n"],
    ),
];

#[test]
fn runs_serve_probes(rt: HostRuntime) -> Result<(), Fail> {
    let alloc = rt.alloc();
    let network = network(alloc, INVERTER)??;
    let (trace, _) = trace(alloc, "1\n0\n1\nchip\n")??;
    for (number, (kinds, asked, failing, ends, written, left)) in RUNS.iter().enumerate() {
        let mut probes: Vec<Box<dyn Probe>> = Vec::new(alloc);
        for kind in *kinds {
            match kind {
                Kind::Toggles(stop) => probes.push(Box::new(alloc, Toggles::new(alloc, *stop))?)?,
                Kind::Waves => probes.push(Box::new(alloc, Waves::new(alloc))?)?,
                Kind::Plain(mark, enough, room) => {
                    let plan = Plan {
                        kind: 0,
                        first: 5,
                        enough: *enough,
                        room: *room,
                        mark: *mark,
                    };
                    probes.push(Box::new(alloc, Planned::new(alloc, plan))?)?
                }
                Kind::Own(plan) => probes.push(Box::new(alloc, Planned::new(alloc, *plan))?)?,
            }
        }
        let asked = Asked {
            toggles: asked.0,
            waves: asked.1,
        };
        let failing = Vec::from_slice(alloc, &[*failing])?;
        let mut sink = MemSink::new(alloc, 1000, failing, 1000)?;
        let ended = run_trace(alloc, &network, &trace, asked, &mut probes, &mut sink);
        assert!(rt; ended == *ends, "{number}");
        assert!(rt; sink.held() == written.as_bytes(), "{number}");
        assert!(rt; probes.len() == left.len(), "{number}");
        for (probe, text) in probes.iter().zip(*left) {
            assert!(rt;
                probe.text(alloc)?.as_slice() == text.as_bytes(),
                "{number}"
            );
        }
    }
    Ok(())
}
