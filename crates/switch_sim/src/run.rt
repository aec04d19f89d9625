// Runs of a trace.

ghost use Rattle.std.specs.Prelude.{◌≡◌, ◌<◌, ◌≤◌, ◌≢◌, ◌^◌, ℕ, ◌++◌, None, map, length, All, OnOk, OnErr, IsErrOf};
ghost use Rattle.std.specs.Fmt.{decimal};
ghost use Rattle.std.specs.Io.KnownBytes.{Appends};
ghost use Rattle.rx_io.specs.Causes.{Rose};
ghost use Rattle.rx_io.specs.Streams.{AppendsFront};
ghost use Rattle.switch_net.specs.Validity.{IsNetwork};
ghost use Rattle.switch_sim.specs.Simulation.{level_at};
ghost use Rattle.switch_sim.specs.Serving.{GainsServed, GainsServedFront, ArePartlyServed, stay, texts_of_ended, dues_at};
ghost use Rattle.switch_sim.specs.TraceLines.{clock_line, first_wrong, named_wrong, input_count, is_input, level_byte, output_bytes, pad_byte};

use crate::serving::{Asked, put_texts, serve};
use crate::sim::Sim;
use crate::trace::Trace;
use rx_io::{Failed, Sink, put_all};
use rx_text::{NoMemory, NumberText, Role};
use sim_probe::Probe;
use std::alloc::Global;
use switch_net::{Level, Network, Pad, ternary_runs_exist};
use thiserror::Error;

/// Why a trace is not run to its end.
#[derive(Clone, Copy, Debug, PartialEq, Eq, Error)]
pub enum RunFault {
    /// A vector has not as many bits as the network has input pads; `vector` is the number of the first such, from 0.
    #[error("vector {vector} has not one bit for each input pad")]
    WrongWidth { vector: u32 },
    /// A write failed.
    #[error("writing failed")]
    WriteFault,
    /// An allocation was refused.
    #[error("no memory")]
    NoMemory,
}

impl From<NoMemory> for RunFault {
    ghost use Rattle.switch_sim.specs.declared.run.RunFault.TheVariants as fault;

    ghost from_gives = { λ _ e. e ≡ fault.NoMemory };

    fn from(_refused: NoMemory) -> RunFault {
        RunFault::NoMemory
    }
}

impl From<Failed> for RunFault {
    ghost use Rattle.switch_sim.specs.declared.run.RunFault.TheVariants as fault;

    ghost from_gives = { λ _ e. e ≡ fault.WriteFault };

    fn from(_failed: Failed) -> RunFault {
        RunFault::WriteFault
    }
}

/// Runs the network through the vectors of the trace, and writes a line after each clock: its number, a space, and the
/// levels of the outputs in the order of the pads, `0`, `1` or `x`. Clock 0 has the reset high and all lines low.
///
/// After a clock's line the served probes, in the order of the list, are told the levels of the pads that they want, in
/// ascending order. One that has enough is told nothing more: it is taken out of the list, its text is written, and it is
/// dropped. At the end the texts of the served probes that are left are written, and they stay in the list. Probes of kind 0
/// are served, those of kind 1 and 2 where they are asked for, and no others; those that are not served are as they were.
///
/// # Errors
///
/// `WrongWidth` exactly where a vector has not one bit for each input pad, before anything is written or told; `WriteFault`
/// where a write failed; `NoMemory` where an allocation was refused. After the last two the sink has gained a front of what
/// the run writes, and each served probe was told a front of the samples that were due to it, up to the one that ends it; a
/// probe is missing from the list only where it was ended.
pub fn run_trace<K: Sink>(
    alloc: Global,
    network: &Network,
    trace: &Trace,
    asked: Asked,
    probes: &mut Vec<Box<dyn Probe>>,
    sink: &mut K,
) -> Result<(), RunFault>
    ensures ok { OnOk result (GainsServed (K.held sink.old) (K.held sink.new) network.now trace.now asked
        (map (λ b. record { manner = manner b; seen = seen b }) probes.old.items)
        (map (λ b. record { manner = manner b; seen = seen b }) probes.new.items)) }
    ensures width { named_wrong result ≡ first_wrong network.now trace.now }
    ensures unwritten { first_wrong network.now trace.now ≢ None → sink.new ≡ sink.old }
    ensures untold { first_wrong network.now trace.now ≢ None → probes.new.items ≡ probes.old.items }
    ensures front { OnErr result (GainsServedFront (K.held sink.old) (K.held sink.new) network.now trace.now asked
        (map (λ b. record { manner = manner b; seen = seen b }) probes.old.items)
        (map (λ b. record { manner = manner b; seen = seen b }) probes.new.items)) }
    ensures never_falls { K.faults sink.old ≤ K.faults sink.new }
    ensures cause { IsErrOf result RunFault.WriteFault
        → Rose (K.faults sink.old) (K.faults sink.new) }
{
    ternary_runs_exist();
    let pads = pads_of(network);
    if let Some(vector) = first_wrong(network, trace) {
        return Err(RunFault::WrongWidth { vector });
    }
    run_clocks(alloc, network, pads, trace, asked, probes, sink)
}

/// Runs the network, which has these pads, through the vectors of the trace.
fn run_clocks<K: Sink>(
    alloc: Global,
    network: &Network,
    pads: &[Pad],
    trace: &Trace,
    asked: Asked,
    probes: &mut Vec<Box<dyn Probe>>,
    sink: &mut K,
) -> Result<(), RunFault>
    requires pads { pads.now ≡ network.now.pads }
    requires valid { IsNetwork network.now }
    requires few { length pads.now < 2 ^ 32 }
    ensures ok { OnOk result (GainsServed (K.held sink.old) (K.held sink.new) network.now trace.now asked
        (map (λ b. record { manner = manner b; seen = seen b }) probes.old.items)
        (map (λ b. record { manner = manner b; seen = seen b }) probes.new.items)) }
    ensures front { OnErr result
        (GainsServedFront (K.held sink.old) (K.held sink.new) network.now trace.now asked
        (map (λ b. record { manner = manner b; seen = seen b }) probes.old.items)
        (map (λ b. record { manner = manner b; seen = seen b }) probes.new.items)) }
    ensures width { named_wrong result ≡ None }
    ensures never_falls { K.faults sink.old ≤ K.faults sink.new }
    ensures cause { IsErrOf result RunFault.WriteFault → Rose (K.faults sink.old) (K.faults sink.new) }
{
    ternary_runs_exist();
    let mut sim = Sim::new(alloc, network)?;
    let mut line = Vec::new(alloc);
    sim.clock(&[], true);
    end_clock(alloc, &sim, pads, 0, asked, probes, &mut line, sink)?;
    for at in 0..trace.len() {
        sim.clock(trace.vector(at), false);
        end_clock(
            alloc,
            &sim,
            pads,
            at as u32 + 1,
            asked,
            probes,
            &mut line,
            sink,
        )?;
    }
    put_texts(alloc, asked, probes, sink)?;
    Ok(())
}

/// The pads, of which there are no more than nets.
fn pads_of(network: &Network) -> &[Pad]
    ensures pads { result.now ≡ network.now.pads }
    ensures valid { IsNetwork network.now }
    ensures few { length result.now < 2 ^ 32 }
{
    let pads = network.pads();
    let few = pads.len() <= network.nets() as usize;
    prove!(few);
    pads
}

/// Writes the line after this clock, and serves the probes.
fn end_clock<K: Sink>(
    alloc: Global,
    sim: &Sim,
    pads: &[Pad],
    clock: u32,
    asked: Asked,
    probes: &mut Vec<Box<dyn Probe>>,
    line: &mut Vec<u8>,
    sink: &mut K,
) -> Result<(), RunFault>
    requires pads { pads.now ≡ sim.now.circuit.pads }
    requires below { All (λ pad. pad.net.0 < sim.now.circuit.nets) pads.now }
    requires few { length pads.now < 2 ^ 32 }
    ensures left { OnOk result ((map (λ b. record { manner = manner b; seen = seen b }) probes.new.items)
        ≡ stay asked (dues_at pads.now clock (level_at sim.now.levels))
        (map (λ b. record { manner = manner b; seen = seen b }) probes.old.items)) }
    ensures ok { OnOk result (Appends (K.held sink.old) (K.held sink.new)
        (clock_line sim.now.circuit clock (level_at sim.now.levels) ++ texts_of_ended asked (dues_at pads.now clock (level_at sim.now.levels))
        (map (λ b. record { manner = manner b; seen = seen b }) probes.old.items))) }
    ensures partly { OnErr result (ArePartlyServed asked (dues_at pads.now clock (level_at sim.now.levels))
        (map (λ b. record { manner = manner b; seen = seen b }) probes.old.items)
        (map (λ b. record { manner = manner b; seen = seen b }) probes.new.items)) }
    ensures front { OnErr result (AppendsFront (K.held sink.old) (K.held sink.new)
        (clock_line sim.now.circuit clock (level_at sim.now.levels) ++ texts_of_ended asked (dues_at pads.now clock (level_at sim.now.levels))
        (map (λ b. record { manner = manner b; seen = seen b }) probes.old.items))) }
    ensures width { named_wrong result ≡ None }
    ensures never_falls { K.faults sink.old ≤ K.faults sink.new }
    ensures cause { IsErrOf result RunFault.WriteFault → Rose (K.faults sink.old) (K.faults sink.new) }
{
    put_line(sim, pads, clock, line, sink)?;
    serve(alloc, sim, pads, clock, asked, probes, sink)?;
    Ok(())
}

/// The number of the first vector that has not one bit for each input pad.
fn first_wrong(network: &Network, trace: &Trace) -> Option<u32>
    ensures { result ≡ first_wrong network.now trace.now }
{
    let inputs = input_count(network.pads());
    for at in 0..trace.len() {
        if trace.vector(at).len() != inputs {
            return Some(at as u32);
        }
    }
    None
}

/// How many input pads there are.
fn input_count(pads: &[Pad]) -> usize
    ensures { result ≡ input_count pads.now }
{
    pads.iter().filter(|pad| is_input(pad.name.role)).count()
}

fn is_input(role: Role) -> bool
    ensures { result ≡ is_input role }
{
    role == Role::Input
}

/// Writes the line after this clock.
fn put_line<K: Sink>(
    sim: &Sim,
    pads: &[Pad],
    clock: u32,
    line: &mut Vec<u8>,
    sink: &mut K,
) -> Result<(), RunFault>
    requires pads { pads.now ≡ sim.now.circuit.pads }
    requires below { All (λ pad. pad.net.0 < sim.now.circuit.nets) pads.now }
    ensures ok { OnOk result (Appends (K.held sink.old) (K.held sink.new)
        (clock_line sim.now.circuit clock (level_at sim.now.levels))) }
    ensures front { OnErr result (AppendsFront (K.held sink.old) (K.held sink.new)
        (clock_line sim.now.circuit clock (level_at sim.now.levels))) }
    ensures width { named_wrong result ≡ None }
    ensures never_falls { K.faults sink.old ≤ K.faults sink.new }
    ensures cause { IsErrOf result RunFault.WriteFault
        → Rose (K.faults sink.old) (K.faults sink.new) }
{
    fill_line(sim, pads, clock, line)?;
    put_all(sink, line)?;
    Ok(())
}

/// Makes the line after this clock.
fn fill_line(sim: &Sim, pads: &[Pad], clock: u32, line: &mut Vec<u8>) -> Result<(), NoMemory>
    requires pads { pads.now ≡ sim.now.circuit.pads }
    requires below { All (λ pad. pad.net.0 < sim.now.circuit.nets) pads.now }
    ensures { OnOk result (line.new.items
        ≡ clock_line sim.now.circuit clock (level_at sim.now.levels)) }
{
    line.clear();
    line.extend_from_slice(clock_text(clock).as_bytes())?;
    line.push(b' ')?;
    push_outputs(sim, pads, line)?;
    line.push(b'\n')?;
    Ok(())
}

/// The digits of the clock's number.
fn clock_text(clock: u32) -> NumberText
    ensures { result ≡ decimal clock }
{
    NumberText::of(i128::from(clock))
}

/// Adds the levels of the outputs.
fn push_outputs(sim: &Sim, pads: &[Pad], line: &mut Vec<u8>) -> Result<(), NoMemory>
    requires below { All (λ pad. pad.net.0 < sim.now.circuit.nets) pads.now }
    ensures { OnOk result (line.new.items
        ≡ line.old.items ++ output_bytes pads.now (level_at sim.now.levels)) }
{
    for pad in pads {
        push_output(sim, *pad, line)?;
    }
    Ok(())
}

/// Adds the level of the pad, if it is an output.
fn push_output(sim: &Sim, pad: Pad, line: &mut Vec<u8>) -> Result<(), NoMemory>
    requires { pad.net.0 < sim.now.circuit.nets }
    ensures { OnOk result (line.new.items
        ≡ line.old.items ++ pad_byte pad.name.role (level_at sim.now.levels pad.net.0)) }
{
    match pad.name.role {
        Role::Output => line.push(level_byte(sim.value(pad.net)))?,
        Role::Vdd | Role::Gnd | Role::Phi1 | Role::Phi2 | Role::Reset | Role::Input => (),
    }
    Ok(())
}

/// The byte that shows the level.
fn level_byte(level: Level) -> u8
    ensures { result ≡ level_byte level }
{
    match level {
        Level::Low => b'0',
        Level::High => b'1',
        Level::Unknown => b'x',
    }
}
