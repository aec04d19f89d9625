// Probes, served after each clock of a run.

ghost use Rattle.std.specs.Prelude.{◌≡◌, ◌≤◌, ◌<◌, ◌^◌, ◌++◌, ◌∷◌, [], List, None, map, length, vec_len, All, OnOk, OnErr, IfOk, IsErrOf};
ghost use Rattle.std.specs.Io.KnownBytes.{Appends};
ghost use Rattle.rx_io.specs.Causes.{Rose};
ghost use Rattle.rx_io.specs.Streams.{AppendsFront};
ghost use Rattle.sim_probe.specs.Due.{due_at};
ghost use Rattle.switch_sim.specs.Simulation.{level_at};
ghost use Rattle.switch_sim.specs.TraceLines.{named_wrong};
ghost use Rattle.switch_sim.specs.Serving.{Listener, is_served, seen_after, is_ended, stay, texts_of_ended, texts_at_end};
ghost use Rattle.switch_sim.specs.Serving.{dues_at, IsPartlyTold, ArePartlyServed};
ghost use Rattle.switch_sim.specs.ServingSteps.{ServesOne, ServesPartOfOne};

use crate::run::RunFault;
use crate::sim::Sim;
use rx_io::{Sink, put_all};
use rx_text::NoMemory;
use sim_probe::{Probe, Verdict};
use std::alloc::Global;
use switch_net::Pad;

/// Which probes a run serves beside those of kind 0.
#[derive(Clone, Copy, Debug, PartialEq, Eq)]
pub struct Asked {
    /// Whether probes of kind 1 are served.
    pub toggles: bool,
    /// Whether probes of kind 2 are served.
    pub waves: bool,
}

/// Tells each served probe the samples of this clock that are due to it, in the order of the list. One that has enough is taken
/// out of the list, its text is written, and it is dropped, before the next one is told.
pub(crate) fn serve<K: Sink>(
    alloc: Global,
    sim: &Sim,
    pads: &[Pad],
    clock: u32,
    asked: Asked,
    probes: &mut Vec<Box<dyn Probe>>,
    sink: &mut K,
) -> Result<(), RunFault>
    requires below { All (λ pad. pad.net.0 < sim.now.circuit.nets) pads.now }
    requires few { length pads.now < 2 ^ 32 }
    ensures left { OnOk result ((map (λ b. record { manner = manner b; seen = seen b }) probes.new.items)
        ≡ stay asked (dues_at pads.now clock (level_at sim.now.levels))
        (map (λ b. record { manner = manner b; seen = seen b }) probes.old.items)) }
    ensures ok { OnOk result (Appends (K.held sink.old) (K.held sink.new)
        (texts_of_ended asked (dues_at pads.now clock (level_at sim.now.levels))
        (map (λ b. record { manner = manner b; seen = seen b }) probes.old.items))) }
    ensures partly { OnErr result (ArePartlyServed asked (dues_at pads.now clock (level_at sim.now.levels))
        (map (λ b. record { manner = manner b; seen = seen b }) probes.old.items)
        (map (λ b. record { manner = manner b; seen = seen b }) probes.new.items)) }
    ensures front { OnErr result (AppendsFront (K.held sink.old) (K.held sink.new)
        (texts_of_ended asked (dues_at pads.now clock (level_at sim.now.levels))
        (map (λ b. record { manner = manner b; seen = seen b }) probes.old.items))) }
    ensures width { named_wrong result ≡ None }
    ensures never_falls { K.faults sink.old ≤ K.faults sink.new }
    ensures cause { IsErrOf result RunFault.WriteFault → Rose (K.faults sink.old) (K.faults sink.new) }
{
    let mut at = 0;
    while at < probes.len() {
        at = serve_one(alloc, sim, pads, clock, asked, probes, at, sink)?;
    }
    Ok(())
}

/// Serves the probe of this number. The number of the next one, which is the same where the probe was taken out.
fn serve_one<K: Sink>(
    alloc: Global,
    sim: &Sim,
    pads: &[Pad],
    clock: u32,
    asked: Asked,
    probes: &mut Vec<Box<dyn Probe>>,
    at: usize,
    sink: &mut K,
) -> Result<usize, RunFault>
    requires within { at < vec_len probes.old }
    requires below { All (λ pad. pad.net.0 < sim.now.circuit.nets) pads.now }
    requires few { length pads.now < 2 ^ 32 }
    ensures ok { IfOk result (λ next. (front rest : List Listener) (one : Listener)
        → (map (λ b. record { manner = manner b; seen = seen b }) probes.old.items) ≡ front ++ one ∷ rest → length front ≡ at
        → ServesOne asked (dues_at pads.now clock (level_at sim.now.levels)) one next front rest
        (map (λ b. record { manner = manner b; seen = seen b }) probes.new.items) (K.held sink.old) (K.held sink.new)) }
    ensures err { OnErr result ((front rest : List Listener) (one : Listener)
        → (map (λ b. record { manner = manner b; seen = seen b }) probes.old.items) ≡ front ++ one ∷ rest → length front ≡ at
        → ServesPartOfOne asked (dues_at pads.now clock (level_at sim.now.levels)) one front rest
        (map (λ b. record { manner = manner b; seen = seen b }) probes.new.items) (K.held sink.old) (K.held sink.new)) }
    ensures width { named_wrong result ≡ None }
    ensures never_falls { K.faults sink.old ≤ K.faults sink.new }
    ensures cause { IsErrOf result RunFault.WriteFault → Rose (K.faults sink.old) (K.faults sink.new) }
{
    if !is_served(asked, kind_of(&probes[at])) {
        return Ok(at + 1);
    }
    if !tell(sim, pads, clock, &mut probes[at])? {
        return Ok(at + 1);
    }
    let probe = probes.remove(at);
    put_text(alloc, &probe, sink)?;
    Ok(at)
}

/// Writes the texts of the served probes, in the order of the list.
pub(crate) fn put_texts<K: Sink>(
    alloc: Global,
    asked: Asked,
    probes: &[Box<dyn Probe>],
    sink: &mut K,
) -> Result<(), RunFault>
    ensures ok { OnOk result (Appends (K.held sink.old) (K.held sink.new)
        (texts_at_end asked (map (λ b. record { manner = manner b; seen = seen b }) probes.now))) }
    ensures front { OnErr result (AppendsFront (K.held sink.old) (K.held sink.new)
        (texts_at_end asked (map (λ b. record { manner = manner b; seen = seen b }) probes.now))) }
    ensures width { named_wrong result ≡ None }
    ensures never_falls { K.faults sink.old ≤ K.faults sink.new }
    ensures cause { IsErrOf result RunFault.WriteFault → Rose (K.faults sink.old) (K.faults sink.new) }
{
    for probe in probes {
        put_served(alloc, asked, probe, sink)?;
    }
    Ok(())
}

/// Writes the text of the probe, if it is served.
fn put_served<K: Sink>(
    alloc: Global,
    asked: Asked,
    probe: &Box<dyn Probe>,
    sink: &mut K,
) -> Result<(), RunFault>
    ensures ok { OnOk result (Appends (K.held sink.old) (K.held sink.new)
        (texts_at_end asked (record { manner = manner probe.now; seen = seen probe.now } ∷ []))) }
    ensures front { OnErr result (AppendsFront (K.held sink.old) (K.held sink.new)
        (texts_at_end asked (record { manner = manner probe.now; seen = seen probe.now } ∷ []))) }
    ensures width { named_wrong result ≡ None }
    ensures never_falls { K.faults sink.old ≤ K.faults sink.new }
    ensures cause { IsErrOf result RunFault.WriteFault → Rose (K.faults sink.old) (K.faults sink.new) }
{
    if is_served(asked, kind_of(probe)) {
        put_text(alloc, probe, sink)?;
    }
    Ok(())
}

/// Whether probes of this kind are served.
fn is_served(asked: Asked, kind: u32) -> bool
    ensures { result ≡ is_served asked kind }
{
    match kind {
        0 => true,
        1 => asked.toggles,
        2 => asked.waves,
        _ => false,
    }
}

/// The kind of the probe.
fn kind_of(probe: &Box<dyn Probe>) -> u32
    ensures { result ≡ (manner probe.now).kind }
{
    probe.kind()
}

/// Tells the probe the samples of this clock that are due to it, up to the first that ends it. Whether one did.
fn tell(sim: &Sim, pads: &[Pad], clock: u32, probe: &mut Box<dyn Probe>) -> Result<bool, NoMemory>
    requires below { All (λ pad. pad.net.0 < sim.now.circuit.nets) pads.now }
    requires few { length pads.now < 2 ^ 32 }
    ensures seen { OnOk result (seen probe.new
        ≡ seen_after (manner probe.old).ends (seen probe.old) (dues_at pads.now clock (level_at sim.now.levels) (manner probe.old))) }
    ensures ended { IfOk result (λ enough. enough
        ≡ is_ended (manner probe.old).ends (seen probe.old) (dues_at pads.now clock (level_at sim.now.levels) (manner probe.old))) }
    ensures partly { OnErr result (IsPartlyTold (manner probe.old).ends (seen probe.old)
        (dues_at pads.now clock (level_at sim.now.levels) (manner probe.old)) (seen probe.new)) }
    ensures manner { manner probe.new ≡ manner probe.old }
{
    for (number, pad) in pads.iter().enumerate() {
        if tell_pad(sim, clock, number as u32, *pad, probe)? {
            return Ok(true);
        }
    }
    Ok(false)
}

/// Tells the probe the level of the pad, where it wants it. Whether the sample ends it.
fn tell_pad(
    sim: &Sim,
    clock: u32,
    number: u32,
    pad: Pad,
    probe: &mut Box<dyn Probe>,
) -> Result<bool, NoMemory>
    requires { pad.net.0 < sim.now.circuit.nets }
    ensures seen { OnOk result (seen probe.new ≡ seen_after (manner probe.old).ends (seen probe.old)
        (due_at (manner probe.old).wants clock (level_at sim.now.levels) number (pad ∷ []))) }
    ensures ended { IfOk result (λ enough. enough ≡ is_ended (manner probe.old).ends (seen probe.old)
        (due_at (manner probe.old).wants clock (level_at sim.now.levels) number (pad ∷ []))) }
    ensures untold { OnErr result (seen probe.new ≡ seen probe.old) }
    ensures manner { manner probe.new ≡ manner probe.old }
{
    if !probe.wants(number, pad.name.role) {
        return Ok(false);
    }
    let verdict = probe.see(clock, number, sim.value(pad.net))?;
    Ok(matches!(verdict, Verdict::Enough))
}

/// Writes the text of the probe.
fn put_text<K: Sink>(alloc: Global, probe: &Box<dyn Probe>, sink: &mut K) -> Result<(), RunFault>
    ensures ok { OnOk result (Appends (K.held sink.old) (K.held sink.new) ((manner probe.now).said (seen probe.now))) }
    ensures front { OnErr result (AppendsFront (K.held sink.old) (K.held sink.new) ((manner probe.now).said (seen probe.now))) }
    ensures width { named_wrong result ≡ None }
    ensures never_falls { K.faults sink.old ≤ K.faults sink.new }
    ensures cause { IsErrOf result RunFault.WriteFault → Rose (K.faults sink.old) (K.faults sink.new) }
{
    let text = probe.text(alloc)?;
    put_all(sink, &text)?;
    Ok(())
}
