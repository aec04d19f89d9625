// The probe that counts how often pads change.

ghost use Rattle.std.specs.Prelude.{◌≡◌, ◌<◌, ◌-◌, ◌^◌, ◌++◌, ◌∷◌, ℕ, [], List, All, Some, IfOk, OnOk, IfSome};
ghost use Rattle.std.specs.List.{flat_map};
ghost use Rattle.std.specs.Ordering.{nat_cmp};
ghost use Rattle.std.specs.BTreeMap.{get};
ghost use Rattle.sim_probe.specs.TogglesText.{toggles_manner, toggles_text, toggles_line};
ghost use Rattle.sim_probe.specs.Tallies.{HasTallies, next_tally, tally_line};
ghost use Rattle.sim_probe.specs.declared.sample.Sample.{Sample};

use crate::lines::push_numbered;
use crate::{NoMemory, Probe, Sample, Verdict};
use rx_text::Role;
use std::alloc::Global;
use std::collections::BTreeMap;
use std::marker::Model;
use switch_net::Level;

/// A probe of kind 1 that wants the outputs, and writes for each how often its level changed.
///
/// It keeps all samples that it was told. Its text has for each pad in them, in ascending order, the line `toggles PAD COUNT`,
/// where COUNT is in how many samples the level of the pad differs from the pad's sample before. It has enough at the first
/// sample of the clock at which it is to stop.
#[derive(Drop)]
pub struct Toggles {
    stop: Option<u32>,
    samples: Vec<Sample>,
}

impl Model for Toggles {
    ghost use Rattle.sim_probe.specs.TogglesText.{Counting};

    ghost Value = { Counting };

    ghost view = { λ t. record { stop = t.stop; seen = t.samples.items } };
}

impl Toggles {
    /// A `Toggles` that was told nothing, and has enough at the clock `stop`, or never. Takes no memory.
    pub fn new(alloc: Global, stop: Option<u32>) -> Toggles
        ensures { result ≡ record { stop = stop; seen = [] } }
    {
        Toggles {
            stop,
            samples: Vec::new(alloc),
        }
    }
}

impl Probe for Toggles {
    ghost seen = { λ t. t.seen };

    ghost manner = { λ t. toggles_manner t.stop };

    fn kind(&self) -> u32 {
        1
    }

    fn wants(&self, _pad: u32, role: Role) -> bool {
        role == Role::Output
    }

    fn see(&mut self, at: u32, pad: u32, value: Level) -> Result<Verdict, NoMemory> {
        self.samples.push(Sample { at, pad, value })?;
        Ok(if self.stop == Some(at) {
            Verdict::Enough
        } else {
            Verdict::More
        })
    }

    fn text(&self, alloc: Global) -> Result<Vec<u8>, NoMemory> {
        toggles_text(alloc, &self.samples)
    }
}

/// The last level of a pad, and how often it changed so far.
#[derive(Clone, Copy, Debug)]
struct Tally {
    last: Level,
    count: u64,
}

/// The lines of all pads in the samples.
fn toggles_text(alloc: Global, samples: &[Sample]) -> Result<Vec<u8>, NoMemory>
    ensures { IfOk result (λ text. text.items ≡ toggles_text samples.now) }
{
    let tallies = tallies_of(alloc, samples)?;
    let text = tallies_text(alloc, &tallies)?;
    Ok(text)
}

/// What is kept of each pad in the samples.
fn tallies_of(alloc: Global, samples: &[Sample]) -> Result<BTreeMap<u32, Tally>, NoMemory>
    ensures { IfOk result (λ tallies. HasTallies tallies samples.now) }
{
    let mut tallies = BTreeMap::new(alloc);
    for sample in samples {
        count_sample(&mut tallies, *sample)?;
    }
    Ok(tallies)
}

/// The lines of all pads.
fn tallies_text(alloc: Global, tallies: &BTreeMap<u32, Tally>) -> Result<Vec<u8>, NoMemory>
    ensures lines { IfOk result (λ text. text.items ≡ flat_map tally_line tallies.now.entries) }
    ensures found { OnOk result (All (λ e. get nat_cmp tallies.now e.0 ≡ Some e.1) tallies.now.entries) }
{
    let mut text = Vec::new(alloc);
    for (pad, tally) in tallies {
        push_line(*pad, tally.count, &mut text)?;
    }
    Ok(text)
}

/// Counts one more sample.
fn count_sample(tallies: &mut BTreeMap<u32, Tally>, sample: Sample) -> Result<(), NoMemory>
    requires { (pad : ℕ) → IfSome (get nat_cmp tallies.old pad) (λ tally. tally.count < 2 ^ 64 - 1) }
    ensures { (samples : List Sample) → HasTallies tallies.old samples → OnOk result (HasTallies tallies.new (samples ++ sample ∷ [])) }
{
    let before = tallies.get(&sample.pad).copied();
    tallies.insert(sample.pad, next_tally(before, sample.value))?;
    Ok(())
}

/// What is kept of a pad after one more level.
fn next_tally(before: Option<Tally>, level: Level) -> Tally
    requires { IfSome before (λ tally. tally.count < 2 ^ 64 - 1) }
    ensures { result ≡ next_tally before level }
{
    match before {
        Some(tally) if tally.last != level => Tally {
            last: level,
            count: tally.count + 1,
        },
        Some(tally) => tally,
        None => Tally {
            last: level,
            count: 0,
        },
    }
}

/// Adds the line of a pad.
fn push_line(pad: u32, count: u64, text: &mut Vec<u8>) -> Result<(), NoMemory>
    ensures { OnOk result (text.new.items ≡ text.old.items ++ toggles_line pad count) }
{
    push_numbered(b"toggles ", u64::from(pad), text)?;
    push_numbered(b" ", count, text)?;
    text.push(b'\n')?;
    Ok(())
}
