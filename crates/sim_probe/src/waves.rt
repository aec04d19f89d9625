// The probe that writes a value change dump.

ghost use Rattle.std.specs.Prelude.{◌≡◌, ◌++◌, ◌∷◌, [], true, false, if◌then◌else◌, List, Some, IfOk, OnOk, codes};
ghost use Rattle.std.specs.List.{flat_map};
ghost use Rattle.std.specs.BTreeMap.{keys};
ghost use Rattle.sim_probe.specs.Levels.{is_same_clock, is_change};
ghost use Rattle.sim_probe.specs.WavesText.{waves_manner, waves_text, pad_line, time_line, change_line, change_lines, end_line};
ghost use Rattle.sim_probe.specs.Changing.{Follows, all_lines};
ghost use Rattle.sim_probe.specs.declared.sample.Sample.{Sample};

use crate::lines::{push_level, push_numbered, push_time};
use crate::{NoMemory, Probe, Sample, Verdict};
use rx_text::Role;
use std::alloc::Global;
use std::collections::BTreeMap;
use std::marker::Model;
use switch_net::Level;

/// A probe of kind 2 that wants the input lines and the outputs, and writes when their levels change, as a value change dump
/// that wave viewers open.
///
/// It keeps all samples that it was told, and never has enough. Its text has for each pad K in them, in ascending order, the
/// line `$var wire 1 pK pK $end`; then the line `$enddefinitions $end`; then a line with the level, `0`, `1` or `x`, and `pK`
/// for each sample that is the first of its pad or changes its level, with the line `#T` before the first such line at a
/// clock T; and at the end, where there are samples, the line `#T` with the clock behind the last.
#[derive(Drop)]
pub struct Waves {
    samples: Vec<Sample>,
}

impl Model for Waves {
    ghost use Rattle.std.specs.Prelude.{List};
    ghost use Rattle.sim_probe.specs.declared.sample.Sample.{Sample};

    ghost Value = { List Sample };

    ghost view = { λ w. w.samples.items };
}

impl Waves {
    /// A `Waves` that was told nothing. Takes no memory.
    pub fn new(alloc: Global) -> Waves
        ensures { result ≡ [] }
    {
        Waves {
            samples: Vec::new(alloc),
        }
    }
}

impl Probe for Waves {
    ghost seen = { λ w. w };

    ghost manner = { λ _. waves_manner };

    fn kind(&self) -> u32 {
        2
    }

    fn wants(&self, _pad: u32, role: Role) -> bool {
        matches!(role, Role::Input | Role::Output)
    }

    fn see(&mut self, at: u32, pad: u32, value: Level) -> Result<Verdict, NoMemory> {
        self.samples.push(Sample { at, pad, value })?;
        Ok(Verdict::More)
    }

    fn text(&self, alloc: Global) -> Result<Vec<u8>, NoMemory> {
        waves_text(alloc, &self.samples)
    }
}

/// The lines of changes so far.
#[derive(Drop)]
struct Changes {
    /// The last level of each pad.
    lasts: BTreeMap<u32, Level>,
    /// The clock of the last sample.
    clock: Option<u32>,
    /// Whether a line has been written since the clock last changed.
    timed: bool,
    lines: Vec<u8>,
}

impl Changes {
    /// Tells one more sample.
    fn add(&mut self, sample: Sample) -> Result<(), NoMemory>
        ensures follows { (before : List Sample) → Follows self.old before → OnOk result (Follows self.new (before ++ sample ∷ [])) }
        ensures lines { (before more : List Sample) → Follows self.old before
            → OnOk result (all_lines self.new (before ++ sample ∷ []) more ≡ all_lines self.old before (sample ∷ more)) }
    {
        self.timed = self.timed && is_same_clock(self.clock, sample.at);
        self.clock = Some(sample.at);
        let last = self.lasts.insert(sample.pad, sample.value)?;
        if is_change(last, sample.value) {
            self.push(sample)?;
        }
        Ok(())
    }

    /// Adds the line of the sample.
    fn push(&mut self, sample: Sample) -> Result<(), NoMemory>
        ensures lines { OnOk result (self.new.lines.items
            ≡ self.old.lines.items ++ (if self.old.timed then [] else time_line sample.at) ++ change_line sample) }
        ensures timed { OnOk result (self.new.timed ≡ true) }
        ensures lasts { self.new.lasts ≡ self.old.lasts }
        ensures clock { self.new.clock ≡ self.old.clock }
    {
        if !self.timed {
            push_time(u64::from(sample.at), &mut self.lines)?;
            self.timed = true;
        }
        push_level(sample.value, &mut self.lines)?;
        push_numbered(b"p", u64::from(sample.pad), &mut self.lines)?;
        self.lines.push(b'\n')?;
        Ok(())
    }
}

/// Whether the clock is this one.
fn is_same_clock(clock: Option<u32>, at: u32) -> bool
    ensures { result ≡ is_same_clock clock (Some at) }
{
    match clock {
        Some(clock) => clock == at,
        None => false,
    }
}

/// Whether there is no last level, or this is another.
fn is_change(last: Option<Level>, level: Level) -> bool
    ensures { result ≡ is_change last level }
{
    match last {
        Some(last) => last != level,
        None => true,
    }
}

/// The value change dump of the samples.
fn waves_text(alloc: Global, samples: &[Sample]) -> Result<Vec<u8>, NoMemory>
    ensures { IfOk result (λ text. text.items ≡ waves_text samples.now) }
{
    let changes = changes_of(alloc, samples)?;
    let text = dump_text(alloc, &changes)?;
    Ok(text)
}

/// The lines of changes of the samples.
fn changes_of(alloc: Global, samples: &[Sample]) -> Result<Changes, NoMemory>
    ensures follows { IfOk result (λ changes. Follows changes samples.now) }
    ensures lines { IfOk result (λ changes. changes.lines.items ≡ change_lines [] false samples.now) }
{
    let mut changes = Changes {
        lasts: BTreeMap::new(alloc),
        clock: None,
        timed: false,
        lines: Vec::new(alloc),
    };
    for sample in samples {
        changes.add(*sample)?;
    }
    Ok(changes)
}

/// The whole text, with these lines of changes.
fn dump_text(alloc: Global, changes: &Changes) -> Result<Vec<u8>, NoMemory>
    ensures { IfOk result (λ text. text.items
        ≡ flat_map pad_line (keys changes.now.lasts) ++ codes "$enddefinitions $end\n" ++ changes.now.lines.items ++ end_line changes.now.clock) }
{
    let mut text = pads_text(alloc, &changes.lasts)?;
    text.extend_from_slice(b"$enddefinitions $end\n")?;
    text.extend_from_slice(&changes.lines)?;
    push_end(changes.clock, &mut text)?;
    Ok(text)
}

/// The lines of the pads.
fn pads_text(alloc: Global, lasts: &BTreeMap<u32, Level>) -> Result<Vec<u8>, NoMemory>
    ensures { IfOk result (λ text. text.items ≡ flat_map pad_line (keys lasts.now)) }
{
    let mut text = Vec::new(alloc);
    for pad in lasts.keys() {
        push_pad(*pad, &mut text)?;
    }
    Ok(text)
}

/// Adds the time behind the last clock.
fn push_end(clock: Option<u32>, text: &mut Vec<u8>) -> Result<(), NoMemory>
    ensures { OnOk result (text.new.items ≡ text.old.items ++ end_line clock) }
{
    match clock {
        Some(clock) => push_time(u64::from(clock) + 1, text),
        None => Ok(()),
    }
}

/// Adds the line of a pad.
fn push_pad(pad: u32, text: &mut Vec<u8>) -> Result<(), NoMemory>
    ensures { OnOk result (text.new.items ≡ text.old.items ++ pad_line pad) }
{
    push_numbered(b"$var wire 1 p", u64::from(pad), text)?;
    push_numbered(b" p", u64::from(pad), text)?;
    text.extend_from_slice(b" $end\n")?;
    Ok(())
}
