// Traces: the vectors that drive the input pads, clock by clock.

ghost use Rattle.std.specs.Prelude.{◌≡◌, ◌<◌, ◌≤◌, ◌+◌, ◌-◌, ◌++◌, ◌==◌, ◌^◌, ◌∷◌, None, Some, [], length, drop, take, map, IfOk, IfErr, IfSome, OnOk, IsTrue, slice_index_or};
ghost use Rattle.std.specs.List.{prefix_len};
ghost use Rattle.rx_text.specs.TextPlace.{is_line_feed, place_behind};
ghost use Rattle.switch_sim.specs.TraceTexts.{IsTrace, is_bit, is_chip, line_fault, no_chip, lines_of, first_fault, trace_fault};
ghost use Rattle.switch_sim.specs.TraceCuts.{cut, AreEnds};
ghost use Rattle.switch_sim.specs.TraceReading.{start_from};
ghost use Rattle.switch_sim.specs.TraceReading.{TakesVector};
ghost use Rattle.switch_sim.specs.TraceReading.{bits_in, LineAt, ended_line, not_line_feed};
ghost use Rattle.switch_sim.specs.TraceTexts.{IsRefused};

use crate::trace_code::{ReadTraceFault, TraceCode, TraceFault, TraceSpot};
use rx_text::{NoMemory, place_at};
use std::alloc::Global;
use std::marker::Model;

/// The most vectors of a trace.
const MOST_VECTORS: usize = 10_000;

/// The line behind which the chip begins.
const CHIP: &[u8] = b"chip";

/// The vectors that drive the input pads, one for each clock: at most 10,000. A vector's bits are those of `bits` from the end of the
/// vector before it, or from 0, up to its own entry of `ends`. The ends never fall, and the last is the number of `bits`.
#[derive(Drop)]
pub struct Trace {
    /// The bits of all vectors, one vector after another.
    pub bits: Vec<bool>,
    /// For each vector the number of bits up to its end.
    pub ends: Vec<usize>,
}

impl Model for Trace {
    ghost use Rattle.std.specs.Prelude.{Bool, List};
    ghost use Rattle.switch_sim.specs.TraceCuts.{cut, IsKept};

    ghost Value = { List (List Bool) };

    ghost view = { λ t. cut 0 t.ends.items t.bits.items };

    ghost invariant = { λ t. IsKept t.ends.items t.bits.items };
}

impl Trace {
    /// How many vectors there are.
    pub fn len(&self) -> usize
        ensures count { result ≡ length self.now }
        ensures few { result ≤ 10000 }
    {
        let ends: &[usize] = &self.ends;
        ends.len()
    }

    /// The vector of this number, from 0.
    pub fn vector(&self, at: usize) -> &[bool]
        requires { at < length self.now }
        ensures { result.now ≡ slice_index_or self.now at [] }
    {
        slice_between(&self.bits, &self.ends, at)
    }
}

/// The bits of the vector of this number.
fn slice_between<'a>(bits: &'a [bool], ends: &[usize], at: usize) -> &'a [bool]
    requires within { at < length ends.now }
    requires ends { AreEnds 0 ends.now bits.now }
    ensures { result.now ≡ slice_index_or (cut 0 ends.now bits.now) at [] }
{
    let start = start_of(ends, at);
    let end = ends[at];
    &bits[start..end]
}

/// Where the vector of this number begins.
fn start_of(ends: &[usize], at: usize) -> usize
    requires { at < length ends.now }
    ensures { result ≡ start_from 0 ends.now at }
{
    if at == 0 { 0 } else { ends[at - 1] }
}

/// What the first line of a text is: the line before the chip, or a vector of this many bits.
#[derive(Clone, Copy)]
pub(crate) enum Line {
    Chip,
    Vector { width: usize },
}

/// Reads the trace at the front of a text, a line of `0` and `1` for each vector and then the line `chip`, and answers it
/// with the place behind it.
///
/// # Errors
///
/// `Fault` exactly where the text does not begin with a trace, with the first fault in the text: V1, V3 or
/// V4, at one place the first of these. `NoMemory` where an allocation was refused.
pub fn read_trace(alloc: Global, text: &[u8]) -> Result<(Trace, usize), ReadTraceFault>
    requires { length text.now < 2 ^ 32 - 1 }
    ensures read { IfOk result (λ read. IsTrace text.now read.0 read.1) }
    ensures accepted { OnOk result (trace_fault text.now ≡ None) }
    ensures refused { IfErr result (IsRefused text.now) }
{
    let mut bits = Vec::new(alloc);
    let mut ends = Vec::new(alloc);
    let mut at = 0;
    loop {
        let (_, rest) = text.split_at(at);
        match first_line(rest, at, count_of(&ends)) {
            Err(spot) => return Err(fault(text, spot)),
            Ok(Line::Chip) => return Ok((Trace { bits, ends }, at + CHIP.len() + 1)),
            Ok(Line::Vector { width }) => {
                push_vector(&rest[..width], &mut bits, &mut ends)?;
                at += width + 1;
            }
        }
    }
}

/// How many vectors there are.
fn count_of(ends: &[usize]) -> usize
    ensures { result ≡ length ends.now }
{
    ends.len()
}

/// Adds the vector of a line.
fn push_vector(line: &[u8], bits: &mut Vec<bool>, ends: &mut Vec<usize>) -> Result<(), NoMemory>
    requires { AreEnds 0 ends.old.items bits.old.items }
    ensures { OnOk result (TakesVector ends.old.items bits.old.items ends.new.items bits.new.items
        (bits_in line.now)) }
{
    push_bits(line, bits)?;
    push_end(count_of_bits(bits), ends)
}

/// How many bits there are.
fn count_of_bits(bits: &[bool]) -> usize
    ensures { result ≡ length bits.now }
{
    bits.len()
}

/// The fault with its line and column.
fn fault(text: &[u8], spot: TraceSpot) -> ReadTraceFault
    requires within { spot.at ≤ length text.now }
    requires few_bytes { length text.now < 2 ^ 32 - 1 }
    ensures { trace_fault text.now ≡ Some spot → IsRefused text.now result }
{
    ReadTraceFault::Fault(TraceFault {
        code: spot.code,
        place: place_at(text, spot.at),
    })
}

/// What the first line of the rest of a text is, where so many lines stand before it and it begins at this place.
fn first_line(rest: &[u8], at: usize, count: usize) -> Result<Line, TraceSpot>
    requires fits { at + length rest.now < 2 ^ 32 - 1 }
    ensures line { IfOk result (LineAt rest.now at count) }
    ensures fault { IfErr result (λ spot. first_fault count at (lines_of rest.now) ≡ Some spot) }
    ensures within { IfErr result (λ spot. spot.at ≤ at + length rest.now) }
{
    let width = line_length(rest);
    if width == rest.len() {
        Err(last_fault(rest, at, count))
    } else {
        ended_line(&rest[..width], at, count)
    }
}

/// What a line is that a line feed ends.
fn ended_line(line: &[u8], at: usize, count: usize) -> Result<Line, TraceSpot>
    requires fits { at + length line.now < 2 ^ 32 }
    ensures line { result ≡ ended_line count at line.now }
    ensures within { IfErr result (λ spot. spot.at ≤ at + length line.now) }
{
    if is_chip(line) {
        return Ok(Line::Chip);
    }
    match line_fault(line, at, count) {
        Some(spot) => Err(spot),
        None => Ok(Line::Vector { width: line.len() }),
    }
}

/// The first fault of what follows the last line feed.
fn last_fault(line: &[u8], at: usize, count: usize) -> TraceSpot
    requires fits { at + length line.now < 2 ^ 32 }
    ensures fault { Some result ≡ first_fault count at (line.now ∷ []) }
    ensures within { result.at ≤ at + length line.now }
{
    let end = no_chip(at + line.len());
    if line.is_empty() || is_chip(line) {
        return end;
    }
    match line_fault(line, at, count) {
        Some(spot) => spot,
        None => end,
    }
}

/// The input ends at this place.
fn no_chip(at: usize) -> TraceSpot
    ensures { Some result ≡ no_chip at }
{
    TraceSpot {
        code: TraceCode::V4,
        at,
    }
}

/// How many bytes stand before the first line feed, or in all.
fn line_length(rest: &[u8]) -> usize
    ensures count { result ≡ prefix_len not_line_feed rest.now }
    ensures within { result ≤ length rest.now }
{
    rest.iter().take_while(|byte| **byte != b'\n').count()
}

fn is_chip(line: &[u8]) -> bool
    ensures { result ≡ is_chip line.now }
{
    line == CHIP
}

/// The first fault of a line that is not `chip`, which begins at this place behind so many others.
fn line_fault(line: &[u8], at: usize, count: usize) -> Option<TraceSpot>
    requires fits { at + length line.now < 2 ^ 32 }
    ensures fault { result ≡ line_fault count at line.now }
    ensures within { IfSome result (λ spot. spot.at ≤ at + length line.now) }
{
    let good = bit_count(line);
    if good == 0 {
        return Some(TraceSpot {
            code: TraceCode::V1,
            at,
        });
    }
    if count >= MOST_VECTORS {
        return Some(TraceSpot {
            code: TraceCode::V3,
            at,
        });
    }
    if good < line.len() {
        return Some(TraceSpot {
            code: TraceCode::V1,
            at: at + good,
        });
    }
    None
}

/// How many bytes at the front of the line are bits.
fn bit_count(line: &[u8]) -> usize
    ensures count { result ≡ prefix_len is_bit line.now }
    ensures within { result ≤ length line.now }
{
    line.iter().take_while(|byte| is_bit(**byte)).count()
}

fn is_bit(byte: u8) -> bool
    ensures { result ≡ is_bit byte }
{
    byte == b'0' || byte == b'1'
}

/// Adds the bits of a line.
fn push_bits(line: &[u8], bits: &mut Vec<bool>) -> Result<(), NoMemory>
    ensures { OnOk result (bits.new.items ≡ bits.old.items ++ bits_in line.now) }
{
    for byte in line {
        bits.push(*byte == b'1')?;
    }
    Ok(())
}

/// Adds the end of a vector.
fn push_end(end: usize, ends: &mut Vec<usize>) -> Result<(), NoMemory>
    ensures { OnOk result (ends.new.items ≡ ends.old.items ++ end ∷ []) }
{
    ends.push(end)?;
    Ok(())
}
