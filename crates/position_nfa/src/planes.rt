// The planes of an automaton's registers: their terms and sums.

ghost use Rattle.std.specs.Prelude.{◌≡◌, ◌<◌, ◌≤◌, ◌^◌, ◌==◌, ◌+◌, ◌++◌, [], ◌∷◌, length, map, flat_map, if◌then◌else◌, All, IfOk, OnOk};
ghost use Rattle.std.specs.List.{range_with_len, list_any};
ghost use Rattle.position_nfa.specs.Automaton.{has_output};
ghost use Rattle.position_nfa.specs.Registers.{AreFew, state_named, step_named, NamesPosition, state_inputs, literal, literals, step_inputs, term_gates, mark_gate, leads_to, feeding_term, marking_term, shared_gate, sum_gates};

use crate::array_nets::ArrayCounts;
use crate::nfa::Nfa;
use crate::steps::{State, Step, mask_of, next_of};
use nor_net::Gate;
use rx_lang::{PatternBit, Symbol};
use rx_text::NoMemory;
use std::alloc::Global;

/// Adds a term for each step, and then one for each state in which an output is marked.
pub fn add_terms(
    alloc: Global,
    gates: &mut Vec<Gate>,
    counts: ArrayCounts,
    symbols: &[Symbol],
    steps: &[Step],
    marked: &[State],
) -> Result<(), NoMemory>
    requires few { AreFew counts }
    requires few_steps { length steps.now ≤ 2 ^ 21 }
    requires few_marked { length marked.now ≤ 2 ^ 21 }
    requires narrow { All (λ symbol. length symbol.pattern ≤ 16) symbols.now }
    requires step_positions { All (λ step. NamesPosition counts.positions step.state) steps.now }
    requires marked_positions { All (NamesPosition counts.positions) marked.now }
    ensures { OnOk result (gates.new.items ≡ gates.old.items
        ++ term_gates counts symbols.now (map step_named steps.now) (map state_named marked.now)) }
{
    for k in 0..steps.len() as u32 {
        let inputs = step_inputs(alloc, counts, symbols, steps[k as usize])?;
        gates.push(Gate::new(counts.term_net(k), inputs))?;
    }
    add_mark_terms(alloc, gates, counts, steps.len() as u32, marked)
}

/// Adds a term for each state in which an output is marked, numbered from this number on.
fn add_mark_terms(
    alloc: Global,
    gates: &mut Vec<Gate>,
    counts: ArrayCounts,
    from: u32,
    marked: &[State],
) -> Result<(), NoMemory>
    requires few { AreFew counts }
    requires few_steps { from ≤ 2 ^ 21 }
    requires few_marked { length marked.now ≤ 2 ^ 21 }
    requires positions { All (NamesPosition counts.positions) marked.now }
    ensures { OnOk result (gates.new.items ≡ gates.old.items
        ++ map (mark_gate counts from (map state_named marked.now)) (range_with_len 0 (length marked.now))) }
{
    for k in 0..marked.len() as u32 {
        let mut inputs = Vec::new(alloc);
        add_state_inputs(&mut inputs, counts, marked[k as usize])?;
        gates.push(Gate::new(counts.term_net(from + k), inputs))?;
    }
    Ok(())
}

/// The inputs of a step's term: the complement of its state, the reset, and what is high where the lines do not match its
/// symbol.
fn step_inputs(
    alloc: Global,
    counts: ArrayCounts,
    symbols: &[Symbol],
    step: Step,
) -> Result<Vec<u32>, NoMemory>
    requires few { AreFew counts }
    requires narrow { All (λ symbol. length symbol.pattern ≤ 16) symbols.now }
    requires position { NamesPosition counts.positions step.state }
    ensures { IfOk result (λ inputs. inputs.items ≡ step_inputs counts symbols.now (step_named step)) }
{
    let mut inputs = Vec::new(alloc);
    add_state_inputs(&mut inputs, counts, step.state)?;
    inputs.push(counts.reset_net())?;
    if let Some(symbol) = symbols.get(step.symbol as usize) {
        add_literals(&mut inputs, counts, symbol.pattern.as_slice())?;
    }
    Ok(inputs)
}

/// Adds the complement of the state; in the scan start a word may begin at any time.
fn add_state_inputs(
    inputs: &mut Vec<u32>,
    counts: ArrayCounts,
    state: State,
) -> Result<(), NoMemory>
    requires few { AreFew counts }
    requires position { NamesPosition counts.positions state }
    ensures { OnOk result (inputs.new.items ≡ inputs.old.items ++ state_inputs counts (state_named state)) }
{
    match state {
        State::Start => inputs.push(counts.start_net())?,
        State::ScanStart => {}
        State::After(position) => inputs.push(counts.state_net(position))?,
    }
    Ok(())
}

/// Adds what is high where a line does not have the bit that the pattern asks for.
fn add_literals(
    inputs: &mut Vec<u32>,
    counts: ArrayCounts,
    pattern: &[PatternBit],
) -> Result<(), NoMemory>
    requires few { AreFew counts }
    requires narrow { length pattern.now ≤ 16 }
    ensures { OnOk result (inputs.new.items ≡ inputs.old.items ++ literals counts pattern.now) }
{
    for line in 0..pattern.len() as u32 {
        add_literal(inputs, counts, line, pattern[line as usize])?;
    }
    Ok(())
}

/// Adds what is high where the line does not have the bit that this place of a pattern asks for.
fn add_literal(
    inputs: &mut Vec<u32>,
    counts: ArrayCounts,
    line: u32,
    place: PatternBit,
) -> Result<(), NoMemory>
    requires few { AreFew counts }
    requires line { line < 16 }
    ensures { OnOk result (inputs.new.items ≡ inputs.old.items ++ literal counts line place) }
{
    match place {
        PatternBit::Zero => inputs.push(counts.line_net(line))?,
        PatternBit::One => inputs.push(counts.complement_net(line))?,
        PatternBit::Any => {}
    }
    Ok(())
}

/// Adds the sum of each position, and then the complement of each output.
pub fn add_sums(
    alloc: Global,
    gates: &mut Vec<Gate>,
    counts: ArrayCounts,
    nfa: &Nfa,
    steps: &[Step],
    marked: &[State],
) -> Result<(), NoMemory>
    requires few { AreFew counts }
    requires counts { counts.positions ≡ length nfa.now.symbols }
    requires few_steps { length steps.now ≤ 2 ^ 21 }
    requires few_marked { length marked.now ≤ 2 ^ 21 }
    requires step_positions { All (λ step. NamesPosition counts.positions step.state) steps.now }
    requires marked_positions { All (NamesPosition counts.positions) marked.now }
    ensures { OnOk result (gates.new.items ≡ gates.old.items ++ sum_gates counts nfa.now (map step_named steps.now) (map state_named marked.now)) }
{
    for position in 0..counts.positions {
        let inputs = feeding_terms(alloc, counts, nfa, steps, position)?;
        gates.push(Gate::new(counts.sum_net(position), inputs))?;
    }
    add_shared(alloc, gates, counts, nfa, steps.len() as u32, marked)
}

/// The terms of the steps that lead to the position.
fn feeding_terms(
    alloc: Global,
    counts: ArrayCounts,
    nfa: &Nfa,
    steps: &[Step],
    position: u32,
) -> Result<Vec<u32>, NoMemory>
    requires few { AreFew counts }
    requires counts { counts.positions ≡ length nfa.now.symbols }
    requires few_steps { length steps.now ≤ 2 ^ 21 }
    requires positions { All (λ step. NamesPosition counts.positions step.state) steps.now }
    requires position { position < counts.positions }
    ensures { IfOk result (λ inputs. inputs.items
        ≡ flat_map (feeding_term counts nfa.now (map step_named steps.now) position) (range_with_len 0 (length steps.now))) }
{
    let mut inputs = Vec::new(alloc);
    for k in 0..steps.len() as u32 {
        let leads = leads_to(nfa, position, steps[k as usize]);
        add_if(&mut inputs, leads, counts.term_net(k))?;
    }
    Ok(inputs)
}

/// The step leads to the position.
fn leads_to(nfa: &Nfa, position: u32, step: Step) -> bool
    requires state { NamesPosition (length nfa.now.symbols) step.state }
    requires position { position < length nfa.now.symbols }
    ensures { result ≡ leads_to nfa.now position (step_named step) }
{
    nfa.symbols()[position as usize] == step.symbol && has(next_of(nfa, step.state), position)
}

/// The position is in the list.
fn has(positions: &[u32], position: u32) -> bool
    ensures { result ≡ list_any (λ q. q == position) positions.now }
{
    positions.iter().any(|q| *q == position)
}

/// Adds the complement of each output, where the terms of the marks are numbered from this number on.
fn add_shared(
    alloc: Global,
    gates: &mut Vec<Gate>,
    counts: ArrayCounts,
    nfa: &Nfa,
    from: u32,
    marked: &[State],
) -> Result<(), NoMemory>
    requires few { AreFew counts }
    requires counts { counts.positions ≡ length nfa.now.symbols }
    requires few_steps { from ≤ 2 ^ 21 }
    requires few_marked { length marked.now ≤ 2 ^ 21 }
    requires positions { All (NamesPosition counts.positions) marked.now }
    ensures { OnOk result (gates.new.items ≡ gates.old.items
        ++ map (shared_gate counts nfa.now from (map state_named marked.now)) (range_with_len 0 counts.outputs)) }
{
    for output in 0..counts.outputs {
        let inputs = marking_terms(alloc, counts, nfa, from, marked, output)?;
        gates.push(Gate::new(counts.shared_net(output), inputs))?;
    }
    Ok(())
}

/// The terms of the marks of the output.
fn marking_terms(
    alloc: Global,
    counts: ArrayCounts,
    nfa: &Nfa,
    from: u32,
    marked: &[State],
    output: u32,
) -> Result<Vec<u32>, NoMemory>
    requires few { AreFew counts }
    requires counts { counts.positions ≡ length nfa.now.symbols }
    requires few_steps { from ≤ 2 ^ 21 }
    requires few_marked { length marked.now ≤ 2 ^ 21 }
    requires positions { All (NamesPosition counts.positions) marked.now }
    requires output { output < 16 }
    ensures { IfOk result (λ inputs. inputs.items
        ≡ flat_map (marking_term counts nfa.now from (map state_named marked.now) output) (range_with_len 0 (length marked.now))) }
{
    let mut inputs = Vec::new(alloc);
    for k in 0..marked.len() as u32 {
        let marks = has_output(mask_of(nfa, marked[k as usize]), output);
        add_if(&mut inputs, marks, counts.term_net(from + k))?;
    }
    Ok(inputs)
}

/// The mask has the output.
fn has_output(mask: u16, output: u32) -> bool
    requires { output < 16 }
    ensures { result ≡ has_output mask output }
{
    mask >> output & 1 == 1
}

/// Adds the net, if it is to be added.
fn add_if(inputs: &mut Vec<u32>, adds: bool, net: u32) -> Result<(), NoMemory>
    ensures { OnOk result (inputs.new.items ≡ inputs.old.items ++ (if adds then net ∷ [] else [])) }
{
    if adds {
        inputs.push(net)?;
    }
    Ok(())
}
