// The states of an automaton, and the symbols on which they go on.

ghost use Rattle.std.specs.Prelude.{◌≡◌, ◌≤◌, ◌^◌, ◌==◌, ◌++◌, length, map, slice_index_or, All, IfOk, OnOk};
ghost use Rattle.std.specs.List.{list_any};
ghost use Rattle.position_nfa.specs.Automaton.{AreBelow, next_of, mask_of};
ghost use Rattle.position_nfa.specs.Registers.{state_named, step_named, NamesPosition, step_at, steps_from, steps, marked_at, marked_states};

use crate::nfa::Nfa;
use rx_text::NoMemory;
use std::alloc::Global;

/// What was read last: nothing since the reset, nothing of a word that may begin at any time, or a position.
#[derive(Clone, Copy, Debug, PartialEq, Eq)]
pub enum State {
    Start,
    ScanStart,
    After(u32),
}

/// A state and a symbol on which it goes on.
#[derive(Clone, Copy, Debug, PartialEq, Eq)]
pub struct Step {
    pub state: State,
    pub symbol: u8,
}

/// The positions to which a state leads.
pub fn next_of(nfa: &Nfa, state: State) -> &[u32]
    requires { NamesPosition (length nfa.now.symbols) state }
    ensures next { result.now ≡ next_of nfa.now (state_named state) }
    ensures below { AreBelow (length nfa.now.symbols) result.now }
{
    match state {
        State::Start => nfa.first(),
        State::ScanStart => nfa.scan_first(),
        State::After(position) => nfa.follow()[position as usize].positions(),
    }
}

/// The mask of the outputs that are marked in a state.
pub fn mask_of(nfa: &Nfa, state: State) -> u16
    requires { NamesPosition (length nfa.now.symbols) state }
    ensures { result ≡ mask_of nfa.now (state_named state) }
{
    match state {
        State::Start => nfa.marked()[0],
        State::ScanStart => nfa.scan_marked(),
        State::After(position) => nfa.marked()[position as usize + 1],
    }
}

/// The states with those of so many symbols on which they go on.
pub fn steps(alloc: Global, nfa: &Nfa, symbols: u8) -> Result<Vec<Step>, NoMemory>
    requires { symbols ≤ 32 }
    ensures steps { IfOk result (λ made. map step_named made.items ≡ steps symbols nfa.now) }
    ensures few { IfOk result (λ made. length made.items ≤ 2 ^ 21) }
    ensures positions { IfOk result (λ made. All (λ step. NamesPosition (length nfa.now.symbols) step.state) made.items) }
{
    let mut steps = Vec::new(alloc);
    add_steps(&mut steps, nfa, symbols, State::Start)?;
    add_steps(&mut steps, nfa, symbols, State::ScanStart)?;
    for position in 0..nfa.symbols().len() as u32 {
        add_steps(&mut steps, nfa, symbols, State::After(position))?;
    }
    Ok(steps)
}

/// Adds the steps of one state.
fn add_steps(steps: &mut Vec<Step>, nfa: &Nfa, symbols: u8, state: State) -> Result<(), NoMemory>
    requires { NamesPosition (length nfa.now.symbols) state }
    ensures { OnOk result (map step_named steps.new.items ≡ map step_named steps.old.items ++ steps_from symbols nfa.now (state_named state)) }
{
    for symbol in 0..symbols {
        add_step(steps, nfa, state, symbol)?;
    }
    Ok(())
}

/// Adds the state with this symbol, if it goes on with it.
fn add_step(steps: &mut Vec<Step>, nfa: &Nfa, state: State, symbol: u8) -> Result<(), NoMemory>
    requires { NamesPosition (length nfa.now.symbols) state }
    ensures { OnOk result (map step_named steps.new.items ≡ map step_named steps.old.items ++ step_at nfa.now (state_named state) symbol) }
{
    if occurs(nfa.symbols(), next_of(nfa, state), symbol) {
        steps.push(Step { state, symbol })?;
    }
    Ok(())
}

/// Some position of the list has the symbol.
fn occurs(symbols: &[u8], positions: &[u32], symbol: u8) -> bool
    requires { AreBelow (length symbols.now) positions.now }
    ensures { result ≡ list_any (λ q. slice_index_or symbols.now q 0 == symbol) positions.now }
{
    positions
        .iter()
        .any(|position| symbols[*position as usize] == symbol)
}

/// The states in which an output is marked.
pub fn marked_states(alloc: Global, nfa: &Nfa) -> Result<Vec<State>, NoMemory>
    ensures states { IfOk result (λ made. map state_named made.items ≡ marked_states nfa.now) }
    ensures few { IfOk result (λ made. length made.items ≤ 2 ^ 21) }
    ensures positions { IfOk result (λ made. All (NamesPosition (length nfa.now.symbols)) made.items) }
{
    let mut states = Vec::new(alloc);
    add_marked(&mut states, nfa, State::Start)?;
    add_marked(&mut states, nfa, State::ScanStart)?;
    for position in 0..nfa.symbols().len() as u32 {
        add_marked(&mut states, nfa, State::After(position))?;
    }
    Ok(states)
}

/// Adds the state, if an output is marked in it.
fn add_marked(states: &mut Vec<State>, nfa: &Nfa, state: State) -> Result<(), NoMemory>
    requires { NamesPosition (length nfa.now.symbols) state }
    ensures { OnOk result (map state_named states.new.items ≡ map state_named states.old.items ++ marked_at nfa.now (state_named state)) }
{
    if mask_of(nfa, state) != 0 {
        states.push(state)?;
    }
    Ok(())
}
