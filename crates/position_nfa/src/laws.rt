//! Laws of position automata. Each is the contract of a function that does nothing.

ghost use Rattle.std.specs.Prelude.{◌<◌, All, ◌↔◌, ℕ, List, length};
ghost use Rattle.rx_lang.specs.Positions.{HasTerms};
ghost use Rattle.rx_lang.specs.Specification.{Language, Specification};
ghost use Rattle.rx_lang.specs.Tables.{IsSpecification, Tables, specification};
ghost use Rattle.rx_lang.specs.Vector.{Bits};
ghost use Rattle.position_nfa.specs.Agreement.{IsAutomatonOf};
ghost use Rattle.position_nfa.specs.Automaton.{Automaton, IsAutomaton};
ghost use Rattle.position_nfa.specs.Reached.{IsReadByPairs};
ghost use Rattle.position_nfa.specs.Registers.{registers_of};
ghost use Rattle.position_nfa.specs.Runs.{ShowsByStates};
ghost use Rattle.position_nfa.specs.Terms.{term_count};

use rx_lang::laws::{copies_mean_their_repeats, trees_are_made_of_their_children};

/// The terms of a specification's automaton are those of the specification: as many as it has states and symbols on which they go
/// on, and states in which a word is marked.
pub fn terms_are_those_of_the_specification()
    ensures { (spec : Specification) (nfa : Automaton) → IsAutomaton nfa → All (λ s. s < 256) nfa.symbols → IsAutomatonOf spec nfa
        → HasTerms spec (term_count nfa) }
{}

/// The registers of a specification's automaton have one gate for each of the specification's terms.
pub fn registers_have_the_terms()
    ensures { (nfa : Automaton) (tables : Tables) → IsAutomaton nfa → IsSpecification tables → IsAutomatonOf (specification tables) nfa
        → HasTerms (specification tables) (length (registers_of nfa tables).terms) }
{
    trees_are_made_of_their_children();
}

/// The states of a specification are reached one from another by pairs of occurrences, and the language of an output is what
/// leads to the states that show it (Glushkov, 1961).
pub fn specifications_are_read_by_pairs()
    ensures { (tables : Tables) → IsSpecification tables → IsReadByPairs (specification tables) }
{
    copies_mean_their_repeats();
    trees_are_made_of_their_children();
}

/// The automaton of a specification shows by its states the languages of the outputs.
pub fn automata_show_the_languages()
    ensures { (tables : Tables) (nfa : Automaton) → IsSpecification tables → IsAutomatonOf (specification tables) nfa
        → (y : ℕ) (u : List Bits) → ShowsByStates nfa tables.symbols y u ↔ Language (specification tables) y u }
{
    specifications_are_read_by_pairs();
}
