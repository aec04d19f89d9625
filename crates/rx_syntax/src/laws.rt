//! Laws of tokens, of first faults and of acceptance.

ghost use Rattle.std.specs.Prelude.{◌≡◌, ◌⊎◌, ◌≤◌, ℕ, true, length, List, All};
ghost use Rattle.rx_syntax.specs.Lexemes.{Lexeme, TokensOf};
ghost use Rattle.rx_syntax.specs.Refusals.{StandsFirst, IsShaped};
ghost use Rattle.rx_syntax.specs.Accepted.{Accepted, Refused};
ghost use Rattle.rx_syntax.specs.Printed.{printed};
ghost use Rattle.rx_syntax.specs.Printable.{IsPrintable};
ghost use Rattle.rx_syntax.specs.SpecRefusal.{SpecRefusal};
ghost use Rattle.rx_text.specs.Name.{is_name};
ghost use Rattle.rx_text.specs.declared.place.Place.{Place};
ghost use Rattle.rx_lang.specs.Positions.{occurrence_symbols};
ghost use Rattle.rx_lang.specs.Specification.{Specification};
ghost use Rattle.rx_lang.specs.Tables.{Tables, specification};
ghost use Rattle.rx_syntax.specs.declared.spec_code.SpecCode.{SpecCode};

use rx_lang::laws::trees_are_made_of_their_children;

/// Every text has exactly one list of tokens with kinds and places, by the one version that it is of.
pub fn texts_have_tokens_with_places()
    ensures some { (text : List ℕ) → (tokens : List Lexeme) × TokensOf text tokens }
    ensures one { (text : List ℕ) (some others : List Lexeme) → TokensOf text some → TokensOf text others → some ≡ others }
{}

/// Every text has the shape of a specification, or it has a first fault; never both, and never two first faults.
pub fn texts_are_shaped_or_have_one_first_fault()
    ensures either { (text : List ℕ) → IsShaped text ⊎ ((code : SpecCode) × (place : ℕ) × StandsFirst text code place) }
    ensures exclusive { (text : List ℕ) (code : SpecCode) (place : ℕ) → IsShaped text → StandsFirst text code place → ⊥ }
    ensures one { (text : List ℕ) (code other : SpecCode) (place elsewhere : ℕ)
        → StandsFirst text code place → StandsFirst text other elsewhere → (code ≡ other) × (place ≡ elsewhere) }
{}

/// Every text is accepted as one specification or refused with one code at one place, and never both.
pub fn texts_are_accepted_or_refused()
    ensures either { (text : List ℕ) (limit : ℕ)
        → ((spec : Specification) × Accepted text limit spec) ⊎ ((code : SpecCode) × (place : ℕ) × Refused text limit code place) }
    ensures exclusive { (text : List ℕ) (limit : ℕ) (spec : Specification) (code : SpecCode) (place : ℕ)
        → Accepted text limit spec → Refused text limit code place → ⊥ }
    ensures one_specification { (text : List ℕ) (limit other : ℕ) (some others : Specification)
        → Accepted text limit some → Accepted text other others → some ≡ others }
    ensures one_refusal { (text : List ℕ) (limit : ℕ) (code other : SpecCode) (place elsewhere : ℕ)
        → Refused text limit code place → Refused text limit other elsewhere → (code ≡ other) × (place ≡ elsewhere) }
{}

/// Every text is accepted as a specification or refused with one code at one line and column, and never both.
pub fn texts_are_accepted_or_refused_at_a_place()
    ensures either { (text : List ℕ) (limit : ℕ)
        → ((spec : Specification) × Accepted text limit spec) ⊎ ((code : SpecCode) × (place : Place) × SpecRefusal text limit code place) }
    ensures exclusive { (text : List ℕ) (limit : ℕ) (spec : Specification) (code : SpecCode) (place : Place)
        → Accepted text limit spec → SpecRefusal text limit code place → ⊥ }
    ensures one_refusal { (text : List ℕ) (limit : ℕ) (code other : SpecCode) (place elsewhere : Place)
        → SpecRefusal text limit code place → SpecRefusal text limit other elsewhere → (code ≡ other) × (place ≡ elsewhere) }
{}

/// The text that an accepted specification is printed as is accepted as the same specification.
pub fn printed_texts_are_read_back()
    ensures { (text : List ℕ) (limit : ℕ) (spec : Specification) → Accepted text limit spec → Accepted (printed spec) limit spec }
{}

/// The text that a specification is printed as is accepted as that specification, with any bound on symbols that it keeps, where
/// its names are names of the version of the text, and at most 200 parentheses are open at once.
pub fn printed_specifications_are_accepted()
    ensures { (limit : ℕ) (tables : Tables) → IsPrintable limit tables → Accepted (printed (specification tables)) limit (specification tables) }
{
    trees_are_made_of_their_children();
}

/// The lines and outputs of an accepted specification bear names of the language.
pub fn accepted_names_are_names()
    ensures lines { (text : List ℕ) (limit : ℕ) (spec : Specification) → Accepted text limit spec → All (λ name. is_name name ≡ true) spec.lines }
    ensures outputs { (text : List ℕ) (limit : ℕ) (spec : Specification) → Accepted text limit spec → All (λ name. is_name name ≡ true) spec.outputs }
{}

/// An accepted specification has no more symbols in its expressions, copies under counted repeats among them, than its limit.
pub fn accepted_specifications_have_few_symbols()
    ensures { (text : List ℕ) (limit : ℕ) (spec : Specification) → Accepted text limit spec → length (occurrence_symbols spec) ≤ limit }
{}
