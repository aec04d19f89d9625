//! Laws of the meaning of expressions. Each is the contract of a function that does nothing.
//! The letters are input vectors under any table of symbols, and the occurrences of symbols.

ghost use Rattle.std.specs.Prelude.{◌≡◌, ◌+◌, ◌*◌, ◌^◌, ℕ, List, [], ◌∷◌, map};
ghost use Rattle.rx_lang.specs.Squares.{side_bound};
ghost use Rattle.rx_lang.specs.Expression.{Expr};
ghost use Rattle.rx_lang.specs.Copies.{IsBounded, copied, occurrences};
ghost use Rattle.rx_lang.specs.Meaning.{Spells};
ghost use Rattle.rx_lang.specs.Specification.{NamedPattern, MatchesSymbol};
ghost use Rattle.rx_lang.specs.Tables.{IsSpecification, Tables, tree_at, trees};
ghost use Rattle.rx_lang.specs.Laws.{CopiesMean, LanguageIsDecided, ManyJoins, MatchingIsDecided, PlusSpells, SequenceMarks, StarMarksEmpty, TreesAreMade};

/// A vector matches a pattern or does not.
pub fn matching_is_decided()
    ensures { MatchingIsDecided }
{}

/// A word is in the language of an output or is not.
pub fn languages_are_decided()
    ensures { LanguageIsDecided }
{}

/// `E+` spells what `E E*` spells.
pub fn plus_is_once_and_any_number_of_times()
    ensures vectors { (symbols : List NamedPattern) → PlusSpells (MatchesSymbol symbols) }
    ensures occurrences { PlusSpells {X = ℕ} (λ s x. s ≡ x) }
{}

/// `E*` spells a word of `E` before one of `E*`, also an empty one, and two words of `E*` one after the other.
pub fn loops_take_further_words()
    ensures vectors { (symbols : List NamedPattern) (e : Expr) → ManyJoins (Spells (MatchesSymbol symbols) e) }
    ensures occurrences { (e : Expr) → ManyJoins (Spells {X = ℕ} (λ s x. s ≡ x) e) }
{}

/// A sequence marks where its first part is marked, and where its second part marks behind a word of the first.
pub fn sequences_mark_in_both_parts()
    ensures vectors { (symbols : List NamedPattern) → SequenceMarks (MatchesSymbol symbols) }
    ensures occurrences { SequenceMarks {X = ℕ} (λ s x. s ≡ x) }
{}

/// A loop over a marked expression marks the empty word exactly where the expression spells it or marks it within.
pub fn loops_mark_the_empty_word_of_their_expression()
    ensures vectors { (symbols : List NamedPattern) → StarMarksEmpty (MatchesSymbol symbols) }
    ensures occurrences { StarMarksEmpty {X = ℕ} (λ s x. s ≡ x) }
{}

/// Copies in place of counted repeats spell and mark the same words, and have the same occurrences in the same order.
pub fn copies_mean_their_repeats()
    ensures vectors { (symbols : List NamedPattern) (e : Expr) → IsBounded e → CopiesMean (MatchesSymbol symbols) e }
    ensures occurrences { (e : Expr) → IsBounded e → CopiesMean {X = ℕ} (λ s x. s ≡ x) e }
    ensures same { (e : Expr) → IsBounded e → occurrences (copied e) ≡ occurrences e }
{}

/// The tree of a node is made of the trees of its children, and where tables are those of a specification, each tree has
/// counted repeats within their bounds.
pub fn trees_are_made_of_their_children()
    ensures made { TreesAreMade }
    ensures bounded { (tables : Tables) (k : ℕ) → IsSpecification tables → IsBounded (tree_at (trees tables.nodes) k) }
{}

/// The bound of the sides of squares, written out for layouts of up to 4096 leaves. A square is two times two squares, between
/// which at most 6j edges run, at most three of them to light children; a light edge takes two rows, any other line is one an edge.
pub fn side_bounds_written_out()
    ensures few { map side_bound (0 ∷ 1 ∷ 2 ∷ 3 ∷ 4 ∷ 5 ∷ 6 ∷ 7 ∷ []) ≡ 1 ∷ 11 ∷ 37 ∷ 95 ∷ 217 ∷ 467 ∷ 973 ∷ 1991 ∷ [] }
    ensures four { (j : ℕ) → side_bound (j + 1) ≡ 2 * side_bound j + 6 * (j + 1) + 3 }
{}
