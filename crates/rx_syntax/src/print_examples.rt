//! Worked examples of printed texts. Each is the contract of a function that does nothing.

ghost use Rattle.std.specs.Prelude.{◌≡◌, ◌∷◌, ◌++◌, [], codes};
ghost use Rattle.rx_lang.specs.Examples.{last_symbol_marked, one_symbol, overlapping_symbols};
ghost use Rattle.rx_lang.specs.Expression.{marked, optional, plus, repeated, sequence, star, symbol, union};
ghost use Rattle.rx_syntax.specs.Printed.{expr_text, printed};
ghost use Rattle.rx_syntax.specs.PrintExamples.{text_of};

/// Whole specifications, a line for each statement.
pub fn prints_each_statement_on_a_line()
    ensures one { printed last_symbol_marked ≡ codes "line x y;\nsymbol a = 1-;\nsymbol b = 01;\noutput z;\nexpr (a | b)* a !z;\n" }
    ensures several { printed overlapping_symbols ≡ codes "line x y;\nsymbol a = 1-;\nsymbol b = -1;\noutput z v;\nexpr a b !z;\nexpr b a !v;\n" }
{}

/// Right parts of the same kind stand in parentheses, left parts do not.
pub fn encloses_right_parts_of_the_same_kind()
    ensures left_union { text_of (union (union (symbol 0) (symbol 1)) (symbol 0)) ≡ codes "a | b | a" }
    ensures right_union { text_of (union (symbol 0) (union (symbol 1) (symbol 0))) ≡ codes "a | (b | a)" }
    ensures left_sequence { text_of (sequence (sequence (symbol 0) (symbol 1)) (symbol 0)) ≡ codes "a b a" }
    ensures right_sequence { text_of (sequence (symbol 0) (sequence (symbol 1) (symbol 0))) ≡ codes "a (b a)" }
{}

/// A union stands in parentheses in a sequence, and a sequence does not in a union.
pub fn encloses_unions_in_sequences()
    ensures first { text_of (sequence (union (symbol 0) (symbol 1)) (symbol 0)) ≡ codes "(a | b) a" }
    ensures second { text_of (sequence (symbol 0) (union (symbol 1) (symbol 0))) ≡ codes "a (b | a)" }
    ensures sequences { text_of (union (sequence (symbol 0) (symbol 1)) (sequence (symbol 1) (symbol 0))) ≡ codes "a b | b a" }
{}

/// Unions and sequences stand in parentheses under a sign, and signs follow one another.
pub fn encloses_what_stands_under_a_sign()
    ensures loops { text_of (star (union (symbol 0) (symbol 1))) ≡ codes "(a | b)*" }
    ensures options { text_of (optional (sequence (symbol 0) (symbol 1))) ≡ codes "(a b)?" }
    ensures marks { text_of (marked (sequence (symbol 0) (symbol 1)) 0) ≡ codes "(a b) !z" }
    ensures signs { text_of (plus (star (marked (optional (symbol 0)) 0))) ≡ codes "a? !z*+" }
{}

/// A counted repeat stands right behind its operand, as a sign does.
pub fn prints_counted_repeats()
    ensures symbols { text_of (repeated (symbol 0) 2 3) ≡ codes "a{2,3}" }
    ensures sequences { text_of (repeated (sequence (symbol 0) (symbol 1)) 0 1) ≡ codes "(a b){0,1}" }
    ensures repeats { text_of (marked (repeated (repeated (symbol 0) 1 1) 0 2) 0) ≡ codes "a{1,1}{0,2} !z" }
{}

/// The version is stated where there is a counted repeat or a scan, and scans stand last.
pub fn states_the_version_where_it_is_needed()
    ensures repeats { printed (one_symbol (marked (repeated (symbol 0) 2 3) 0 ∷ [])) ≡ codes "version 2;\nline x;\nsymbol a = 1;\noutput z;\nexpr a{2,3} !z;\n" }
    ensures scans { printed (record (one_symbol (symbol 0 ∷ [])) { scans = marked (symbol 0) 0 ∷ [] })
        ≡ codes "version 2;\nline x;\nsymbol a = 1;\noutput z;\nexpr a;\nscan a !z;\n" }
{}
